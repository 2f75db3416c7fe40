//! To which outer rings of a face its inner rings belong.

ghost use Rattle.std.specs.Prelude.{◌≡◌, ◌<◌, ◌≤◌, ◌-◌, ◌^◌, None, map, fold, replicate, length, get_or, option_map, unwrap_or, All, IfOk};
ghost use Rattle.ring_walk.specs.Areas.{ring_area};
ghost use Rattle.ring_walk.specs.Spans.{IsRing};
ghost use Rattle.topo_write.specs.Building.{AreColumns, IsLeaning, IsLine, home_after, ring_at};
ghost use Rattle.topo_write.specs.Polygons.{home_of, lines_of};

use crate::columns::{all_columns, column_of};
use crate::flat::area_at;
use crate::home::{Home, nearer};
use crate::probe::{are_round, probe_of};
use grid_index::EdgeBoxes;
use ring_walk::Side;
use std::alloc::Global;
use tgap_model::{Edge, List, Memory, Seg};

/// The home that is known after one more of the outer rings at `outer`: that one goes round the probe, or it does not.
fn home_after(
    edges: &[Edge],
    rings: &[List<Side>],
    areas: &[i128],
    outer: &[u32],
    probe: Seg,
    found: Option<Home>,
    place: u32,
) -> Option<Home>
    requires lines { All (λ e. IsLine e.points) edges.now }
    requires rings { All (IsRing (length edges.now)) rings.now }
    requires areas { areas.now ≡ map (ring_area (lines_of edges.now)) rings.now }
    requires outer { All (λ p. p < length rings.now) outer.now }
    requires probe { IsLeaning probe }
    requires place { place < length outer.now }
    ensures { result ≡ home_after (lines_of edges.now) (map (ring_at rings.now) outer.now) probe found place }
{
    let ring = outer[place as usize];
    if are_round(edges, probe, rings[ring as usize].as_slice()) {
        let area = area_at(areas, ring);
        Some(nearer(found, Home { place, area }))
    } else {
        found
    }
}

/// Of the outer rings at `outer`, those at `near` among these, the one of least area that goes round the probe, or else the
/// first such one.
fn home_among(
    edges: &[Edge],
    rings: &[List<Side>],
    areas: &[i128],
    outer: &[u32],
    probe: Seg,
    near: &[u32],
) -> Option<Home>
    requires lines { All (λ e. IsLine e.points) edges.now }
    requires rings { All (IsRing (length edges.now)) rings.now }
    requires areas { areas.now ≡ map (ring_area (lines_of edges.now)) rings.now }
    requires outer { All (λ p. p < length rings.now) outer.now }
    requires probe { IsLeaning probe }
    requires near { All (λ j. j < length outer.now) near.now }
    ensures { result ≡ fold (home_after (lines_of edges.now) (map (ring_at rings.now) outer.now) probe) None near.now }
{
    let mut home = None;
    for place in near {
        home = home_after(edges, rings, areas, outer, probe, home, *place);
    }
    home
}

/// The place of a home, or 0.
fn place_of(home: Option<Home>) -> u32
    ensures { result ≡ unwrap_or (option_map (λ h. h.place) home) 0 }
{
    match home {
        Some(home) => home.place,
        None => 0,
    }
}

/// The place, among the outer rings at `outer`, of the one to which an inner ring belongs. Only those are looked at that have
/// the abscissa of its probe.
fn home_of(
    alloc: Global,
    edges: &[Edge],
    rings: &[List<Side>],
    areas: &[i128],
    outer: &[u32],
    boxes: &EdgeBoxes,
    inner: &[Side],
) -> Result<u32, Memory>
    requires lines { All (λ e. IsLine e.points) edges.now }
    requires rings { All (IsRing (length edges.now)) rings.now }
    requires areas { areas.now ≡ map (ring_area (lines_of edges.now)) rings.now }
    requires outer { All (λ p. p < length rings.now) outer.now }
    requires boxes { AreColumns (lines_of edges.now) rings.now outer.now boxes.now }
    requires inner { IsRing (length edges.now) inner.now }
    ensures { IfOk result (λ home. home ≡ home_of (lines_of edges.now) (map (ring_at rings.now) outer.now) inner.now) }
{
    let Some(probe) = probe_of(edges, inner) else {
        return Ok(0);
    };
    let near = boxes.near(alloc, column_of(probe))?;
    let home = home_among(edges, rings, areas, outer, probe, near.as_slice());
    Ok(place_of(home))
}

/// The same for the inner rings at `inner`.
fn all_homes(
    alloc: Global,
    edges: &[Edge],
    rings: &[List<Side>],
    areas: &[i128],
    outer: &[u32],
    inner: &[u32],
) -> Result<Vec<u32>, Memory>
    requires lines { All (λ e. IsLine e.points) edges.now }
    requires rings { All (IsRing (length edges.now)) rings.now }
    requires areas { areas.now ≡ map (ring_area (lines_of edges.now)) rings.now }
    requires outer { All (λ p. p < length rings.now) outer.now }
    requires few { length outer.now < 2 ^ 32 - 1 }
    requires inner { All (λ p. p < length rings.now) inner.now }
    ensures { IfOk result (λ homes. homes.items ≡ map (λ p. home_of (lines_of edges.now) (map (ring_at rings.now) outer.now) (ring_at rings.now p)) inner.now) }
{
    let boxes = EdgeBoxes::of(alloc, &all_columns(alloc, edges, rings, outer)?)?;
    let mut homes = Vec::with_capacity(alloc, inner.len())?;
    for place in inner {
        let ring = rings[*place as usize].as_slice();
        homes.push(home_of(alloc, edges, rings, areas, outer, &boxes, ring)?)?;
    }
    Ok(homes)
}

/// So many times the first place.
fn first_homes(alloc: Global, count: usize) -> Result<Vec<u32>, Memory>
    ensures { IfOk result (λ homes. homes.items ≡ replicate count 0) }
{
    Ok(Vec::from_elem(alloc, 0, count)?)
}

/// For each of the inner rings at `inner` the place, among the outer rings at `outer`, of the one to which it belongs. With one
/// outer ring nothing is looked at; with more each inner ring is tried with those that have the abscissa of its probe.
pub fn homes_of(
    alloc: Global,
    edges: &[Edge],
    rings: &[List<Side>],
    areas: &[i128],
    outer: &[u32],
    inner: &[u32],
) -> Result<Vec<u32>, Memory>
    requires lines { All (λ e. IsLine e.points) edges.now }
    requires rings { All (IsRing (length edges.now)) rings.now }
    requires areas { areas.now ≡ map (ring_area (lines_of edges.now)) rings.now }
    requires outer { All (λ p. p < length rings.now) outer.now }
    requires few { length outer.now < 2 ^ 32 - 1 }
    requires inner { All (λ p. p < length rings.now) inner.now }
    ensures { IfOk result (λ homes. homes.items ≡ map (λ p. home_of (lines_of edges.now) (map (ring_at rings.now) outer.now) (ring_at rings.now p)) inner.now) }
{
    if outer.len() < 2 {
        let homes = first_homes(alloc, inner.len())?;
        return Ok(homes);
    }
    all_homes(alloc, edges, rings, areas, outer, inner)
}
