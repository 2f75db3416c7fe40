//! Faces that are no polygons.

ghost use Rattle.std.specs.Prelude.{◌≡◌, ◌<◌, ℤ, pos, int_lt, IsTrue, Option, map, find, length, get_or, All, option_map};
ghost use Rattle.std.specs.List.{list_any};
ghost use Rattle.std.specs.Ordering.{int_eq};
ghost use Rattle.ring_walk.specs.Areas.{ring_area};
ghost use Rattle.ring_walk.specs.Spans.{IsRing};
ghost use Rattle.topo_write.specs.Building.{AreRings, area_at, ring_at, rings_in};
ghost use Rattle.topo_write.specs.Polygons.{first_ring, flat_among, flat_of, lines_of, ring_key};

use crate::measured::Measured;
use crate::parts::places_of;
use ring_walk::Side;
use tgap_model::{Edge, FaceRow, List};

/// A face with a ring of area 0, or with no ring of positive area. The key is the least one on its first ring of area 0, or
/// else on its first ring: that of the edge with which the ring begins.
#[derive(Clone, Copy, PartialEq, Eq)]
pub struct FlatRing {
    pub face: u32,
    pub key: u32,
}

/// Twice the area of the ring at a place.
pub fn area_at(areas: &[i128], place: u32) -> i128
    requires { place < length areas.now }
    ensures { result ≡ area_at areas.now place }
{
    areas[place as usize]
}

/// The first of these places at which the ring has the area 0.
fn first_flat(areas: &[i128], places: &[u32]) -> Option<u32>
    requires { All (λ p. p < length areas.now) places.now }
    ensures { result ≡ find (λ p. int_eq (area_at areas.now p) (pos 0)) places.now }
{
    for place in places {
        if area_at(areas, *place) == 0 {
            return Some(*place);
        }
    }
    None
}

/// Whether at some of these places the ring has a positive area.
fn has_outer(areas: &[i128], places: &[u32]) -> bool
    requires { All (λ p. p < length areas.now) places.now }
    ensures { result ≡ list_any (λ p. int_lt (pos 0) (area_at areas.now p)) places.now }
{
    for place in places {
        if area_at(areas, *place) > 0 {
            return true;
        }
    }
    false
}

/// The key of the edge with which a ring begins.
fn ring_key(edges: &[Edge], ring: &[Side]) -> u32
    requires { IsRing (length edges.now) ring.now }
    ensures { result ≡ ring_key edges.now ring.now }
{
    match ring.first() {
        Some(side) => edges[side.span as usize].key,
        None => 0,
    }
}

/// That of the first of the rings at these places.
fn first_key(edges: &[Edge], rings: &[List<Side>], places: &[u32]) -> u32
    requires rings { All (IsRing (length edges.now)) rings.now }
    requires places { All (λ p. p < length rings.now) places.now }
    ensures { result ≡ ring_key edges.now (first_ring (map (ring_at rings.now) places.now)) }
{
    match places.first() {
        Some(place) => ring_key(edges, rings[*place as usize].as_slice()),
        None => 0,
    }
}

/// The key of the ring by which a face with the rings at these places is no polygon.
fn flat_key(edges: &[Edge], rings: &[List<Side>], areas: &[i128], places: &[u32]) -> Option<u32>
    requires rings { All (IsRing (length edges.now)) rings.now }
    requires areas { areas.now ≡ map (ring_area (lines_of edges.now)) rings.now }
    requires places { All (λ p. p < length rings.now) places.now }
    ensures { result ≡ option_map (ring_key edges.now) (flat_among (lines_of edges.now) (map (ring_at rings.now) places.now)) }
{
    if let Some(place) = first_flat(areas, places) {
        return Some(ring_key(edges, rings[place as usize].as_slice()));
    }
    if has_outer(areas, places) {
        None
    } else {
        Some(first_key(edges, rings, places))
    }
}

/// The first of these rows whose face is no polygon.
pub fn flat_of(edges: &[Edge], rings: &Measured, rows: &[FaceRow]) -> Option<FlatRing>
    requires { AreRings edges.now rings.now }
    ensures { result ≡ flat_of edges.now (rings_in rings.now.rings rings.now.groups) rows.now }
{
    for row in rows {
        let places = places_of(rings.groups.as_slice(), row.face);
        let key = flat_key(
            edges,
            rings.rings.as_slice(),
            rings.areas.as_slice(),
            places,
        );
        if let Some(key) = key {
            return Some(FlatRing {
                face: row.face,
                key,
            });
        }
    }
    None
}
