//! Edges at the places of their keys, with the look-up of their boxes, as a sweep reads them.

ghost use Rattle.std.specs.Prelude.{◌≡◌, ◌++◌, List as Sequence, flat_map, IfOk, OnOk};
ghost use Rattle.std.specs.Option.{option_map};
ghost use Rattle.tgap_model.specs.declared.slice.Edge.{Edge as Line};
ghost use Rattle.grid_index.specs.Keyed.{edge_in, edges_in, AreAtKeys};
ghost use Rattle.grid_index.specs.Live.{AreLive};
ghost use Rattle.tgap_build.specs.Sought.{AreBoxed, segments_in};

use grid_index::{EdgeBoxes, SegmentPlace};
use point_rope::{EdgeRow, RopeEdge};
use std::alloc::Global;
use std::marker::Model;
use tgap_model::{List, Memory, Window};
use vertex_drop::LiveTable;

/// The edge at the place of this key, if there is one.
fn edge_with_key(places: &[Option<RopeEdge>], key: u32) -> Option<&RopeEdge>
    ensures { option_map (λ e. e.now) result ≡ edge_in places.now key }
{
    match places.get(key as usize) {
        Some(Some(edge)) => Some(edge),
        _ => None,
    }
}

/// Puts the segments of the edge with this key, if there is one, whose boxes meet the area after those of `found`.
fn push_segments(
    places: &[Option<RopeEdge>],
    key: u32,
    area: &Window,
    found: &mut List<SegmentPlace>,
) -> Result<(), Memory>
    requires { AreLive (edges_in places.now) }
    ensures { OnOk result (found.new ≡ found.old ++ segments_in area.now places.now key) }
{
    if let Some(edge) = edge_with_key(places, key) {
        EdgeRow::of_rope(edge).push_near(area, found)?;
    }
    Ok(())
}

/// The segments of the edges with these keys whose boxes meet the area.
fn segments_of(
    alloc: Global,
    places: &[Option<RopeEdge>],
    keys: &[u32],
    area: &Window,
) -> Result<List<SegmentPlace>, Memory>
    requires { AreLive (edges_in places.now) }
    ensures { IfOk result (λ found. found ≡ flat_map (segments_in area.now places.now) keys.now) }
{
    let mut found = List::new(alloc);
    for key in keys {
        push_segments(places, *key, area, &mut found)?;
    }
    Ok(found)
}

/// Edges at the places of their keys with a box for each, both lent. Contracts see the list of the edges.
#[derive(Drop)]
pub struct LiveRopes<'a> {
    places: &'a [Option<RopeEdge>],
    boxes: &'a EdgeBoxes,
}

impl<'a> Model for LiveRopes<'a> {
    ghost use Rattle.std.specs.Prelude.{List as Sequence};
    ghost use Rattle.tgap_model.specs.declared.slice.Edge.{Edge as Line};
    ghost use Rattle.grid_index.specs.Keyed.{edges_in, AreAtKeys};
    ghost use Rattle.grid_index.specs.Live.{AreLive};
    ghost use Rattle.tgap_build.specs.Sought.{AreBoxed};

    ghost Value = { Sequence Line };

    ghost view = { λ l. edges_in l.places.now };

    ghost invariant = { λ l. AreAtKeys l.places.now × AreLive (edges_in l.places.now) × AreBoxed l.places.now l.boxes.now };
}

impl<'a> LiveRopes<'a> {
    /// The edges at these places, with the look-up of their boxes.
    pub fn of(places: &'a [Option<RopeEdge>], boxes: &'a EdgeBoxes) -> LiveRopes<'a>
        requires keyed { AreAtKeys places.now }
        requires live { AreLive (edges_in places.now) }
        requires boxed { AreBoxed places.now boxes.now }
        ensures { result ≡ edges_in places.entry.now }
    {
        LiveRopes { places, boxes }
    }
}

impl<'a> LiveTable for LiveRopes<'a> {
    ghost edges = { λ edges. edges };

    fn row(&self, key: u32) -> Option<EdgeRow<'_>> {
        match edge_with_key(self.places, key) {
            Some(edge) => Some(EdgeRow::of_rope(edge)),
            None => None,
        }
    }

    fn near(&self, alloc: Global, area: Window) -> Result<List<SegmentPlace>, Memory> {
        let keys = self.boxes.near(alloc, area)?;
        segments_of(alloc, self.places, keys.as_slice(), &area)
    }
}
