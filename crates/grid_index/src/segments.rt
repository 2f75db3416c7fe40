//! The boxes of the segments of an edge.

ghost use Rattle.std.specs.Prelude.{◌≡◌, ◌<◌, ◌-◌, ◌^◌, ◌++◌, length, map, All, IfOk, OnOk};
ghost use Rattle.grid_index.specs.Boxes.{Covers};
ghost use Rattle.grid_index.specs.Near.{near_boxes};
ghost use Rattle.grid_index.specs.Live.{segment_boxes};
ghost use Rattle.grid_index.specs.Slots.{entry_of, entry_near};

use crate::boxes::narrowed;
use crate::live::SegmentPlace;
use crate::tree::BoxTree;
use crate::window::{hull, segment_box};
use std::alloc::Global;
use std::marker::Model;
use tgap_model::{Edge, List, Memory, Point, Window};

/// The boxes of the segments of an edge, in their order: segments in a row are near one another, so a tree over them needs
/// no other order.
#[derive(Drop)]
pub struct SegmentBoxes {
    tree: BoxTree,
}

impl Model for SegmentBoxes {
    ghost use Rattle.std.specs.Prelude.{List as Sequence, ◌<◌, ◌-◌, ◌^◌, length};
    ghost use Rattle.tgap_model.specs.declared.geometry.Window.{Window as Area};

    ghost Value = { Sequence Area };

    ghost view = { λ b. b.tree };

    ghost invariant = { λ b. length b.tree < 2 ^ 32 - 1 };
}

/// An edge by its key, with the boxes of its segments.
#[derive(Drop)]
pub struct Entry {
    pub key: u32,
    pub boxes: SegmentBoxes,
}

/// A box that meets nothing.
pub const NOWHERE: Window = Window {
    x0: i64::MAX,
    y0: i64::MAX,
    x1: i64::MIN,
    y1: i64::MIN,
};

/// The boxes of the segments of a row of points.
fn boxes_of(alloc: Global, points: &[Point]) -> Result<List<Window>, Memory>
    ensures { IfOk result (λ boxes. boxes ≡ segment_boxes points.now) }
{
    let mut boxes = List::with_capacity(alloc, points.len())?;
    for i in 1..points.len() {
        boxes.push(segment_box(&points[i - 1], &points[i]))?;
    }
    Ok(boxes)
}

/// A box that holds these.
fn bounds_of(boxes: &[Window]) -> Window
    ensures { All (Covers result) boxes.now }
{
    if boxes.is_empty() {
        NOWHERE
    } else {
        hull(boxes)
    }
}

/// Puts segments of an edge after those of `found`.
fn push_places(found: &mut List<SegmentPlace>, key: u32, places: &[u32]) -> Result<(), Memory>
    ensures { OnOk result (found.new ≡ found.old ++ map (λ i. record { key = key; place = i }) places.now) }
{
    for place in places {
        found.push(SegmentPlace { key, place: *place })?;
    }
    Ok(())
}

impl SegmentBoxes {
    /// The boxes of the segments of a row of points.
    fn of(alloc: Global, points: &[Point]) -> Result<SegmentBoxes, Memory>
        requires { length points.now < 2 ^ 32 - 1 }
        ensures { IfOk result (λ boxes. boxes ≡ segment_boxes points.now) }
    {
        let tree = BoxTree::of(alloc, boxes_of(alloc, points)?)?;
        Ok(SegmentBoxes { tree })
    }

    /// The places, in ascending order, at which a box meets the area.
    fn near(&self, alloc: Global, area: &Window) -> Result<List<u32>, Memory>
        ensures { IfOk result (λ places. places ≡ near_boxes area.now self.now) }
    {
        let places = self.tree.near(alloc, area)?;
        narrowed(alloc, &places)
    }

    /// A box that holds them.
    fn bounds(&self) -> Window
        ensures { All (Covers result) self.now }
    {
        bounds_of(self.tree.boxes().as_slice())
    }
}

impl Entry {
    /// The boxes of an edge.
    pub fn of(alloc: Global, edge: &Edge) -> Result<Entry, Memory>
        requires { length edge.now.points < 2 ^ 32 - 1 }
        ensures { IfOk result (λ entry. entry ≡ entry_of edge.now) }
    {
        Ok(Entry {
            key: edge.key,
            boxes: SegmentBoxes::of(alloc, edge.points.as_slice())?,
        })
    }

    /// A box that holds those of its segments.
    pub fn bounds(&self) -> Window
        ensures { All (Covers result) self.now.boxes }
    {
        self.boxes.bounds()
    }

    /// Puts the segments whose boxes meet the area after those of `found`.
    pub fn push_near(
        &self,
        alloc: Global,
        area: &Window,
        found: &mut List<SegmentPlace>,
    ) -> Result<(), Memory>
        ensures { OnOk result (found.new ≡ found.old ++ entry_near area.now self.now) }
    {
        let places = self.boxes.near(alloc, area)?;
        push_places(found, self.key, places.as_slice())
    }
}
