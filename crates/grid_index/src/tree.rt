//! A packed tree over a row of boxes.

ghost use Rattle.std.specs.Prelude.{◌≡◌, ◌<◌, ◌≤◌, ◌*◌, ◌++◌, List as Sequence, length, filter, slice_set, All, IfOk, IfSome, IfNone, OnOk};
ghost use Rattle.std.specs.Vec.{vec_capacity, vec_len};
ghost use Rattle.tgap_model.specs.declared.geometry.Window.{Window as Area};
ghost use Rattle.grid_index.specs.Near.{near_boxes, IsNextHit};
ghost use Rattle.grid_index.specs.Tower.{meets_at, children, meeting, IsHull, IsTower, HoldsGroup, IsTowerBut, AreLevels, IsClear};

use crate::probe::Probe;
use crate::window::{hull, meets};
use std::alloc::Global;
use std::marker::Model;
use std::mem;
use tgap_model::{List, Memory, Window};

/// How many boxes of a level one box of the level above it holds.
const FANOUT: usize = 16;

/// A row of boxes, and levels of boxes over it: each level has the hull of every sixteen in a row of the level below, and
/// the highest has sixteen at most. Boxes that stand near one another in the row should be near one another in the plane.
#[derive(Drop)]
pub struct BoxTree {
    boxes: List<Window>,
    levels: Vec<List<Window>>,
}

impl Model for BoxTree {
    ghost use Rattle.std.specs.Prelude.{List as Sequence};
    ghost use Rattle.tgap_model.specs.declared.geometry.Window.{Window as Area};
    ghost use Rattle.grid_index.specs.Tower.{IsTower};

    ghost Value = { Sequence Area };

    ghost view = { λ t. t.boxes };

    ghost invariant = { λ t. IsTower t.levels.items t.boxes };
}

/// The level above a row of boxes.
fn hulls_of(alloc: Global, boxes: &[Window]) -> Result<List<Window>, Memory>
    ensures { IfOk result (λ hulls. IsHull hulls boxes.now) }
{
    let count = boxes.len().div_ceil(FANOUT);
    let mut hulls = List::with_capacity(alloc, count)?;
    for i in 0..count {
        let start = FANOUT * i;
        let end = start + FANOUT.min(boxes.len() - start);
        hulls.push(hull(&boxes[start..end]))?;
    }
    Ok(hulls)
}

/// The levels above a row of boxes, the highest first.
fn levels_of(alloc: Global, boxes: &[Window]) -> Result<Vec<List<Window>>, Memory>
    ensures { IfOk result (λ levels. IsTower levels.items boxes.now) }
{
    let mut levels = Vec::new(alloc);
    let mut top = hulls_of(alloc, boxes)?;
    'up: while top.len() > FANOUT {
        let above = hulls_of(alloc, top.as_slice())?;
        levels.insert(0, top)?;
        top = above;
    }
    levels.insert(0, top)?;
    Ok(levels)
}

/// Puts the children of a box that meet the area after those of `kept`.
fn push_meeting(
    kept: &mut Vec<usize>,
    level: &[Window],
    parent: usize,
    area: &Window,
) -> Result<(), Memory>
    requires { FANOUT * parent ≤ length level.now }
    ensures { OnOk result (kept.new.items ≡ kept.old.items ++ filter (meets_at area.now level.now) (children parent)) }
{
    let start = FANOUT * parent;
    let end = start + FANOUT.min(level.len() - start);
    for i in start..end {
        if meets(area, &level[i]) {
            kept.push(i)?;
        }
    }
    Ok(())
}

/// The children of these boxes that meet the area.
fn meeting(
    alloc: Global,
    level: &[Window],
    parents: &[usize],
    area: &Window,
) -> Result<Vec<usize>, Memory>
    requires { All (λ n. FANOUT * n ≤ length level.now) parents.now }
    ensures { IfOk result (λ kept. kept.items ≡ meeting area.now level.now parents.now) }
{
    let mut kept = Vec::with_capacity(alloc, FANOUT.max(parents.len()))?;
    for parent in parents {
        push_meeting(&mut kept, level, *parent, area)?;
    }
    Ok(kept)
}

/// The hull of the boxes of a level that one box of the level above holds.
fn group_hull(boxes: &[Window], parent: usize) -> Window
    requires { FANOUT * parent < length boxes.now }
    ensures { HoldsGroup result parent boxes.now }
{
    let start = FANOUT * parent;
    let end = start + FANOUT.min(boxes.len() - start);
    hull(&boxes[start..end])
}

/// Puts another box in the place of one.
fn set_box(alloc: Global, boxes: &mut List<Window>, place: usize, area: Window)
    requires { place < length boxes.old }
    ensures { boxes.new ≡ slice_set boxes.old place area }
{
    let mut items = mem::replace(boxes, List::new(alloc)).into_vec();
    items[place] = area;
    *boxes = List::from(items);
}

/// Makes the hulls over a box of the row anew, after that box changed.
fn renew(alloc: Global, levels: &mut Vec<List<Window>>, row: &[Window], place: usize)
    requires place { place < length row.now }
    requires tower { IsTowerBut levels.old.items row.now place }
    ensures tower { IsTower levels.new.items row.now }
    ensures len { vec_len levels.new ≡ vec_len levels.old }
    ensures capacity { vec_capacity levels.new ≡ vec_capacity levels.old }
{
    let Some(mut above) = levels.pop() else {
        return;
    };
    let parent = place / FANOUT;
    set_box(alloc, &mut above, parent, group_hull(row, parent));
    renew(alloc, levels, above.as_slice(), parent);
    levels.push_reserved(above);
}

/// The end of the boxes from `at` on that boxes of these levels hold which fail the test, or `at` itself. The last
/// level is the one over the row, and the largest group that begins at `at` and can be passed over is passed over.
fn skipped<P: Probe>(levels: &[List<Window>], probe: &P, at: usize) -> usize
    ensures after { at ≤ result }
    ensures clear { (row : Sequence Area) → AreLevels levels.now row → IsClear (P.hits probe.now) row at result }
{
    let Some((level, above)) = levels.split_last() else {
        return at;
    };
    let parent = at / FANOUT;
    let hulls = level.as_slice();
    if at % FANOUT != 0 || parent >= hulls.len() || probe.is_hit(&hulls[parent]) {
        return at;
    }
    let end = skipped(above, probe, parent).max(parent + 1);
    end.saturating_mul(FANOUT)
}

/// What `skipped` tells. Most places begin no group, and that is seen here without a call.
fn passed<P: Probe>(levels: &[List<Window>], probe: &P, at: usize) -> usize
    ensures after { at ≤ result }
    ensures clear { (row : Sequence Area) → AreLevels levels.now row → IsClear (P.hits probe.now) row at result }
{
    if at % FANOUT == 0 {
        skipped(levels, probe, at)
    } else {
        at
    }
}

impl BoxTree {
    /// The tree over these boxes, in their order.
    pub fn of(alloc: Global, boxes: List<Window>) -> Result<BoxTree, Memory>
        ensures { IfOk result (λ tree. tree ≡ boxes) }
    {
        let levels = levels_of(alloc, boxes.as_slice())?;
        Ok(BoxTree { boxes, levels })
    }

    /// The places, in ascending order, at which a box meets the area.
    pub fn near(&self, alloc: Global, area: &Window) -> Result<Vec<usize>, Memory>
        ensures { IfOk result (λ places. places.items ≡ near_boxes area.now self.now) }
    {
        let mut parents = vec![in alloc; 0usize]?;
        for level in self.levels.as_slice() {
            parents = meeting(alloc, level.as_slice(), &parents, area)?;
        }
        meeting(alloc, self.boxes.as_slice(), &parents, area)
    }

    /// The places, in ascending order, at which a box meets the area, or none where there are more than `most`. No more
    /// boxes are looked at than it takes to see that.
    pub fn near_up_to(
        &self,
        alloc: Global,
        area: &Window,
        most: usize,
    ) -> Result<Option<Vec<usize>>, Memory>
        ensures few { IfOk result (λ found. IfSome found (λ places. places.items ≡ near_boxes area.now self.now)) }
        ensures many { IfOk result (λ found. IfNone found (most < length (near_boxes area.now self.now))) }
    {
        let mut places = Vec::new(alloc);
        let mut at = self.next(area, 0);
        'walk: while at < self.boxes.len() {
            if places.len() >= most {
                return Ok(None);
            }
            places.push(at)?;
            at = self.next(area, at + 1);
        }
        Ok(Some(places))
    }

    /// The boxes.
    pub fn boxes(&self) -> &List<Window>
        ensures { result.now ≡ self.now }
    {
        &self.boxes
    }

    /// Puts another box in the place of one. It takes no memory, and the time of a few boxes a level.
    pub fn set(&mut self, alloc: Global, place: usize, area: Window)
        requires { place < length self.old }
        ensures { self.new ≡ slice_set self.old place area }
    {
        set_box(alloc, &mut self.boxes, place, area);
        renew(alloc, &mut self.levels, self.boxes.as_slice(), place);
    }

    /// The first place from `from` on whose box passes the test, or the number of the boxes where there is none: with a
    /// window, whose box meets it. It takes no memory, and all places in turn take the time of those places and of the
    /// hulls that pass.
    pub fn next<P: Probe>(&self, probe: &P, from: usize) -> usize
        requires { from ≤ length self.now }
        ensures { IsNextHit (P.hits probe.now) self.now from result }
    {
        let boxes = self.boxes.as_slice();
        let levels = self.levels.as_slice();
        let mut at = from;
        'walk: while at < boxes.len() {
            let end = passed(levels, probe, at);
            if at < end {
                at = end.min(boxes.len());
            } else if probe.is_hit(&boxes[at]) {
                return at;
            } else {
                at += 1;
            }
        }
        at
    }
}
