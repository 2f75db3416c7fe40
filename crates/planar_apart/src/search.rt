//! The least pair of segments that meet. Whether there may be one is told by a sweep; only then is the least one looked
//! for, by number.

ghost use Rattle.std.specs.Prelude.{◌≡◌, ℕ, ◌<◌, ◌-◌, ◌^◌, IsTrue, IfOk, true, false, length, option_map};
ghost use Rattle.std.specs.List.{list_all};
ghost use Rattle.tgap_model.specs.Partition.{is_proper, meeting_from};
ghost use Rattle.planar_stack.specs.Sweep.{FacesAgree};
ghost use Rattle.planar_apart.specs.Meetings.{meets};
ghost use Rattle.planar_apart.specs.Doubts.{is_doubtful, Suffice};
ghost use Rattle.planar_apart.specs.Rows.{IsRow, numbered, IsLeastAbove, IsLeastByNumber};

use crate::boxes::near_order;
use crate::doubt::{doubtful_of, doubts_of, is_doubtful};
use crate::meeting::{Meeting, earlier_above};
use crate::row::{NumberedSegment, row_boxes, row_of};
use crate::sight::Sight;
use grid_index::BoxTree;
use planar_sweep::swept;
use std::alloc::Global;
use tgap_model::{LabelledSegment, Memory};

/// The least meeting of a segment with one of the row that has a greater number.
fn least_above(row: &[NumberedSegment], tree: &BoxTree, first: &NumberedSegment) -> Option<Meeting>
    requires row { IsRow row.now tree.now }
    requires proper { IsTrue (is_proper first.now.segment) }
    ensures { IsLeastAbove row.now first.now result }
{
    let sight = Sight::of(&first.segment);
    let mut least = None;
    let mut at = tree.next(&sight, 0);
    'near: while at < row.len() {
        least = earlier_above(least, first, &row[at]);
        at = tree.next(&sight, at + 1);
    }
    least
}

/// The least meeting of a segment with one of greater number. One that is not doubtful is held to the doubtful ones
/// alone.
fn least_of(
    doubts: &[bool],
    few: &[NumberedSegment],
    few_tree: &BoxTree,
    row: &[NumberedSegment],
    tree: &BoxTree,
    first: &NumberedSegment,
) -> Option<Meeting>
    requires few { IsRow few.now few_tree.now }
    requires row { IsRow row.now tree.now }
    requires proper { IsTrue (is_proper first.now.segment) }
    requires suffice { is_doubtful doubts.now first.now.number ≡ false → Suffice few.now row.now first.now }
    ensures { IsLeastAbove row.now first.now result }
{
    if is_doubtful(doubts, first.number as usize) {
        least_above(row, tree, first)
    } else {
        least_above(few, few_tree, first)
    }
}

/// The least meeting of the segments, which stand in the row in some order. The segments are asked by number, as far as
/// the first one that meets one of a greater number.
fn least_by_number(
    segments: &[LabelledSegment],
    doubts: &[bool],
    few: &[NumberedSegment],
    few_tree: &BoxTree,
    row: &[NumberedSegment],
    tree: &BoxTree,
) -> Option<Meeting>
    requires doubtful { IsRow few.now few_tree.now }
    requires row { IsRow row.now tree.now }
    requires proper { IsTrue (list_all is_proper segments.now) }
    requires few { length segments.now < 2 ^ 32 - 1 }
    requires suffice { (i : ℕ) → i < length segments.now → is_doubtful doubts.now i ≡ false
        → Suffice few.now row.now (numbered segments.now i) }
    ensures { IsLeastByNumber segments.now row.now result }
{
    for i in 0..segments.len() {
        let first = NumberedSegment {
            number: i as u32,
            segment: segments[i],
        };
        if let Some(meeting) = least_of(doubts, few, few_tree, row, tree, &first) {
            return Some(meeting);
        }
    }
    None
}

/// The least pair that meets.
fn least_pair(alloc: Global, segments: &[LabelledSegment]) -> Result<Option<Meeting>, Memory>
    requires proper { IsTrue (list_all is_proper segments.now) }
    requires few { length segments.now < 2 ^ 32 - 1 }
    ensures { IfOk result (λ found. option_map meets found ≡ meeting_from 0 segments.now) }
{
    let doubts = doubts_of(alloc, segments)?;
    let order = near_order(alloc, segments)?;
    let numbers = doubtful_of(alloc, &order, &doubts)?;
    let doubtful = row_of(alloc, segments, &numbers)?;
    let numbered = row_of(alloc, segments, &order)?;
    let few = doubtful.as_slice();
    let row = numbered.as_slice();
    let few_tree = BoxTree::of(alloc, row_boxes(alloc, few)?)?;
    let tree = BoxTree::of(alloc, row_boxes(alloc, row)?)?;
    Ok(least_by_number(segments, &doubts, few, &few_tree, row, &tree))
}

/// What is known of segments: the least pair that meets, and whether it is shown that the faces agree down each vertical
/// line.
#[derive(Clone, Copy, PartialEq, Eq)]
pub struct Known {
    pub meeting: Option<Meeting>,
    pub agree: bool,
}

/// The least pair that meets, which is looked for only where a sweep does not show that there is none, and what the sweep
/// shows of the faces.
pub fn first_pair(alloc: Global, segments: &[LabelledSegment]) -> Result<Known, Memory>
    requires proper { IsTrue (list_all is_proper segments.now) }
    requires few { length segments.now < 2 ^ 32 - 1 }
    ensures exact { IfOk result (λ known. option_map meets known.meeting ≡ meeting_from 0 segments.now) }
    ensures agree { IfOk result (λ known. known.agree ≡ true → FacesAgree segments.now) }
{
    let shown = swept(alloc, segments)?;
    if shown.apart {
        return Ok(Known {
            meeting: None,
            agree: shown.agree,
        });
    }
    let meeting = least_pair(alloc, segments)?;
    Ok(Known {
        meeting,
        agree: false,
    })
}
