//! Which segments may have a meeting: of two that are not doubtful none meets the other.

ghost use Rattle.std.specs.Prelude.{◌≡◌, ◌<◌, ◌^◌, ◌++◌, [], ◌∷◌, if◌then◌else◌, length, get_or, IfOk, IsTrue};
ghost use Rattle.std.specs.List.{filter, list_all};
ghost use Rattle.tgap_model.specs.Partition.{is_proper};
ghost use Rattle.planar_apart.specs.Rows.{past_last};
ghost use Rattle.planar_apart.specs.Doubts.{is_doubtful, others, AreDoubts};

use planar_sweep::{all_apart, set_aside};
use std::alloc::Global;
use tgap_model::{LabelledSegment, List, Memory};

/// Whether the segment of a number is doubtful, also where nothing is said of it.
pub fn is_doubtful(doubts: &[bool], number: usize) -> bool
    ensures { result ≡ is_doubtful doubts.now number }
{
    doubts.get(number).copied().unwrap_or(true)
}

/// Puts the segment of a number after the others, if it is not doubtful.
fn push_certain(
    others: &mut List<LabelledSegment>,
    segments: &[LabelledSegment],
    doubts: &[bool],
    number: usize,
) -> Result<(), Memory>
    requires inside { number < length segments.now }
    ensures { IfOk result (λ _. others.new ≡ others.old
        ++ (if is_doubtful doubts.now number then [] else get_or segments.now number past_last ∷ [])) }
{
    if is_doubtful(doubts, number) {
        return Ok(());
    }
    others.push(segments[number])?;
    Ok(())
}

/// The segments that are not doubtful.
fn others_of(
    alloc: Global,
    segments: &[LabelledSegment],
    doubts: &[bool],
) -> Result<List<LabelledSegment>, Memory>
    ensures { IfOk result (λ kept. kept ≡ others segments.now doubts.now) }
{
    let mut kept = List::new(alloc);
    for number in 0..segments.len() {
        push_certain(&mut kept, segments, doubts, number)?;
    }
    Ok(kept)
}

/// Those of the numbers whose segments are doubtful.
pub fn doubtful_of(alloc: Global, numbers: &[usize], doubts: &[bool]) -> Result<Vec<usize>, Memory>
    ensures { IfOk result (λ found. found.items ≡ filter (is_doubtful doubts.now) numbers.now) }
{
    let mut found = Vec::new(alloc);
    for number in numbers {
        if is_doubtful(doubts, *number) {
            found.push(*number)?;
        }
    }
    Ok(found)
}

/// The doubtful segments: those that a sweep sets aside. Where the others are not apart then, all are doubtful.
pub fn doubts_of(alloc: Global, segments: &[LabelledSegment]) -> Result<Vec<bool>, Memory>
    requires proper { IsTrue (list_all is_proper segments.now) }
    requires few { length segments.now < 2 ^ 32 }
    ensures { IfOk result (λ doubts. AreDoubts segments.now doubts.items) }
{
    let doubts = set_aside(alloc, segments)?;
    let others = others_of(alloc, segments, &doubts)?;
    let apart = all_apart(alloc, others.as_slice())?;
    if !apart {
        return Ok(Vec::new(alloc));
    }
    Ok(doubts)
}
