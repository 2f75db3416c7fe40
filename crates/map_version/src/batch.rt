//! A batch of edits.

ghost use Rattle.std.specs.Prelude.{◌≡◌, ◌≤◌, length};
ghost use Rattle.edit_laws.specs.Edits.{edit_rows, edited};
ghost use Rattle.map_version.specs.Faults.{fault_at, GivesEdited};

use crate::cause::NO_EDIT;
use crate::draft::Draft;
use crate::fault::EditFault;
use plain_io::Lines;
use std::alloc::Global;
use tgap_model::{Base, Or};

/// The fault of the line with this number.
fn at_line(line: u32, cause: Or<u8>) -> Or<EditFault>
    ensures { result ≡ fault_at line cause }
{
    match cause {
        Or::Fault(cause) => Or::Fault(EditFault { line, cause }),
        Or::Memory => Or::Memory,
    }
}

/// The map after the lines of the batch that are left.
fn apply_all<'a>(
    alloc: Global,
    mut draft: Draft<'a>,
    lines: &mut Lines,
) -> Result<Draft<'a>, Or<EditFault>>
    requires { 1 ≤ length lines.old.rows }
    ensures { GivesEdited result (edit_rows lines.old.number lines.old.rows draft.entry) }
{
    let mut number = lines.number();
    while let Some(mut words) = lines.next_line() {
        match draft.apply_line(alloc, &mut words) {
            Ok(next) => draft = next,
            Err(cause) => return Err(at_line(number, cause)),
        }
        number = lines.number();
    }
    if lines.is_over() {
        Ok(draft)
    } else {
        Err(at_line(number, Or::Fault(NO_EDIT)))
    }
}

/// The map that a batch of lines makes of a base map, each line applied to what the lines before it left, by 'Edit batches' of
/// docs/formats.md. Where a line is at fault the answer is that line and its cause, and the base map stays as it is.
///
/// Lines are numbered from 1, and all from 4,294,967,295 on have that number. A batch that only changes classes costs the number of
/// faces and of arcs: the edited map holds the arcs of the base map, where others can hold them, and copies no point. The first
/// other line costs one pass over the map, whose arcs are copied, and a sort of its points. Each line that names a point costs the
/// logarithm of the number of points and the length of the arcs that have or had the points that it names. A new node costs a copy
/// of the points from it to the end of its arc too, and a look-up for each point of the shorter part. A cut costs a look at each
/// arc, a look-up for each of its points, and what `cut_along` of `face_cuts` takes; where the cuts of the batch have listed as
/// much as the map has, the next one costs a pass over the map and a sort of its points once more. A fusion costs the arcs of the
/// face that is gone and of the last one, and where these are all between the two faces, those of the one that is kept.
pub fn edited(alloc: Global, base: &Base, batch: &[u8]) -> Result<Base, Or<EditFault>>
    // The edited map, or which line is refused first and for what cause, by the function that computes on small batches.
    ensures exact { GivesEdited result (edited base.now batch.now) }
{
    let draft = Draft::of(alloc, base)?;
    let mut lines = Lines::of(batch);
    let draft = apply_all(alloc, draft, &mut lines)?;
    Ok(draft.into_base(alloc)?)
}
