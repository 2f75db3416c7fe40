//! Copies of records.

ghost use Rattle.std.specs.Prelude.{◌≡◌, IfOk};

use std::alloc::Global;
use tgap_model::{List, Memory, Mend, StepRecord, copied_edges};

/// A copy of a mend.
pub fn copied_mend(alloc: Global, mend: &Mend) -> Result<Mend, Memory>
    ensures { IfOk result (λ copy. copy ≡ mend.now) }
{
    Ok(Mend {
        key: mend.key,
        puts: List::from(mend.puts.as_slice().to_vec(alloc)?),
        pieces: List::from(mend.pieces.as_slice().to_vec(alloc)?),
    })
}

/// Copies of mends.
fn copied_mends(alloc: Global, mends: &[Mend]) -> Result<List<Mend>, Memory>
    ensures { IfOk result (λ copies. copies ≡ mends.now) }
{
    let mut copies = List::with_capacity(alloc, mends.len())?;
    for mend in mends {
        copies.push(copied_mend(alloc, mend)?)?;
    }
    Ok(copies)
}

/// A copy of a record.
pub fn copied_record(alloc: Global, step: &StepRecord) -> Result<StepRecord, Memory>
    ensures { IfOk result (λ copy. copy ≡ step.now) }
{
    Ok(StepRecord {
        step: step.step,
        loser: step.loser,
        loser_class: step.loser_class,
        winner: step.winner,
        winner_class: step.winner_class,
        made: step.made,
        mends: copied_mends(alloc, step.mends.as_slice())?,
        ended: copied_edges(alloc, step.ended.as_slice())?,
    })
}
