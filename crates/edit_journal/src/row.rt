//! An entry beside the bytes that stand for it.

ghost use Rattle.std.specs.Prelude.{◌≡◌, ◌<◌, ◌^◌, ◌++◌, ◌∷◌, [], length, IfOk};
ghost use Rattle.edit_journal.specs.Entries.{body_of};
ghost use Rattle.edit_journal.specs.Told.{kept_of};

use crate::entry::Entry;
use crate::reading::HEAD;
use std::alloc::Global;
use tgap_model::{Memory, Text};

/// An entry, with its bytes behind the first one and a byte 0 behind them.
#[derive(Drop)]
pub struct Row {
    pub entry: Entry,
    pub bytes: Vec<u8>,
    ghost number: { entry.number < 2 ^ 64 },
    ghost size: { length entry.batch < 2 ^ 32 },
    ghost spelled: { bytes.items ≡ body_of (kept_of entry) ++ 0 ∷ [] },
}

/// The entry with this number and a copy of this batch. It takes all the memory that storing the entry takes.
pub fn row_of(alloc: Global, number: u64, batch: &[u8]) -> Result<Row, Memory>
    requires { length batch.now < 2 ^ 32 }
    ensures { IfOk result (λ row. kept_of row.entry ≡ record { number = number; batch = batch.now }) }
{
    let mut bytes = Vec::with_capacity(alloc, HEAD + batch.len())?;
    bytes.extend_from_slice(&number.to_be_bytes())?;
    bytes.extend_from_slice(&(batch.len() as u32).to_be_bytes())?;
    bytes.extend_from_slice(batch)?;
    bytes.push(0)?;
    let batch = Text::from_slice(alloc, batch)?;
    Ok(Row {
        entry: Entry { number, batch },
        bytes,
    })
}
