//! How entries are read from bytes.

ghost use Rattle.std.specs.Prelude.{◌≡◌, length, option_map, IfOk};
ghost use Rattle.std.specs.Int.{w32, w64, from_be_bytes};
ghost use Rattle.edit_journal.specs.Entries.{entry_at as entry_there, entries_of};
ghost use Rattle.edit_journal.specs.Told.{kept_of, read_of};

use crate::entry::Entry;
use std::alloc::Global;
use tgap_model::{List, Memory, Text};

/// The bytes of an entry beside its batch: the first one, the number and the length.
pub const HEAD: usize = 13;

/// The entry at the front of the bytes, if there is one.
fn entry_at(alloc: Global, bytes: &[u8]) -> Result<Option<Entry>, Memory>
    ensures { IfOk result (λ found. option_map kept_of found ≡ entry_there bytes.now) }
{
    let [first, rest @ ..] = bytes else {
        return Ok(None);
    };
    if *first == 0 || rest.len() < HEAD - 1 {
        return Ok(None);
    }
    let (number, sized) = rest.split_at(8);
    let (size, batch) = sized.split_at(4);
    let size = size_of(size) as usize;
    if batch.len() < size {
        return Ok(None);
    }
    let number = number_of(number);
    let batch = Text::from_slice(alloc, &batch[..size])?;
    Ok(Some(Entry { number, batch }))
}

/// A number of eight bytes, the highest first.
fn number_of(bytes: &[u8]) -> u64
    requires { length bytes.now ≡ 8 }
    ensures { result ≡ from_be_bytes w64 bytes.now }
{
    u64::from_be_bytes([
        bytes[0], bytes[1], bytes[2], bytes[3], bytes[4], bytes[5], bytes[6], bytes[7],
    ])
}

/// A number of four bytes, the highest first.
fn size_of(bytes: &[u8]) -> u32
    requires { length bytes.now ≡ 4 }
    ensures { result ≡ from_be_bytes w32 bytes.now }
{
    u32::from_be_bytes([bytes[0], bytes[1], bytes[2], bytes[3]])
}

/// The entries from the front of the bytes on, and the place where they end.
pub fn read_entries(alloc: Global, bytes: &[u8]) -> Result<(List<Entry>, usize), Memory>
    ensures { IfOk result (λ found. read_of (found.0, found.1) ≡ entries_of bytes.now) }
{
    let mut entries = List::new(alloc);
    let mut rest = bytes;
    while let Some(entry) = entry_at(alloc, rest)? {
        let (_, behind) = rest.split_at(HEAD + entry.batch.len());
        entries.push(entry)?;
        rest = behind;
    }
    Ok((entries, bytes.len() - rest.len()))
}
