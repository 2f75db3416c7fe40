//! Which entries of a journal are left, when each has taken the place of those that it replaces.

ghost use Rattle.std.specs.Prelude.{◌≡◌, ◌↔◌, ◌<◌, ◌≤◌, ◌+◌, ◌-◌, ◌++◌, ◌∷◌, [], take, length, None, IsTrue, IfOk, IfErr, OnOk, All, AllPairs};
ghost use Rattle.edit_journal.specs.Told.{all_kept};
ghost use Rattle.tgap_model.specs.Keeping.{folded, bad_entry};
ghost use Rattle.journal_fold.specs.JournalFolds.{places_of, batches_at, TellsBadEntry};

use crate::fail::FoldFail;
use edit_journal::Entry;
use std::alloc::Global;
use tgap_model::Memory;

/// Whether the number of the entry follows, where so many versions are made by those before it.
fn follows(entry: &Entry, count: usize) -> bool
    ensures { IsTrue result ↔ ((1 ≤ entry.now.number) × (entry.now.number ≤ count + 1)) }
{
    entry.number != 0 && entry.number - 1 <= count as u64
}

/// Puts the place of an entry where its batch is put: behind those of the versions before its own.
fn put_place(places: &mut Vec<usize>, number: u64, place: usize) -> Result<(), Memory>
    requires some { 1 ≤ number }
    requires within { number - 1 ≤ length places.old.items }
    ensures { OnOk result (places.new.items ≡ take (number - 1) places.old.items ++ place ∷ []) }
{
    places.truncate((number - 1) as usize);
    places.push(place)?;
    Ok(())
}

/// The places of the entries that are left, in the order of their versions. Or the place of the first entry whose number does not
/// follow.
pub fn places_of(alloc: Global, entries: &[Entry]) -> Result<Vec<usize>, FoldFail>
    ensures places { IfOk result (λ places. places.items ≡ places_of (all_kept entries.now)) }
    // Each entry follows, and the batches at these places are those that the entries come to.
    ensures follow { OnOk result (bad_entry (all_kept entries.now) ≡ None) }
    ensures batches { IfOk result (λ places. batches_at (all_kept entries.now) places.items ≡ folded (all_kept entries.now)) }
    // They are places of entries, each above the one before it.
    ensures within { IfOk result (λ places. All (λ place. place < length entries.now) places.items) }
    ensures ascend { IfOk result (λ places. AllPairs (λ before after. before < after) places.items) }
    ensures refused { IfErr result (TellsBadEntry (bad_entry (all_kept entries.now))) }
{
    let mut places = Vec::new(alloc);
    for (place, entry) in entries.iter().enumerate() {
        if !follows(entry, places.len()) {
            return Err(FoldFail::Entry {
                place: place as u64,
            });
        }
        put_place(&mut places, entry.number, place)?;
    }
    Ok(places)
}
