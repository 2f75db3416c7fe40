//! The maps that batches make, one after the other.

ghost use Rattle.std.specs.Prelude.{◌≡◌, ◌⊎◌, ◌<◌, ◌≤◌, ℕ, List, length, unwrap_or, Ok, Err, None, Some, IfOk, IfErr, OnOk, All};
ghost use Rattle.tgap_model.specs.Base.{BaseMap};
ghost use Rattle.edit_journal.specs.Told.{all_kept};
ghost use Rattle.journal_fold.specs.declared.fail.FoldFail.TheVariants as fail;
ghost use Rattle.journal_fold.specs.JournalFolds.{map_after, maps_from, batches_at, told_maps, TellsPlace};

use crate::fail::FoldFail;
use base_check::check;
use edit_journal::Entry;
use map_version::edited;
use std::alloc::Global;
use std::thread::Threads;
use tgap_model::{Base, Checked, Or};

/// The map that the batch of an entry makes, checked. Where it makes none, the answer is the place of the entry.
pub fn map_after<R: Threads + Sync>(
    rt: &R,
    alloc: Global,
    base: &Base,
    entry: &Entry,
    place: usize,
) -> Result<Checked, FoldFail>
    ensures map { IfOk result (λ checked. map_after base.now entry.now.batch ≡ Some checked) }
    ensures refused { IfErr result (λ why. (why ≡ fail.Memory) ⊎ ((why ≡ fail.Entry place) × (map_after base.now entry.now.batch ≡ None))) }
{
    let edited = match edited(alloc, base, entry.batch.as_slice()) {
        Ok(edited) => edited,
        Err(Or::Fault(_)) => {
            return Err(FoldFail::Entry {
                place: place as u64,
            });
        }
        Err(Or::Memory) => return Err(FoldFail::Memory),
    };
    match check(rt, alloc, edited) {
        Ok(checked) => Ok(checked),
        Err(Or::Fault(_)) => Err(FoldFail::Entry {
            place: place as u64,
        }),
        Err(Or::Memory) => Err(FoldFail::Memory),
    }
}

/// The map that was made last, or the first one where none was made.
fn newest<'a>(first: &'a Base, made: &'a Option<Checked>) -> &'a Base
    ensures { result.now ≡ unwrap_or made.now first.now }
{
    match made {
        Some(checked) => checked.base(),
        None => first,
    }
}

/// Whether each of these batches makes a map of the one before it. Only one map is held at a time, and nothing is built.
fn make_all<R: Threads + Sync>(
    rt: &R,
    alloc: Global,
    first: &Base,
    entries: &[Entry],
    places: &[usize],
) -> Result<(), FoldFail>
    requires { All (λ place. place < length entries.now) places.now }
    ensures made { OnOk result ((maps : List BaseMap) × (maps_from 0 first.now (batches_at (all_kept entries.now) places.now) ≡ Ok maps)) }
    ensures refused { IfErr result (TellsPlace (maps_from 0 first.now (batches_at (all_kept entries.now) places.now)) places.now) }
{
    let mut made = None;
    for place in places {
        let checked = map_after(rt, alloc, newest(first, &made), &entries[*place], *place)?;
        made = Some(checked);
    }
    Ok(())
}

/// Why these batches, which are too many, give no versions: one of them makes no map, or there are too many.
pub fn too_many<R: Threads + Sync>(
    rt: &R,
    alloc: Global,
    first: &Base,
    entries: &[Entry],
    places: &[usize],
) -> FoldFail
    requires { All (λ place. place < length entries.now) places.now }
    ensures { (limit : ℕ) → limit ≤ length places.now → (result ≡ fail.Memory)
        ⊎ (told_maps limit places.now (maps_from 0 first.now (batches_at (all_kept entries.now) places.now)) ≡ Err result) }
{
    match make_all(rt, alloc, first, entries, places) {
        Ok(()) => FoldFail::Long {
            batches: places.len() as u64,
        },
        Err(why) => why,
    }
}
