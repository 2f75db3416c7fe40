//! The versions that the entries of a journal come to.

ghost use Rattle.std.specs.Prelude.{◌≡◌, ◌⊎◌, ◌<◌, ◌≤◌, ◌+◌, [], length, vec_capacity, None, IfOk, IfErr, All};
ghost use Rattle.std.specs.Arc.{arc_value};
ghost use Rattle.edit_journal.specs.Told.{all_kept};
ghost use Rattle.tgap_model.specs.Keeping.{folded};
ghost use Rattle.journal_fold.specs.declared.fail.FoldFail.TheVariants as fail;
ghost use Rattle.journal_fold.specs.JournalFolds.{map_after, maps_from, batches_at, journal_maps, TellsPlace};
ghost use Rattle.journal_fold.specs.Made.{values, maps_of, made_by, newest, AreNext};

use crate::fail::FoldFail;
use crate::maps::{map_after, too_many};
use crate::places::places_of;
use edit_journal::Entry;
use map_version::{Version, successor};
use std::alloc::Global;
use std::sync::Arc;
use std::thread::Threads;
use tgap_model::{List, Memory};

/// Room for so many versions.
fn room_for(alloc: Global, count: usize) -> Result<Vec<Arc<Version>>, Memory>
    ensures empty { IfOk result (λ versions. versions.items ≡ []) }
    ensures room { IfOk result (λ versions. count ≤ vec_capacity versions) }
{
    Ok(Vec::with_capacity(alloc, count)?)
}

/// The version where others can hold it.
fn shared(alloc: Global, version: Version) -> Result<Arc<Version>, Memory>
    ensures { IfOk result (λ shared. arc_value shared ≡ version) }
{
    Ok(Arc::new(alloc, version)?)
}

/// The version that was made last, or the first one where none was made.
fn newest<'a>(first: &'a Version, versions: &'a [Arc<Version>]) -> &'a Version
    ensures { result.now ≡ newest first.now (values versions.now) }
{
    match versions.last() {
        Some(version) => version,
        None => first,
    }
}

/// The version that the batch of an entry makes of the one before it.
fn version_after<R: Threads + Sync>(
    rt: &R,
    alloc: Global,
    pinned: &Version,
    entry: &Entry,
    place: usize,
) -> Result<Arc<Version>, FoldFail>
    requires { pinned.now.number ≤ 64 }
    ensures map { IfOk result (λ next. map_after pinned.now.built entry.now.batch ≡ Some (arc_value next).built) }
    ensures batch { IfOk result (λ next. (arc_value next).batch ≡ entry.now.batch) }
    ensures number { IfOk result (λ next. (arc_value next).number ≡ pinned.now.number + 1) }
    ensures refused { IfErr result (λ why. (why ≡ fail.Memory) ⊎ ((why ≡ fail.Entry place) × (map_after pinned.now.built entry.now.batch ≡ None))) }
{
    let checked = map_after(rt, alloc, pinned.built.base(), entry, place)?;
    let version = successor(rt, alloc, pinned, checked, entry.batch.as_slice())?;
    Ok(shared(alloc, version)?)
}

/// The versions that the batches of the entries at these places make, each of the one before it.
fn made_by<R: Threads + Sync>(
    rt: &R,
    alloc: Global,
    first: &Version,
    entries: &[Entry],
    places: &[usize],
) -> Result<Vec<Arc<Version>>, FoldFail>
    requires first { first.now.number ≡ 0 }
    requires few { length places.now ≤ 63 }
    requires within { All (λ place. place < length entries.now) places.now }
    ensures maps { IfOk result (λ versions. maps_from 0 first.now.built (batches_at (all_kept entries.now) places.now)
        ≡ Ok (maps_of (values versions.items))) }
    ensures batches { IfOk result (λ versions. made_by (values versions.items) ≡ batches_at (all_kept entries.now) places.now) }
    ensures numbers { IfOk result (λ versions. AreNext (values versions.items)) }
    ensures refused { IfErr result (TellsPlace (maps_from 0 first.now.built (batches_at (all_kept entries.now) places.now)) places.now) }
{
    let mut versions = room_for(alloc, places.len())?;
    for place in places {
        let pinned = newest(first, versions.as_slice());
        let version = version_after(rt, alloc, pinned, &entries[*place], *place)?;
        versions.push_reserved(version);
    }
    Ok(versions)
}

/// The versions after the first one that the entries of a journal come to, each checked and built, with the numbers from 1 on.
///
/// `Entry` tells the place of the first entry whose number does not follow those before it; or where each one's does, of the first
/// entry among those that are left whose batch makes no map. `Long` comes only where each batch makes one, and the versions,
/// with the first one, would be more than `limit`. Its cost is that of `edited`, `check` and `build` for each batch that is left, and
/// where there are too many of them nothing is built.
pub fn versions_of<R: Threads + Sync>(
    rt: &R,
    alloc: Global,
    first: &Version,
    entries: &List<Entry>,
    limit: u64,
) -> Result<Vec<Arc<Version>>, FoldFail>
    requires first { first.now.number ≡ 0 }
    requires limit { limit ≤ 64 }
    // They are built of the maps that the entries come to.
    ensures maps { IfOk result (λ versions. journal_maps limit first.now.built (all_kept entries.now)
        ≡ Ok (maps_of (values versions.items))) }
    // They have the batches that the entries come to.
    ensures batches { IfOk result (λ versions. made_by (values versions.items) ≡ folded (all_kept entries.now)) }
    // They have the numbers from 1 on.
    ensures numbers { IfOk result (λ versions. AreNext (values versions.items)) }
    // Where there are none, the entries give none, for the same cause.
    ensures refused { IfErr result (λ why. (why ≡ fail.Memory) ⊎ (journal_maps limit first.now.built (all_kept entries.now) ≡ Err why)) }
{
    let entries = entries.as_slice();
    let places = places_of(alloc, entries)?;
    if places.len() as u64 >= limit {
        return Err(too_many(rt, alloc, first.built.base(), entries, &places));
    }
    made_by(rt, alloc, first, entries, &places)
}
