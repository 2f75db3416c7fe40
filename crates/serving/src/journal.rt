//! A map is served with a journal: what the journal's entries come to is published again, and each further batch is stored there before its
//! version is published.

ghost use Rattle.std.specs.Prelude.{◌≡◌, ◌≤◌, ◌<◌, ◌⊎◌, ◌∷◌, ℕ, List, [], true, drop, length, Ok, Err, Some, IfOk, OnOk, IfErr};
ghost use Rattle.std.specs.Arc.{arc_value};
ghost use Rattle.tgap_model.specs.declared.fault.MapFault.TheVariants.{InputLong as IsInputLong};
ghost use Rattle.tgap_model.specs.Base.{BaseMap};
ghost use Rattle.tgap_model.specs.Faults.{Rose};
ghost use Rattle.tgap_model.specs.Keeping.{folded, sure_of};
ghost use Rattle.edit_journal.specs.declared.entry.JournalFail.TheVariants as cause;
ghost use Rattle.edit_journal.specs.Entries.{entries_of};
ghost use Rattle.edit_journal.specs.Journals.{disk_of, held_by, is_sure};
ghost use Rattle.session.specs.Versions.{Extends};
ghost use Rattle.commands.specs.declared.outcome.Outcome.TheVariants as outcome;
ghost use Rattle.journal_fold.specs.declared.fail.FoldFail.{FoldFail as WhyNone};
ghost use Rattle.journal_fold.specs.JournalFolds.{journal_maps};
ghost use Rattle.serving.specs.Asked.{serving_of};
ghost use Rattle.serving.specs.Serving.{serving_text, CameBack, Serves, ServesAll};
ghost use Rattle.serving.specs.Journals.{fold_refusal, journal_refusal, HasAll, IsServed, IsRefusedServing};

use crate::serve::{Serving, serve_versions};
use commands::Outcome;
use edit_journal::{Disks, Journal, JournalFail, Kept, NotOpened};
use journal_fold::{FoldFail, versions_of};
use map_version::Version;
use plain_io::{Door, Harbour, HarbourFail, Sink};
use std::alloc::Global;
use std::sync::{Arc, Wait};
use std::thread::Threads;
use tgap_model::{MAX_TEXT_BYTES, MapFault};

/// Serves a map with the journal of this name, from the last version on that its entries come to. The journal's disk goes back to the disks
/// in any case.
pub(crate) fn keep_map<R: Threads + Wait + Sync, K: Sink, H: Harbour, D: Disks>(
    rt: &R,
    alloc: Global,
    first: Arc<Version>,
    name: &str,
    serving: Serving<'_>,
    out: &mut K,
    harbour: &mut H,
    disks: &mut D,
) -> u8
where
    <H::Gate as Door>::Line: Send,
    requires some { (1 ≤ serving.workers) × (1 ≤ serving.versions) }
    requires few { (serving.workers ≤ 16) × (serving.versions ≤ 64) }
    requires number { (arc_value first).number ≡ 0 }
    requires batch { (arc_value first).batch ≡ [] }
    requires name { (serving_of serving).journal ≡ Some name.now }
    ensures serves { Serves (serving_text serving.entry.port) (CameBack (H.told harbour.old) (H.told harbour.new))
        (IsServed H.Gate.closed H.Gate.faults H.Gate.told H.Gate.Line.Link (CameBack (H.told harbour.old) (H.told harbour.new))
        (serving_of serving.entry) D.One.Disk (D.told disks.old) (D.held disks.old) (D.returned disks.new) (arc_value first).built result)
        (H.faults harbour.old) (H.faults harbour.new) (K.told out.old) (K.told out.new) (K.faults out.old) (K.faults out.new) result
        (IsRefusedServing (serving_of serving.entry) (D.told disks.old) (D.held disks.old) (Rose (D.faults disks.old) (D.faults disks.new)) (arc_value first).built) }
    ensures disks_kept { result ≡ 4 → D.faults disks.new ≡ D.faults disks.old }
{
    match open_journal(alloc, name, disks) {
        Ok(journal) => keep_journal(rt, alloc, first, journal, serving, out, harbour, disks),
        Err(outcome) => outcome.put(alloc, out),
    }
}

/// The journal of this name, or why there is none. Then its disk is back.
fn open_journal<D: Disks>(
    alloc: Global,
    name: &str,
    disks: &mut D,
) -> Result<Journal<D::One>, Outcome>
    ensures told { D.told disks.new ≡ D.told disks.old }
    ensures one_told { D.told disks.old ≡ true → IfOk result (λ journal. D.One.told (disk_of journal) ≡ true) }
    ensures sure { IfOk result (λ journal. is_sure (held_by journal) ≡ true) }
    ensures entries { D.told disks.old ≡ true → IfOk result (λ journal. held_by journal ≡ sure_of (entries_of (D.held disks.old name.now)).0) }
    ensures within { D.told disks.old ≡ true → OnOk result (length (D.held disks.old name.now) ≤ 67108864) }
    ensures sound { IfOk result (λ journal. D.One.faults (disk_of journal) ≡ 0) }
    ensures kept { OnOk result (D.faults disks.new ≡ D.faults disks.old) }
    ensures refused { IfErr result (λ o. ((o ≡ outcome.OutOfMemory) × (D.faults disks.new ≡ D.faults disks.old))
        ⊎ (((o ≡ outcome.JournalFault) × Rose (D.faults disks.old) (D.faults disks.new))
        ⊎ ((o ≡ outcome.Refused (IsInputLong 67108864)) × (D.faults disks.new ≡ D.faults disks.old)
        × (D.told disks.old ≡ true → 67108864 < length (D.held disks.old name.now))))) }
{
    let disk = match disks.disk(alloc, name) {
        Ok(disk) => disk,
        Err(HarbourFail::Failed) => return Err(Outcome::JournalFault),
        Err(HarbourFail::Memory) => return Err(Outcome::OutOfMemory),
    };
    match Journal::on(alloc, disk) {
        Ok(journal) => Ok(journal),
        Err(NotOpened { disk, cause }) => {
            disks.back(disk);
            Err(journal_refusal(cause))
        }
    }
}

/// Why a journal is not opened, as an outcome.
fn journal_refusal(cause: JournalFail) -> Outcome
    ensures { result ≡ journal_refusal cause }
{
    match cause {
        JournalFail::Failed => Outcome::JournalFault,
        JournalFail::TooLong { .. } => Outcome::Refused(MapFault::InputLong {
            max: MAX_TEXT_BYTES,
        }),
        JournalFail::Memory => Outcome::OutOfMemory,
    }
}

/// Serves a map with this journal, from the last version on that its entries come to. The journal's disk goes back.
fn keep_journal<R: Threads + Wait + Sync, K: Sink, H: Harbour, D: Disks>(
    rt: &R,
    alloc: Global,
    first: Arc<Version>,
    journal: Journal<D::One>,
    serving: Serving<'_>,
    out: &mut K,
    harbour: &mut H,
    disks: &mut D,
) -> u8
where
    <H::Gate as Door>::Line: Send,
    requires some { (1 ≤ serving.workers) × (1 ≤ serving.versions) }
    requires few { (serving.workers ≤ 16) × (serving.versions ≤ 64) }
    requires number { (arc_value first).number ≡ 0 }
    requires batch { (arc_value first).batch ≡ [] }
    requires sure { is_sure (held_by journal) ≡ true }
    requires told { D.told disks.old ≡ true → D.One.told (disk_of journal) ≡ true }
    requires sound { D.One.faults (disk_of journal) ≡ 0 }
    ensures serves { Serves (serving_text serving.entry.port) (CameBack (H.told harbour.old) (H.told harbour.new))
        ((maps : List BaseMap) × (journal_maps serving.entry.versions (arc_value first).built (held_by journal).entries ≡ Ok maps)
        × ServesAll H.Gate.closed H.Gate.faults H.Gate.told H.Gate.Line.Link (CameBack (H.told harbour.old) (H.told harbour.new))
        serving.entry.workers serving.entry.versions ((arc_value first).built ∷ maps)
        (λ batches. Extends ([] ∷ folded (held_by journal).entries) batches
        × (D.told disks.old ≡ true → HasAll D.One.Disk (D.returned disks.new) (drop 1 batches))) result)
        (H.faults harbour.old) (H.faults harbour.new) (K.told out.old) (K.told out.new) (K.faults out.old) (K.faults out.new) result
        (λ o. (o ≡ outcome.OutOfMemory) ⊎ ((why : WhyNone)
        × (journal_maps serving.entry.versions (arc_value first).built (held_by journal).entries ≡ Err why) × (o ≡ fold_refusal why))) }
    ensures disks_kept { result ≡ 4 → D.faults disks.new ≡ D.faults disks.old }
{
    match versions_of(rt, alloc, &*first, journal.entries(), serving.versions) {
        Ok(later) => {
            let keeper = Kept::new(journal);
            let (status, keeper) = serve_versions(
                rt, alloc, first, later, keeper, serving, out, harbour,
            );
            disks.back(keeper.into_journal().into_disk());
            status
        }
        Err(why) => {
            disks.back(journal.into_disk());
            fold_refusal(why).put(alloc, out)
        }
    }
}

/// Why a journal gives no versions, as an outcome.
fn fold_refusal(why: FoldFail) -> Outcome
    ensures { result ≡ fold_refusal why }
{
    match why {
        FoldFail::Entry { place } => Outcome::BadEntry { place },
        FoldFail::Long { batches } => Outcome::LongJournal { batches },
        FoldFail::Memory => Outcome::OutOfMemory,
    }
}
