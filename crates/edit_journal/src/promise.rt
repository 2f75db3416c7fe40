//! What a journal promises over every run of its calls.

ghost use Rattle.std.specs.Prelude.{◌≡◌, ◌++◌, List, ℕ};
ghost use Rattle.tgap_model.specs.Keeping.{KeptEntry, Kept, sure_of};
ghost use Rattle.edit_journal.specs.Entries.{entries_of};
ghost use Rattle.edit_journal.specs.Journals.{IsOf};
ghost use Rattle.edit_journal.specs.Runs.{Call, Run, Called, during, held_after, IsHistory, ended_by_crash};

use crate::disk::Disk;

/// Whatever is called on a journal that was made or settled, and whatever fails: a crash at any moment, between two calls or
/// within the next one, leaves the entries that the journal was made or last settled with and each that was acknowledged since,
/// in order, and at most one more. And over the whole run none that was ever acknowledged is skipped, and none stands in part.
pub fn crash_at_any_moment<D: Disk>()
    // between two calls
    ensures between { (disk : D) (entries : List KeptEntry) (calls : List Call) (now : D × Kept)
        → ((image : List ℕ) → D.may_leave disk image → IsOf (sure_of entries) image)
        → Run D.moment D.left_since D.may_leave (disk, sure_of entries) calls now
        → (image : List ℕ) → D.may_leave now.0 image → IsOf (held_after entries calls) image }
    // within the next one
    ensures within { (disk : D) (entries : List KeptEntry) (calls : List Call) (now next : D × Kept) (call : Call)
        → Run D.moment D.left_since D.may_leave (disk, sure_of entries) calls now
        → Called D.moment D.left_since D.may_leave now next call
        → (image : List ℕ) → D.left_since next.0 (D.moment now.0) image → IsOf (during (held_after entries calls) call) image }
    // over the whole run
    ensures between_all { (disk : D) (entries : List KeptEntry) (calls : List Call) (now : D × Kept)
        → ((image : List ℕ) → D.may_leave disk image → IsOf (sure_of entries) image)
        → Run D.moment D.left_since D.may_leave (disk, sure_of entries) calls now
        → (image : List ℕ) → D.may_leave now.0 image → IsHistory entries calls (entries_of image).0 }
    ensures within_all { (disk : D) (entries : List KeptEntry) (calls : List Call) (now next : D × Kept) (call : Call)
        → Run D.moment D.left_since D.may_leave (disk, sure_of entries) calls now
        → Called D.moment D.left_since D.may_leave now next call
        → (image : List ℕ) → D.left_since next.0 (D.moment now.0) image → IsHistory entries (calls ++ ended_by_crash call) (entries_of image).0 }
{}
