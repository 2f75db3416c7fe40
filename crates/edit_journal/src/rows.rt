//! Room for one entry more in a list of entries, taken before anything is written.

ghost use Rattle.std.specs.Prelude.{◌≡◌, ◌<◌, ◌++◌, ◌∷◌, [], IfOk, is_ok, if◌then◌else◌, vec_len, vec_capacity};

use crate::entry::Entry;
use std::alloc::Global;
use std::mem;
use tgap_model::{List, Memory};

/// Takes the entries out of their list, with room for one more. On want of memory the list is as before.
pub fn with_room(alloc: Global, entries: &mut List<Entry>) -> Result<Vec<Entry>, Memory>
    ensures same { IfOk result (λ rows. rows.items ≡ entries.old) }
    ensures room { IfOk result (λ rows. vec_len rows < vec_capacity rows) }
    ensures rest { entries.new ≡ (if is_ok result then [] else entries.old) }
{
    let mut rows = mem::replace(entries, List::new(alloc)).into_vec();
    match rows.reserve(1) {
        Ok(()) => Ok(rows),
        Err(_) => {
            *entries = List::from(rows);
            Err(Memory)
        }
    }
}

/// The list with the entry behind the others.
pub fn with_entry(mut rows: Vec<Entry>, entry: Entry) -> List<Entry>
    requires { vec_len rows < vec_capacity rows }
    ensures { result ≡ rows.items ++ entry ∷ [] }
{
    // There is room for it.
    let _ = rows.push(entry);
    List::from(rows)
}
