//! Lists of numbers in a row, one after the other.

ghost use Rattle.std.specs.Prelude.{◌≡◌, ◌<◌, ◌≤◌, ◌+◌, [], length, get_or, slice_range, IfOk};

use std::alloc::Global;
use std::marker::Model;
use tgap_model::{List, Memory};

/// Lists of numbers, one after the other: list x goes from start x on and before the next one. Contracts see the lists.
#[derive(Drop)]
pub struct FlatLists {
    starts: Vec<usize>,
    ids: Vec<u32>,
}

impl Model for FlatLists {
    ghost use Rattle.std.specs.Prelude.{ℕ, List as Sequence};
    ghost use Rattle.edge_forest.specs.FlatLists.{lists_between, AreStarts};

    ghost Value = { Sequence (Sequence ℕ) };

    ghost view = { λ f. lists_between f.starts.items f.ids.items };

    ghost invariant = { λ f. AreStarts f.starts.items f.ids.items };
}

/// How many numbers the lists have, for the room that they take.
fn room_of(lists: &[List<u32>]) -> usize {
    let mut count = 0usize;
    for list in lists {
        count = count.saturating_add(list.len());
    }
    count
}

/// The numbers from start x on and before the next one.
fn between<'a>(starts: &[usize], ids: &'a [u32], x: usize) -> &'a [u32]
    requires next { x + 1 < length starts.now }
    requires order { get_or starts.now x 0 ≤ get_or starts.now (x + 1) 0 }
    requires within { get_or starts.now (x + 1) 0 ≤ length ids.now }
    ensures { result.now ≡ slice_range ids.now (get_or starts.now x 0) (get_or starts.now (x + 1) 0) }
{
    let start = starts[x];
    let end = starts[x + 1];
    &ids[start..end]
}

impl FlatLists {
    /// No list. It takes no memory.
    pub fn none(alloc: Global) -> FlatLists
        ensures { result ≡ [] }
    {
        FlatLists {
            starts: Vec::new(alloc),
            ids: Vec::new(alloc),
        }
    }

    /// These lists, with no more room than they take.
    pub fn of(alloc: Global, lists: &[List<u32>]) -> Result<FlatLists, Memory>
        ensures { IfOk result (λ flat. flat ≡ lists.now) }
    {
        let mut starts = Vec::with_capacity(alloc, lists.len() + 1)?;
        let mut ids = Vec::with_capacity(alloc, room_of(lists))?;
        starts.push(0)?;
        for list in lists {
            ids.extend_from_slice(list.as_slice())?;
            starts.push(ids.len())?;
        }
        Ok(FlatLists { starts, ids })
    }

    /// The list with this number.
    pub fn at(&self, x: usize) -> &[u32]
        requires { x < length self.now }
        ensures { result.now ≡ get_or self.now x [] }
    {
        let starts = self.starts.as_slice();
        let ids = self.ids.as_slice();
        between(starts, ids, x)
    }
}
