//! The corners that the edges of one label may have, least first.

ghost use Rattle.std.specs.Prelude.{◌≡◌, ◌<◌, ◌≤◌, ◌+◌, ◌⊎◌, ℕ, [], true, false, AllPairs, Contains, IfOk, OnOk, IfSome, IfNone};
ghost use Rattle.std.specs.BinaryHeap.{IsHeap, heap_items, heap_len};
ghost use Rattle.tgap_build.specs.Queue.{entry_cmp, is_queued};

use crate::edge_table::in_order;
use std::alloc::Global;
use std::cmp::Reverse;
use std::collections::BinaryHeap;
use std::marker::Model;
use tgap_model::{List, Memory};

/// Twice the area of a corner that an edge may have, and the key of the edge.
#[derive(Clone, Copy, PartialEq, Eq, PartialOrd, Ord)]
pub struct Entry {
    pub area: u128,
    pub key: u32,
}

/// Entries, of which one with the least area is taken first. Contracts see the list of the entries.
#[derive(Drop)]
pub struct CornerQueue {
    heap: BinaryHeap<Reverse<Entry>>,
}

impl Model for CornerQueue {
    ghost use Rattle.std.specs.Prelude.{List as Sequence};
    ghost use Rattle.std.specs.BinaryHeap.{IsHeap, heap_items};
    ghost use Rattle.std.specs.declared.cmp.Reverse.{Reverse as Reversed};
    ghost use Rattle.tgap_build.specs.declared.corner_queue.Entry.{Entry as Listed};
    ghost use Rattle.tgap_build.specs.Queue.{entry_cmp};

    ghost Value = { Sequence (Reversed Listed) };

    ghost view = { λ q. heap_items q.heap };

    ghost invariant = { λ q. IsHeap entry_cmp (heap_items q.heap) };
}

/// Puts an entry in.
fn push_entry(heap: &mut BinaryHeap<Reverse<Entry>>, entry: Entry) -> Result<(), Memory>
    requires order { IsHeap entry_cmp (heap_items heap.old) }
    ensures order { IsHeap entry_cmp (heap_items heap.new) }
    ensures entry { OnOk result ((n : ℕ) → entry.area ≤ n → is_queued (heap_items heap.new) entry.key n ≡ true) }
    ensures others { OnOk result ((k n : ℕ) → is_queued (heap_items heap.old) k n ≡ true → is_queued (heap_items heap.new) k n ≡ true) }
{
    heap.push(Reverse(entry))?;
    Ok(())
}

/// Whether one of the entries has at most this area.
fn has_small(heap: &BinaryHeap<Reverse<Entry>>, limit: u128) -> bool
    requires order { IsHeap entry_cmp (heap_items heap.now) }
    ensures some { result ≡ true → 0 < heap_len heap.now }
    ensures none { result ≡ false → (k n : ℕ) → n ≤ limit → is_queued (heap_items heap.now) k n ≡ false }
{
    match heap.peek() {
        Some(Reverse(entry)) => entry.area <= limit,
        None => false,
    }
}

/// Takes an entry out that has at most this area, if there is one, and gives its key.
fn pop_small(heap: &mut BinaryHeap<Reverse<Entry>>, limit: u128) -> Option<u32>
    requires order { IsHeap entry_cmp (heap_items heap.old) }
    ensures order { IsHeap entry_cmp (heap_items heap.new) }
    ensures less { IfSome result (λ key. heap_len heap.new + 1 ≡ heap_len heap.old) }
    ensures taken { IfSome result (λ key. (k n : ℕ) → is_queued (heap_items heap.old) k n ≡ true → (k ≡ key) ⊎ (is_queued (heap_items heap.new) k n ≡ true)) }
    ensures none { IfNone result ((k n : ℕ) → n ≤ limit → is_queued (heap_items heap.old) k n ≡ false) }
    ensures unchanged { IfNone result (heap_items heap.new ≡ heap_items heap.old) }
{
    if !has_small(heap, limit) {
        return None;
    }
    match heap.pop() {
        Some(Reverse(entry)) => Some(entry.key),
        None => None,
    }
}

/// Takes out the entries that have at most this area, and gives their keys.
fn take_keys(
    alloc: Global,
    heap: &mut BinaryHeap<Reverse<Entry>>,
    limit: u128,
) -> Result<List<u32>, Memory>
    requires order { IsHeap entry_cmp (heap_items heap.old) }
    ensures order { IsHeap entry_cmp (heap_items heap.new) }
    ensures small { IfOk result (λ keys. (k n : ℕ) → n ≤ limit → is_queued (heap_items heap.old) k n ≡ true → Contains keys k) }
    ensures others { IfOk result (λ keys. (k n : ℕ) → is_queued (heap_items heap.old) k n ≡ true → Contains keys k ⊎ (is_queued (heap_items heap.new) k n ≡ true)) }
{
    let mut keys = List::new(alloc);
    while let Some(key) = pop_small(heap, limit) {
        keys.push(key)?;
    }
    Ok(keys)
}

impl CornerQueue {
    /// The queue of no entry. It takes no memory.
    pub fn new(alloc: Global) -> CornerQueue
        ensures { result ≡ [] }
    {
        CornerQueue {
            heap: BinaryHeap::new(alloc),
        }
    }

    /// Puts an entry in.
    pub fn push(&mut self, entry: Entry) -> Result<(), Memory>
        ensures entry { OnOk result ((n : ℕ) → entry.area ≤ n → is_queued self.new entry.key n ≡ true) }
        ensures others { OnOk result ((k n : ℕ) → is_queued self.old k n ≡ true → is_queued self.new k n ≡ true) }
    {
        push_entry(&mut self.heap, entry)
    }

    /// Takes out the entries that have at most this area, and gives their keys, in ascending order, each once.
    pub fn take_small(&mut self, alloc: Global, limit: u128) -> Result<Vec<u32>, Memory>
        ensures ascending { IfOk result (λ keys. AllPairs (λ j k. j < k) keys.items) }
        ensures small { IfOk result (λ keys. (k n : ℕ) → n ≤ limit → is_queued self.old k n ≡ true → Contains keys.items k) }
        ensures others { IfOk result (λ keys. (k n : ℕ) → is_queued self.old k n ≡ true → Contains keys.items k ⊎ (is_queued self.new k n ≡ true)) }
    {
        let keys = take_keys(alloc, &mut self.heap, limit)?;
        Ok(in_order(keys))
    }
}
