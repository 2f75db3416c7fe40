//! The queue of faces: which of them loses first.

ghost use Rattle.std.specs.Prelude.{◌≡◌, ◌<◌, ℕ, ℤ, Bool, false, nat_lt, length, slice_index, slice_set, replicate, if◌then◌else◌, IfOk, OnOk, MatchOption};
ghost use Rattle.std.specs.List.{All};
ghost use Rattle.std.specs.Ordering.{is_eq};
ghost use Rattle.face_merge.specs.Queue.{waits, count_at, place_cmp, lists, IsFirst, AreWaiting};

use std::alloc::Global;
use std::collections::BTreeSet;
use tgap_model::Memory;

/// The live faces that have a permitted neighbour: the importance, the number and the slot of each, the least of them
/// first. Beside them, how many permitted neighbours the face in each slot has.
#[derive(Drop)]
pub struct Queue {
    faces: BTreeSet<(i128, u32, u32)>,
    counts: Vec<usize>,
}

/// A face in its slot, and how many permitted neighbours it has.
#[derive(Clone, Copy, Drop)]
pub struct Place {
    pub importance: i128,
    pub number: u32,
    pub slot: u32,
    pub permitted: usize,
}

impl Place {
    /// The importance of the face.
    fn importance(&self) -> i128
        ensures { result ≡ self.now.importance }
    {
        self.importance
    }
}

impl Queue {
    /// No face has a permitted neighbour, in any of this many slots.
    pub fn new(alloc: Global, slots: usize) -> Result<Queue, Memory>
        ensures none { IfOk result (λ queue. (i : ℤ) (n s : ℕ) → waits queue i n s ≡ false) }
        ensures counts { IfOk result (λ queue. queue.counts.items ≡ replicate slots 0) }
    {
        Ok(Queue {
            faces: BTreeSet::new(alloc),
            counts: vec![in alloc; 0usize; slots]?,
        })
    }

    /// Lets a face wait where it has a permitted neighbour, and no longer where it has none.
    fn place(
        &mut self,
        importance: i128,
        number: u32,
        slot: u32,
        permitted: usize,
    ) -> Result<(), Memory>
        ensures waits { OnOk result ((i : ℤ) (n s : ℕ) → waits self.new i n s
            ≡ (if is_eq (place_cmp (importance, number, slot) (i, n, s)) then nat_lt 0 permitted else waits self.old i n s)) }
        ensures counts { OnOk result (self.new.counts ≡ self.old.counts) }
    {
        if permitted == 0 {
            self.faces.remove(&(importance, number, slot));
            return Ok(());
        }
        self.faces.insert((importance, number, slot))?;
        Ok(())
    }

    /// Says how many permitted neighbours the face in a slot has.
    pub fn set(
        &mut self,
        importance: i128,
        number: u32,
        slot: u32,
        permitted: usize,
    ) -> Result<(), Memory>
        requires { slot < length self.old.counts.items }
        ensures waits { OnOk result ((i : ℤ) (n s : ℕ) → waits self.new i n s
            ≡ (if is_eq (place_cmp (importance, number, slot) (i, n, s)) then nat_lt 0 permitted else waits self.old i n s)) }
        ensures counts { OnOk result (self.new.counts.items ≡ slice_set self.old.counts.items slot permitted) }
    {
        self.place(importance, number, slot, permitted)?;
        self.counts[slot as usize] = permitted;
        Ok(())
    }

    /// Says it of the faces in these places.
    pub fn set_all(&mut self, places: &[Place]) -> Result<(), Memory>
        requires { All (λ place. place.slot < length self.old.counts.items) places.now }
        ensures waiting { OnOk result ((number : ℕ → ℕ) (importance : ℕ → ℤ)
            → All (λ place. (place.number ≡ number place.slot) × (place.importance ≡ importance place.number)) places.now
            → AreWaiting number importance (waits self.old) (count_at self.old) → AreWaiting number importance (waits self.new) (count_at self.new)) }
        ensures counts { OnOk result ((count : ℕ → ℕ) → All (λ place. place.permitted ≡ count place.slot) places.now
            → (s : ℕ) → count_at self.new s ≡ (if lists places.now s then count s else count_at self.old s)) }
        ensures slots { OnOk result (length self.new.counts.items ≡ length self.old.counts.items) }
    {
        for place in places {
            self.set(
                place.importance(),
                place.number,
                place.slot,
                place.permitted,
            )?;
        }
        Ok(())
    }

    /// The slot of the face that loses first.
    pub fn first(&self) -> Option<u32>
        ensures { MatchOption result ((i : ℤ) (n s : ℕ) → waits self.now i n s ≡ false) (IsFirst (waits self.now)) }
    {
        let Some(face) = self.faces.first() else {
            return None;
        };
        Some(face.2)
    }

    /// How many permitted neighbours the face in a slot has.
    pub fn count(&self, slot: u32) -> usize
        requires { slot < length self.now.counts.items }
        ensures { result ≡ count_at self.now slot }
    {
        self.counts[slot as usize]
    }
}
