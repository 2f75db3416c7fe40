//! Slots for the boxes of edges, with a tree over them. What comes takes the slot of what goes.

ghost use Rattle.std.specs.Prelude.{◌≡◌, ◌<◌, ◌≤◌, ◌+◌, ◌^◌, ◌++◌, [], List, length, map, filter, slice_set, replicate, Some, None, Option, option_to_list, ◌∷◌, All, AllPairs, IfOk, OnOk, OnErr, IfNone, IfSome, IsPermutation};
ghost use Rattle.std.specs.Vec.{vec_capacity, vec_len};
ghost use Rattle.std.specs.List.{flat_map};
ghost use Rattle.std.specs.List.Sorted.{IsNonDecreasingBy};
ghost use Rattle.grid_index.specs.declared.segments.Entry.{Entry as Held};
ghost use Rattle.grid_index.specs.Boxes.{Covers};
ghost use Rattle.grid_index.specs.Slots.{held, slot_at, taken, stays, has_key, is_near, entry_near, AreNear, IsBounded, IsHolder};

use crate::keys::KeyBox;
use crate::live::SegmentPlace;
use crate::segments::{Entry, NOWHERE};
use crate::tree::BoxTree;
use std::alloc::Global;
use std::marker::Model;
use tgap_model::{List, Memory, Window};

/// A slot by the key of what it has.
#[derive(Clone, Copy)]
pub struct Holder {
    pub key: u32,
    pub slot: usize,
}

/// Slots, each with the boxes of an edge or empty, and a tree over boxes that hold them. Slots that stand near one another
/// should have edges that are near one another in the plane.
#[derive(Drop)]
pub struct Slots {
    slots: Vec<Option<Entry>>,
    bounds: BoxTree,
}

impl Model for Slots {
    ghost use Rattle.std.specs.Prelude.{List as Sequence, Option as Maybe};
    ghost use Rattle.grid_index.specs.declared.segments.Entry.{Entry as Held};
    ghost use Rattle.grid_index.specs.Slots.{IsBounded};

    ghost Value = { Sequence (Maybe Held) };

    ghost view = { λ s. s.slots.items };

    ghost invariant = { λ s. IsBounded s.slots.items s.bounds };
}

/// A box that holds those of what a slot has.
fn slot_bounds(slot: &Option<Entry>) -> Window
    ensures { (e : Held) → slot.now ≡ Some e → All (Covers result) e.boxes }
{
    match slot {
        Some(entry) => entry.bounds(),
        None => NOWHERE,
    }
}

/// A box for each slot.
fn row_of(alloc: Global, slots: &[Option<Entry>]) -> Result<List<Window>, Memory>
    ensures { IfOk result (λ row. IsBounded slots.now row) }
{
    let mut row = List::with_capacity(alloc, slots.len())?;
    for slot in slots {
        row.push(slot_bounds(slot))?;
    }
    Ok(row)
}

/// The boxes, and as many more that meet nothing.
fn widened(alloc: Global, boxes: &[Window], more: usize) -> Result<List<Window>, Memory>
    ensures { IfOk result (λ row. row ≡ boxes.now ++ replicate more NOWHERE) }
{
    let mut row = List::from(Vec::from_slice(alloc, boxes)?);
    for _i in 0..more {
        row.push(NOWHERE)?;
    }
    Ok(row)
}

/// Puts so many empty slots after these, for which there is room.
fn push_empty(slots: &mut Vec<Option<Entry>>, more: usize)
    requires { vec_len slots.old + more ≤ vec_capacity slots.old }
    ensures { slots.new.items ≡ slots.old.items ++ replicate more None }
{
    for _i in 0..more {
        slots.push_reserved(None);
    }
}

/// The next of those that come, from the end on.
fn pop_entry(come: &mut Vec<Option<Entry>>) -> Option<Entry>
    ensures moved { held come.old.items ≡ held come.new.items ++ option_to_list result }
    ensures none { IfNone result (come.new.items ≡ []) }
{
    while let Some(top) = come.pop() {
        if top.is_some() {
            return top;
        }
    }
    None
}

/// The one of those that come that has the key, if it is found. The keys are theirs, in order.
fn take_by_key(keys: &[u32], come: &mut Vec<Option<Entry>>, key: u32) -> Option<Entry>
    requires { length keys.now ≡ length come.old.items }
    ensures moved { IsPermutation (held come.old.items) (option_to_list result ++ held come.new.items) }
    ensures len { length come.new.items ≡ length come.old.items }
{
    match keys.binary_search(&key) {
        Ok(place) => come[place].take(),
        Err(_) => None,
    }
}

/// The slots at these places that have something, each by the key of what it has.
fn holders_of(
    alloc: Global,
    slots: &[Option<Entry>],
    places: &[usize],
) -> Result<Vec<Holder>, Memory>
    requires { All (λ i. i < length slots.now) places.now }
    ensures each { IfOk result (λ holders. All (IsHolder slots.now) holders.items) }
    ensures taken { IfOk result (λ holders. taken slots.now (map (λ h. h.slot) holders.items) ≡ taken slots.now places.now) }
{
    let mut holders = Vec::with_capacity(alloc, places.len())?;
    for place in places {
        if let Some(entry) = &slots[*place] {
            holders.push(Holder {
                key: entry.key,
                slot: *place,
            })?;
        }
    }
    Ok(holders)
}

impl Slots {
    /// The tree over these slots.
    pub fn of(alloc: Global, slots: Vec<Option<Entry>>) -> Result<Slots, Memory>
        ensures { IfOk result (λ all. all ≡ slots.items) }
    {
        let bounds = BoxTree::of(alloc, row_of(alloc, &slots)?)?;
        Ok(Slots { slots, bounds })
    }

    /// Puts what a slot has, or nothing, in place of what it had.
    fn put(&mut self, alloc: Global, place: usize, entry: Option<Entry>)
        requires { place < length self.old }
        ensures { self.new ≡ slice_set self.old place entry }
    {
        self.bounds.set(alloc, place, slot_bounds(&entry));
        self.slots[place] = entry;
    }

    /// Whether what a slot has is under this key.
    fn has_key(&self, place: usize, key: u32) -> bool
        requires { place < length self.now }
        ensures { result ≡ has_key key (slot_at self.now place) }
    {
        match &self.slots[place] {
            Some(entry) => key == entry.key,
            None => false,
        }
    }

    /// Makes room for so many edges in all.
    pub fn widen(&mut self, alloc: Global, count: usize) -> Result<(), Memory>
        ensures held { held self.new ≡ held self.old }
        ensures room { OnOk result (count ≤ length self.new) }
        ensures small { OnOk result (length self.new < 2 ^ 63) }
    {
        if count <= self.slots.len() {
            return Ok(());
        }
        let row = widened(alloc, self.bounds.boxes().as_slice(), count)?;
        let bounds = BoxTree::of(alloc, row)?;
        self.slots.reserve(count)?;
        push_empty(&mut self.slots, count);
        self.bounds = bounds;
        Ok(())
    }

    /// Empties a slot. The box over it stays as it is, which is right for an empty slot too.
    fn clear(&mut self, place: usize)
        requires { place < length self.old }
        ensures { self.new ≡ slice_set self.old place None }
    {
        self.slots[place] = None;
    }

    /// Empties the slot with this key, of which a segment meets the area, and tells where it is.
    fn take_out(&mut self, sought: &KeyBox) -> Option<usize>
        requires { AreNear sought.now.area sought.now.key (held self.old) }
        ensures held { held self.new ≡ filter (stays (sought.now.key ∷ [])) (held self.old) }
        ensures len { length self.new ≡ length self.old }
        ensures within { IfSome result (λ i. i < length self.new) }
    {
        let mut found = None;
        let mut at = self.bounds.next(&sought.area, 0);
        'walk: while at < self.slots.len() {
            if self.has_key(at, sought.key) {
                self.clear(at);
                found = Some(at);
            }
            at = self.bounds.next(&sought.area, at + 1);
        }
        found
    }

    /// Empties the slots with these keys, and puts them after those of `freed`, for which there is room.
    fn take_all_out(&mut self, sought: &[KeyBox], freed: &mut Vec<Holder>)
        requires near { All (λ s. AreNear s.area s.key (held self.old)) sought.now }
        requires room { vec_len freed.old + length sought.now ≤ vec_capacity freed.old }
        requires within { All (λ h. h.slot < length self.old) freed.old.items }
        ensures held { held self.new ≡ filter (stays (map (λ s. s.key) sought.now)) (held self.old) }
        ensures len { length self.new ≡ length self.old }
        ensures within { All (λ h. h.slot < length self.new) freed.new.items }
    {
        for one in sought {
            if let Some(slot) = self.take_out(one) {
                freed.push_reserved(Holder { key: one.key, slot });
            }
        }
    }

    /// Gives a slot, if it is empty, to what comes under the key that it had.
    fn give_back(
        &mut self,
        alloc: Global,
        holder: &Holder,
        keys: &[u32],
        come: &mut Vec<Option<Entry>>,
    )
        requires place { holder.now.slot < length self.old }
        requires keys { length keys.now ≡ length come.old.items }
        ensures moved { IsPermutation (held self.old ++ held come.old.items) (held self.new ++ held come.new.items) }
        ensures len { length self.new ≡ length self.old }
        ensures keys { length come.new.items ≡ length come.old.items }
    {
        if self.slots[holder.slot].is_none() {
            let entry = take_by_key(keys, come, holder.key);
            self.put(alloc, holder.slot, entry);
        }
    }

    /// Gives the slots that were freed to what comes under their keys.
    fn give_all_back(
        &mut self,
        alloc: Global,
        freed: &[Holder],
        keys: &[u32],
        come: &mut Vec<Option<Entry>>,
    )
        requires places { All (λ h. h.slot < length self.old) freed.now }
        requires keys { length keys.now ≡ length come.old.items }
        ensures moved { IsPermutation (held self.old ++ held come.old.items) (held self.new ++ held come.new.items) }
        ensures len { length self.new ≡ length self.old }
    {
        for holder in freed {
            self.give_back(alloc, holder, keys, come);
        }
    }

    /// Gives a slot, if it is empty, to what comes next.
    fn give_on(&mut self, alloc: Global, place: usize, come: &mut Vec<Option<Entry>>)
        requires { place < length self.old }
        ensures moved { IsPermutation (held self.old ++ held come.old.items) (held self.new ++ held come.new.items) }
        ensures len { length self.new ≡ length self.old }
    {
        if self.slots[place].is_none() {
            let entry = pop_entry(come);
            self.put(alloc, place, entry);
        }
    }

    /// Gives the slots that were freed and are still empty to what else comes.
    fn give_all_on(&mut self, alloc: Global, freed: &[Holder], come: &mut Vec<Option<Entry>>)
        requires { All (λ h. h.slot < length self.old) freed.now }
        ensures moved { IsPermutation (held self.old ++ held come.old.items) (held self.new ++ held come.new.items) }
        ensures len { length self.new ≡ length self.old }
    {
        for holder in freed {
            self.give_on(alloc, holder.slot, come);
        }
    }

    /// Gives empty slots to what comes.
    fn fill(&mut self, alloc: Global, come: Vec<Option<Entry>>)
        requires { length (held self.old) + length (held come.items) ≤ length self.old }
        ensures { IsPermutation (held self.old ++ held come.items) (held self.new) }
    {
        let mut come = come;
        let mut next = pop_entry(&mut come);
        for place in 0..self.slots.len() {
            if next.is_none() {
                return;
            }
            if self.slots[place].is_none() {
                self.put(alloc, place, next);
                next = pop_entry(&mut come);
            }
        }
    }

    /// Takes out what has one of these keys, and puts in what comes, for which there is room. The keys of what comes stand
    /// beside it. The time is that of what goes and comes, where no more comes than goes.
    pub fn replace(
        &mut self,
        alloc: Global,
        sought: &[KeyBox],
        keys: &[u32],
        come: Vec<Option<Entry>>,
    ) -> Result<(), Memory>
        requires near { All (λ s. AreNear s.area s.key (held self.old)) sought.now }
        requires keys { length keys.now ≡ length come.items }
        requires room { length (filter (stays (map (λ s. s.key) sought.now)) (held self.old)) + length (held come.items) ≤ length self.old }
        ensures ok { OnOk result (IsPermutation (filter (stays (map (λ s. s.key) sought.now)) (held self.old) ++ held come.items) (held self.new)) }
        ensures err { OnErr result (self.new ≡ self.old) }
    {
        let mut freed = Vec::with_capacity(alloc, sought.len())?;
        let mut come = come;
        self.take_all_out(sought, &mut freed);
        self.give_all_back(alloc, &freed, keys, &mut come);
        self.give_all_on(alloc, &freed, &mut come);
        self.fill(alloc, come);
        Ok(())
    }

    /// The slots whose boxes meet the area and that have something, in order of key.
    fn holders(&self, alloc: Global, area: &Window) -> Result<Vec<Holder>, Memory>
        ensures near { IfOk result (λ holders. IsPermutation (filter (is_near area.now) (held self.now)) (filter (is_near area.now) (taken self.now (map (λ h. h.slot) holders.items)))) }
        ensures ascending { IfOk result (λ holders. IsNonDecreasingBy (λ e. e.key) (taken self.now (map (λ h. h.slot) holders.items))) }
        ensures each { IfOk result (λ holders. All (λ h. h.slot < length self.now) holders.items) }
    {
        let places = self.bounds.near(alloc, area)?;
        let mut holders = holders_of(alloc, &self.slots, &places)?;
        holders.sort_unstable_by_key(|holder| holder.key);
        Ok(holders)
    }

    /// Puts the segments of what a slot has whose boxes meet the area after those of `found`.
    fn push_near(
        &self,
        alloc: Global,
        slot: usize,
        area: &Window,
        found: &mut List<SegmentPlace>,
    ) -> Result<(), Memory>
        requires { slot < length self.now }
        ensures { OnOk result (found.new ≡ found.old ++ flat_map (entry_near area.now) (option_to_list (slot_at self.now slot))) }
    {
        match &self.slots[slot] {
            Some(entry) => entry.push_near(alloc, area, found),
            None => Ok(()),
        }
    }

    /// The segments whose boxes meet the area, in order of key and place.
    pub fn near(&self, alloc: Global, area: &Window) -> Result<List<SegmentPlace>, Memory>
        ensures { IfOk result (λ found. (es : List Held) → IsPermutation es (held self.now) → AllPairs (λ e f. e.key < f.key) es → found ≡ flat_map (entry_near area.now) es) }
    {
        let holders = self.holders(alloc, area)?;
        let mut found = List::new(alloc);
        for holder in &holders {
            self.push_near(alloc, holder.slot, area, &mut found)?;
        }
        Ok(found)
    }
}
