//! Slots of arcs: an arc without points is gone.

ghost use Rattle.std.specs.Prelude.{◌≡◌, ◌≢◌, ◌<◌, ◌≤◌, ◌^◌, ℕ, IfNone, IfOk, IfSome, length};
ghost use Rattle.tgap_model.specs.Chains.{arc_number};
ghost use Rattle.arc_places.specs.Slots.{arcs_in, is_there, slot_of, slots_from};
ghost use Rattle.arc_places.specs.Numbers.{AreNumbers};

use std::alloc::Global;
use tgap_model::{BaseArc, List, Memory};

/// Whether the arc of a slot is there: an arc without points is gone.
pub fn is_there(arc: &BaseArc) -> bool
    ensures { result ≡ is_there arc.now }
{
    arc.points.len() > 0
}

/// The arcs that are there, in the order of their slots. It takes no memory.
pub fn arcs_in(mut slots: Vec<BaseArc>) -> List<BaseArc>
    ensures { result ≡ arcs_in slots.items }
{
    slots.retain(|arc| is_there(arc));
    List::from(slots)
}

/// For each slot the number that its arc has among those that are there, or would have.
pub fn numbers_of(alloc: Global, slots: &[BaseArc]) -> Result<Vec<usize>, Memory>
    ensures { IfOk result (λ numbers. AreNumbers slots.now numbers.items) }
{
    let mut numbers = Vec::with_capacity(alloc, slots.len())?;
    let mut count = 0;
    for arc in slots {
        numbers.push(count)?;
        if is_there(arc) {
            count += 1;
        }
    }
    Ok(numbers)
}

/// The slots of the arcs that are there, in order.
pub fn slots_of(alloc: Global, slots: &[BaseArc]) -> Result<Vec<usize>, Memory>
    ensures { IfOk result (λ there. there.items ≡ slots_from 0 slots.now) }
{
    let mut there = Vec::new(alloc);
    for slot in 0..slots.len() {
        if is_there(&slots[slot]) {
            there.push(slot)?;
        }
    }
    Ok(there)
}

/// The slot of an arc, by those of all arcs that are there.
pub fn slot_at(slots: &[BaseArc], there: &[usize], arc: u32) -> usize
    requires there { there.now ≡ slots_from 0 slots.now }
    requires arc { arc < length (arcs_in slots.now) }
    ensures slot { result ≡ slot_of slots.now arc }
    ensures within { result < length slots.now }
{
    there[arc as usize]
}

/// An arc, by the slots of all arcs that are there.
pub fn arc_at<'a>(slots: &'a [BaseArc], there: &[usize], arc: u32) -> &'a BaseArc
    requires there { there.now ≡ slots_from 0 slots.now }
    requires arc { arc < length (arcs_in slots.now) }
    ensures { result.now ≡ arc_number (arcs_in slots.now) arc }
{
    &slots[slot_at(slots, there, arc)]
}

/// The number of the arc in a slot; none where no arc is there.
pub fn number_at(slots: &[BaseArc], numbers: &[usize], slot: usize) -> Option<u32>
    requires numbers { AreNumbers slots.now numbers.now }
    requires few { length (arcs_in slots.now) ≤ 2 ^ 32 }
    ensures within { IfSome result (λ k. k < length (arcs_in slots.now)) }
    ensures found { IfSome result (λ k. slot_of slots.now k ≡ slot) }
    ensures none { IfNone result ((k : ℕ) → k < length (arcs_in slots.now) → slot_of slots.now k ≢ slot) }
{
    if slot >= slots.len() {
        return None;
    }
    if is_there(&slots[slot]) {
        Some(numbers[slot] as u32)
    } else {
        None
    }
}
