//! The sides of a table that leave a node or have a face, found among the slots that are listed.

ghost use Rattle.std.specs.Prelude.{◌≡◌, ◌≤◌, ◌<◌, ◌==◌, ◌&&◌, ◌||◌, ◌^◌, ◌*◌};
ghost use Rattle.std.specs.Prelude.{ℕ, All, IfOk, OnOk, filter, length};
ghost use Rattle.ring_walk.specs.Sides.{side_number, sides};
ghost use Rattle.ring_walk.specs.Spans.{IsSide};
ghost use Rattle.arc_places.specs.Slots.{arcs_in, slot_of};
ghost use Rattle.arc_places.specs.Places.{is_among};
ghost use Rattle.arc_places.specs.SlotTables.{AreListed, is_found, passes, spans_in};

use crate::bodies::ListedSlots;
use crate::ordered::sides_in_order;
use crate::slot_table::SlotTable;
use crate::sought::Sought;
use face_cuts::ArcTable;
use ring_walk::{Side, Way};
use std::alloc::Global;
use tgap_model::Memory;

/// Puts the number of a side behind those found, where it is looked for.
fn push_side(
    table: &SlotTable<'_>,
    found: &mut Vec<usize>,
    side: Side,
    sought: &Sought,
) -> Result<(), Memory>
    requires { IsSide (length (arcs_in table.now)) side }
    ensures found { OnOk result ((i : ℕ) →
        is_among i found.new.items ≡ (is_among i found.old.items || ((side_number side == i) && passes table.now sought.now side))) }
    ensures few { (n : ℕ) → 2 * length (arcs_in table.now) ≤ n → All (λ i. i < n) found.old.items → All (λ i. i < n) found.new.items }
{
    if sought.has(&table.span(side.span), side.way) {
        found.push(side.number())?;
    }
    Ok(())
}

/// Puts the numbers of those sides of an arc behind those found that are looked for.
fn push_arc(
    table: &SlotTable<'_>,
    found: &mut Vec<usize>,
    arc: u32,
    sought: &Sought,
) -> Result<(), Memory>
    requires { arc < length (arcs_in table.now) }
    ensures found { OnOk result ((i : ℕ) →
        is_among i found.new.items ≡ (is_among i found.old.items || is_found table.now sought.now i (slot_of table.now arc))) }
    ensures few { (n : ℕ) → 2 * length (arcs_in table.now) ≤ n → All (λ i. i < n) found.old.items → All (λ i. i < n) found.new.items }
{
    let along = Side {
        span: arc,
        way: Way::Along,
    };
    push_side(table, found, along, sought)?;
    push_side(table, found, along.turned(), sought)?;
    Ok(())
}

/// Puts the numbers of those sides of the arc in a slot behind those found that are looked for.
fn push_sides(
    table: &SlotTable<'_>,
    found: &mut Vec<usize>,
    slot: usize,
    sought: &Sought,
) -> Result<(), Memory>
    ensures found { OnOk result ((i : ℕ) →
        is_among i found.new.items ≡ (is_among i found.old.items || is_found table.now sought.now i slot)) }
    ensures few { (n : ℕ) → 2 * length (arcs_in table.now) ≤ n → All (λ i. i < n) found.old.items → All (λ i. i < n) found.new.items }
{
    match table.arc_of(slot) {
        Some(arc) => {
            push_arc(table, found, arc, sought)?;
            Ok(())
        }
        None => Ok(()),
    }
}

/// The sides that are looked for, in the order of their numbers: found among the slots that are listed, which may be listed twice
/// and in any order.
pub fn sides_found(
    alloc: Global,
    table: &SlotTable<'_>,
    listed: ListedSlots<'_>,
    sought: &Sought,
) -> Result<Vec<Side>, Memory>
    requires few { length (arcs_in table.now) ≤ 2 ^ 32 }
    requires listed { AreListed table.now listed sought.now }
    ensures { IfOk result (λ found. found.items ≡ filter (passes table.now sought.now) (sides (length (spans_in table.now)))) }
{
    let mut found = Vec::new(alloc);
    for at in 0..listed.count() {
        push_sides(table, &mut found, listed.slot(at), sought)?;
    }
    sides_in_order(alloc, found)
}
