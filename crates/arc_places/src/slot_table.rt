//! A table of the arcs that are there in slots.

ghost use Rattle.std.specs.Prelude.{◌≡◌, ◌≢◌, ◌<◌, ℕ, IfNone, IfOk, IfSome, length};
ghost use Rattle.ring_walk.specs.Spans.{AreSpans};
ghost use Rattle.face_cuts.specs.Sectors.{spans_of};
ghost use Rattle.arc_places.specs.Slots.{arcs_in, slot_of};
ghost use Rattle.arc_places.specs.Places.{Covers, listed};
ghost use Rattle.arc_places.specs.Borders.{CoversFaces, bordering};

use crate::bodies::ListedSlots;
use crate::borders::Borders;
use crate::found::sides_found;
use crate::front::{in_front, start_of};
use crate::places::Places;
use crate::slots::{arc_at, number_at, numbers_of, slot_at, slots_of};
use crate::sought::Sought;
use face_cuts::{ArcTable, span_of};
use ring_walk::{Side, Span};
use std::alloc::Global;
use std::marker::Model;
use tgap_model::{BaseArc, Memory, Point};

/// A table of the arcs that are there in slots, over the places of their points and the borders of their faces. Its arcs are
/// numbered without those that are gone. Contracts see the slots.
#[derive(Drop)]
pub struct SlotTable<'a> {
    slots: &'a [BaseArc],
    places: &'a Places,
    borders: &'a Borders,
    numbers: Vec<usize>,
    there: Vec<usize>,
}

impl<'a> Model for SlotTable<'a> {
    ghost use Rattle.std.specs.Prelude.{List as Sequence};
    ghost use Rattle.tgap_model.specs.declared.base.BaseArc.{BaseArc as Arc};
    ghost use Rattle.arc_places.specs.SlotTables.{IsSlotTable};

    ghost Value = { Sequence Arc };

    ghost view = { λ t. t.slots.now };

    ghost invariant = { λ t. IsSlotTable t.slots.now t.places.now t.borders.now t.numbers.items t.there.items };
}

impl<'a> SlotTable<'a> {
    /// The table of the arcs that are there in these slots. It takes one look at each slot and no sort.
    pub fn of(
        alloc: Global,
        slots: &'a [BaseArc],
        places: &'a Places,
        borders: &'a Borders,
    ) -> Result<SlotTable<'a>, Memory>
        requires spans { AreSpans (spans_of (arcs_in slots.now)) }
        requires places { Covers (listed places.now) slots.now }
        requires borders { CoversFaces (bordering borders.now) slots.now }
        ensures { IfOk result (λ table. table ≡ slots.entry.now) }
    {
        let numbers = numbers_of(alloc, slots)?;
        let there = slots_of(alloc, slots)?;
        Ok(SlotTable {
            slots,
            places,
            borders,
            numbers,
            there,
        })
    }

    /// The slot of an arc.
    pub fn slot(&self, arc: u32) -> usize
        requires { arc < length (arcs_in self.now) }
        ensures slot { result ≡ slot_of self.now arc }
        ensures within { result < length self.now }
    {
        slot_at(self.slots, &self.there, arc)
    }
    /// The number of the arc in a slot; none where no arc is there.
    pub fn arc_of(&self, slot: usize) -> Option<u32>
        ensures within { IfSome result (λ k. k < length (arcs_in self.now)) }
        ensures found { IfSome result (λ k. slot_of self.now k ≡ slot) }
        ensures none { IfNone result ((k : ℕ) → k < length (arcs_in self.now) → slot_of self.now k ≢ slot) }
    {
        number_at(self.slots, &self.numbers, slot)
    }
}

impl<'a> ArcTable for SlotTable<'a> {
    ghost use Rattle.arc_places.specs.Slots.{arcs_in};

    ghost arcs = { λ slots. arcs_in slots };

    fn count(&self) -> usize {
        self.there.len()
    }

    fn span(&self, arc: u32) -> Span {
        span_of(arc_at(self.slots, &self.there, arc))
    }

    fn points(&self, arc: u32) -> &[Point] {
        arc_at(self.slots, &self.there, arc).points.as_slice()
    }

    fn next(&self, side: Side) -> Side {
        let turned = side.turned();
        let node = start_of(self, turned);
        in_front(self, self.places.of_point(&node), turned)
    }

    fn leaving(&self, alloc: Global, node: Point) -> Result<Vec<Side>, Memory> {
        sides_found(
            alloc,
            self,
            self.places.of_point(&node),
            &Sought::Node(node),
        )
    }

    fn beside(&self, alloc: Global, face: u32) -> Result<Vec<Side>, Memory> {
        sides_found(
            alloc,
            self,
            ListedSlots::plain(self.borders.of_face(face)),
            &Sought::Face(face),
        )
    }
}
