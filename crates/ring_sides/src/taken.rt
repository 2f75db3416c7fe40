//! What the rings of a topology take: the sides of its arcs.

ghost use Rattle.std.specs.Prelude.{◌≡◌, ◌<◌, length, slice_index, IfOk, OnOk, IsTrue};
ghost use Rattle.tgap_model.specs.declared.limits.TheConstants.{MAX_ARCS};
ghost use Rattle.topology_forms.specs.Topology.{names_arc};
ghost use Rattle.topology_forms.specs.Rings.{is_raw_ring, nothing_taken, side_taken, index_taken, ring_taken, with_face};
ghost use Rattle.ring_sides.specs.Taking.{Leaves, GivesSide, HasSides, KeepsForm, is_exterior, is_left, place_taken, ring_side};

use crate::arcs::{Arcs, arc_named, is_reversed};
use crate::side::{RingKind, Side};
use std::alloc::Global;
use std::marker::Model;
use tgap_model::{List, MapFault, Memory};

/// What the rings so far took: the class of each face, and the face at the left and at the right of each arc, 0 where
/// no ring took it.
#[derive(Drop)]
pub struct Taken {
    classes: List<u32>,
    left: Vec<u32>,
    right: Vec<u32>,
}

impl Model for Taken {
    ghost use Rattle.topology_forms.specs.Rings.{Taken as TakenSides};

    ghost Value = { TakenSides };

    ghost view = { λ t. record { classes = t.classes; left = t.left.items; right = t.right.items } };
}

/// Takes a place for a face, where it is free. The places are those of this side of all arcs.
fn take_place(faces: &mut [u32], side: Side, arc: usize, face: u32) -> Result<(), MapFault>
    requires inside { arc < length faces.old }
    requires few { arc < MAX_ARCS }
    ensures { Leaves result faces.new (place_taken side arc face faces.old) }
{
    let first = faces[arc];
    if first != 0 {
        return Err(MapFault::SideTaken {
            arc: arc as u32,
            side: side as u8,
            first,
            second: face,
        });
    }
    faces[arc] = face;
    Ok(())
}

/// The side of a ring on which its face is, unless the ring is open or has no area. The inside is on the left of a ring
/// that is counter-clockwise.
fn face_side(arcs: &Arcs, kind: RingKind, number: u32, ring: &[i64]) -> Result<Side, MapFault>
    requires { IsTrue (is_raw_ring (length arcs.now) ring.now) }
    ensures { GivesSide result (ring_side arcs.now (is_exterior kind) number ring.now) }
{
    if let Some(place) = arcs.open_place(ring) {
        return Err(MapFault::RingOpen {
            ring: number,
            place,
        });
    }
    let area = arcs.ring_area(ring);
    if area == 0 {
        return Err(MapFault::RingFlat { ring: number });
    }
    let inside = if area > 0 { Side::Left } else { Side::Right };
    Ok(match kind {
        RingKind::Exterior => inside,
        RingKind::Hole => inside.opposite(),
    })
}

impl Taken {
    /// Nothing is taken.
    pub fn nothing(alloc: Global, arcs: &Arcs) -> Result<Taken, Memory>
        ensures { IfOk result (λ taken. taken ≡ nothing_taken arcs.now) }
    {
        Ok(Taken {
            classes: List::new(alloc),
            left: vec![in alloc; 0; arcs.len()]?,
            right: vec![in alloc; 0; arcs.len()]?,
        })
    }

    /// Takes a side of an arc for a face, where it is free.
    #[tactic(auto, unfolding(topology_forms::specs::Rings::side_taken))]
    fn take_side(&mut self, side: Side, arc: usize, face: u32) -> Result<(), MapFault>
        requires left { arc < length self.old.left }
        requires right { arc < length self.old.right }
        requires few { arc < MAX_ARCS }
        ensures value { Leaves result self.new (side_taken (is_left side) arc face self.old) }
        ensures form { KeepsForm self.old self.new }
    {
        match side {
            Side::Left => take_place(self.left.as_mut_slice(), side, arc, face),
            Side::Right => take_place(self.right.as_mut_slice(), side, arc, face),
        }
    }

    /// Takes the arc of an index for a face that is on this side of its ring. Of an arc of one point no side is taken.
    fn take_index(&mut self, arcs: &Arcs, side: Side, face: u32, index: i64) -> Result<(), MapFault>
        requires named { IsTrue (names_arc (length arcs.now) index) }
        requires sides { HasSides (length arcs.now) self.old }
        ensures value { Leaves result self.new (index_taken arcs.now (is_left side) face self.old index) }
        ensures form { KeepsForm self.old self.new }
    {
        if arcs.points(index).len() < 2 {
            return Ok(());
        }
        let side = if is_reversed(index) {
            side.opposite()
        } else {
            side
        };
        self.take_side(side, arc_named(index), face)
    }

    /// Takes the arcs of a ring, which has this number, for a face.
    #[tactic(auto, unfolding(topology_forms::specs::Rings::ring_taken))]
    pub fn take_ring(
        &mut self,
        arcs: &Arcs,
        kind: RingKind,
        face: u32,
        number: u32,
        ring: &[i64],
    ) -> Result<(), MapFault>
        requires ring { IsTrue (is_raw_ring (length arcs.now) ring.now) }
        requires sides { HasSides (length arcs.now) self.old }
        ensures value { Leaves result self.new (ring_taken arcs.now (is_exterior kind) face number ring.now self.old) }
        ensures form { KeepsForm self.old self.new }
    {
        let side = face_side(arcs, kind, number, ring)?;
        for index in ring {
            self.take_index(arcs, side, face, *index)?;
        }
        Ok(())
    }

    /// The number of faces.
    pub fn count_faces(&self) -> usize
        ensures { result ≡ length self.now.classes }
    {
        self.classes.len()
    }

    /// A face more, of this class.
    pub fn push_face(&mut self, class: u32) -> Result<(), Memory>
        ensures { OnOk result (self.new ≡ with_face class self.old) }
    {
        self.classes.push(class)
    }

    /// The face at the left of an arc, or 0.
    pub fn left(&self, arc: usize) -> u32
        requires { arc < length self.now.left }
        ensures { result ≡ slice_index self.now.left arc }
    {
        self.left[arc]
    }

    /// The face at the right of an arc, or 0.
    pub fn right(&self, arc: usize) -> u32
        requires { arc < length self.now.right }
        ensures { result ≡ slice_index self.now.right arc }
    {
        self.right[arc]
    }

    /// The class of each face.
    pub fn into_classes(self) -> List<u32>
        ensures { result ≡ self.classes }
    {
        self.classes
    }
}
