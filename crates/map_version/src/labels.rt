//! The faces of arcs in slots, as fusions and cuts change them.

ghost use Rattle.std.specs.Prelude.{◌≡◌, ◌≢◌, ◌≤◌, ℕ, true, length, map, IsTrue, OnOk};
ghost use Rattle.face_cuts.specs.Fusions.{joined, renumbered};
ghost use Rattle.arc_places.specs.Slots.{is_there};
ghost use Rattle.arc_places.specs.Places.{arc_passes, is_among};
ghost use Rattle.arc_places.specs.Borders.{CoversFaces, bordering, face_count, is_beside};
ghost use Rattle.map_version.specs.Indexed.{AreCounted};
ghost use Rattle.map_version.specs.Labels.{cleared, counted_without, is_other, is_taken, passed_over, renamed, with_side};

use arc_places::{Borders, is_there};
use ring_walk::Way;
use std::alloc::Global;
use tgap_model::{BaseArc, List, Memory};

/// A side of the arc in a slot.
#[derive(Clone, Copy)]
pub struct SlotSide {
    pub slot: usize,
    pub way: Way,
}

/// Two faces of a map with so many beside the one outside: one that is kept, and one that becomes a part of it.
#[derive(Clone, Copy)]
pub struct Fusion {
    pub faces: u32,
    pub kept: u32,
    pub gone: u32,
}

/// How many arcs are there, and how many points they have.
#[derive(Clone, Copy)]
pub struct Counts {
    pub arcs: usize,
    pub points: usize,
}

impl Fusion {
    /// Whether the arc is there and has the two faces as its sides.
    pub fn is_between(&self, arc: &BaseArc) -> bool
        ensures { result ≡ is_taken self.now.kept self.now.gone arc.now }
    {
        is_there(arc)
            && ((arc.left == self.kept && arc.right == self.gone)
                || (arc.left == self.gone && arc.right == self.kept))
    }

    /// Whether the arc is there and has this face as a side, and is not between the two.
    pub fn is_other(&self, arc: &BaseArc, face: u32) -> bool
        ensures { result ≡ is_other self.now.kept self.now.gone face arc.now }
    {
        is_there(arc) && (arc.left == face || arc.right == face) && !self.is_between(arc)
    }

    /// Takes the arc out where it is between the two faces.
    fn clear(&self, alloc: Global, arc: &mut BaseArc, counts: &mut Counts)
        requires arcs { IsTrue (is_there arc.old) → 1 ≤ counts.old.arcs }
        requires points { length arc.old.points ≤ counts.old.points }
        ensures arc { arc.new ≡ cleared self.now.kept self.now.gone arc.old }
        ensures counts { counts.new ≡ counted_without self.now.kept self.now.gone arc.old counts.old }
    {
        if self.is_between(arc) {
            counts.arcs -= 1;
            counts.points -= arc.points.len();
            arc.points = List::new(alloc);
        }
    }

    /// Takes the arcs between the two faces out, which all are among those that are listed.
    fn clear_listed(
        &self,
        alloc: Global,
        slots: &mut [BaseArc],
        listed: &[usize],
        counts: &mut Counts,
    )
        requires listed { (i : ℕ) → arc_passes (is_taken self.now.kept self.now.gone) slots.old i ≡ true → is_among i listed.now ≡ true }
        requires counted { AreCounted slots.old counts.old }
        ensures slots { slots.new ≡ map (cleared self.now.kept self.now.gone) slots.old }
        ensures counted { AreCounted slots.new counts.new }
    {
        for slot in listed {
            if *slot < slots.len() {
                self.clear(alloc, &mut slots[*slot], counts);
            }
        }
    }

    /// Gives each arc that is there the numbers of its faces afterwards. It looks at the arcs of the face that is gone and of the last
    /// one, and where this is the one that is kept, at its arcs alone.
    fn rename(&self, slots: &mut [BaseArc], borders: &Borders)
        requires apart { self.now.kept ≢ self.now.gone }
        requires borders { CoversFaces (bordering borders.now) slots.old }
        ensures { slots.new ≡ map (renamed (renumbered self.now.faces self.now.kept self.now.gone)) slots.old }
    {
        if self.kept == self.faces {
            rename_listed(slots, borders.of_face(self.kept), self.kept, self.gone);
        } else if self.gone == self.faces {
            rename_listed(slots, borders.of_face(self.gone), self.gone, self.kept);
        } else {
            rename_listed(slots, borders.of_face(self.gone), self.gone, self.kept);
            rename_listed(slots, borders.of_face(self.faces), self.faces, self.gone);
        }
    }

    /// Takes the arcs between the two faces out, and gives the others the numbers of their faces afterwards.
    pub fn apply(
        &self,
        alloc: Global,
        slots: &mut [BaseArc],
        borders: &Borders,
        counts: &mut Counts,
    )
        requires apart { self.now.kept ≢ self.now.gone }
        requires borders { CoversFaces (bordering borders.now) slots.old }
        requires counted { AreCounted slots.old counts.old }
        ensures slots { slots.new ≡ map (renamed (renumbered self.now.faces self.now.kept self.now.gone)) (map (cleared self.now.kept self.now.gone) slots.old) }
        ensures counted { AreCounted slots.new counts.new }
    {
        self.clear_listed(alloc, slots, borders.of_face(self.gone), counts);
        self.rename(slots, borders);
    }
}

/// Gives an arc that is there one face in place of another.
fn rename_in(arc: &mut BaseArc, from: u32, to: u32)
    ensures { arc.new ≡ renamed (joined to from) arc.old }
{
    if is_there(arc) {
        if arc.left == from {
            arc.left = to;
        }
        if arc.right == from {
            arc.right = to;
        }
    }
}

/// Gives the arcs that are there one face in place of another, which all that have it are among those that are listed.
fn rename_listed(slots: &mut [BaseArc], listed: &[usize], from: u32, to: u32)
    requires apart { from ≢ to }
    requires listed { (i : ℕ) → arc_passes (is_beside from) slots.old i ≡ true → is_among i listed.now ≡ true }
    ensures { slots.new ≡ map (renamed (joined to from)) slots.old }
{
    for slot in listed {
        if *slot < slots.len() {
            rename_in(&mut slots[*slot], from, to);
        }
    }
}

/// Gives the arc this face at a side.
fn set_side(arc: &mut BaseArc, way: Way, face: u32)
    ensures { arc.new ≡ with_side way face arc.old }
{
    match way {
        Way::Along => arc.left = face,
        Way::Against => arc.right = face,
    }
}

/// Gives the arcs this face at the sides that go over to it, and lists them for it.
pub fn pass_over(
    slots: &mut [BaseArc],
    borders: &mut Borders,
    face: u32,
    moved: &[SlotSide],
) -> Result<(), Memory>
    requires face { face ≤ face_count borders.old }
    requires borders { CoversFaces (bordering borders.old) slots.old }
    ensures slots { OnOk result (slots.new ≡ passed_over face moved.now slots.old) }
    ensures borders { OnOk result (CoversFaces (bordering borders.new) slots.new) }
    ensures count { OnOk result (face_count borders.new ≡ face_count borders.old) }
{
    for side in moved {
        if side.slot < slots.len() {
            set_side(&mut slots[side.slot], side.way, face);
            borders.list(face, side.slot)?;
        }
    }
    Ok(())
}
