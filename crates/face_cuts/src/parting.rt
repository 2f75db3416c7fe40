//! The arcs of a map after a cut.

ghost use Rattle.std.specs.Prelude.{◌≡◌, ◌<◌, ◌+◌, ◌*◌, ◌^◌, ◌||◌, ◌++◌, ◌∷◌, [], ℕ, Bool, IfOk, All, get_or, length};
ghost use Rattle.ring_walk.specs.Sides.{side_number};
ghost use Rattle.ring_walk.specs.Spans.{IsSide};
ghost use Rattle.face_cuts.specs.Cuts.{with_faces};
ghost use Rattle.face_cuts.specs.Moves.{divided_arcs};
ghost use Rattle.face_cuts.specs.Partings.{parted};
ghost use Rattle.face_cuts.specs.NewRings.{AreLines, AreNoted, in_row, told_face};

use ring_walk::Side;
use std::alloc::Global;
use tgap_model::{BaseArc, List, Memory, Point, copied_points};

/// Notes the sides of a row by their numbers.
fn note_all(notes: &mut [bool], row: &[Side])
    requires { All (λ s. side_number s < length notes.old) row.now }
    ensures { (i : ℕ) (d : Bool) → i < length notes.old → get_or notes.new i d ≡ (get_or notes.old i d || in_row row.now i) }
{
    for side in row {
        notes[side.number()] = true;
    }
}

/// The sides of a row, noted by their numbers among those of so many spans.
fn noted(alloc: Global, spans: usize, row: &[Side]) -> Result<Vec<bool>, Memory>
    requires few { spans < 2 ^ 32 }
    requires row { All (IsSide spans) row.now }
    ensures { IfOk result (λ notes. AreNoted spans row.now notes.items) }
{
    let mut notes = vec![in alloc; false; 2 * spans]?;
    note_all(&mut notes, row);
    Ok(notes)
}

/// A face that is cut, the face that is new, and by number the sides that go over to it where they are beside the one that
/// is cut.
#[derive(Clone, Copy)]
pub struct Parting<'a> {
    pub face: u32,
    pub new: u32,
    pub moved: &'a [bool],
}

impl<'a> Parting<'a> {
    /// The face afterwards of the side with a number.
    fn face_after(&self, old: u32, side: usize) -> u32
        requires { side < length self.now.moved.now }
        ensures { result ≡ parted self.now old side }
    {
        if old == self.face && self.moved[side] {
            self.new
        } else {
            old
        }
    }

    /// A copy of the arc with this number, with its faces afterwards.
    fn arc_after(&self, alloc: Global, arc: &BaseArc, number: usize) -> Result<BaseArc, Memory>
        requires { 2 * number + 1 < length self.now.moved.now }
        ensures left { IfOk result (λ made. made.left ≡ parted self.now arc.now.left (2 * number)) }
        ensures right { IfOk result (λ made. made.right ≡ parted self.now arc.now.right (2 * number + 1)) }
        ensures points { IfOk result (λ made. made.points ≡ arc.now.points) }
    {
        Ok(BaseArc {
            left: self.face_after(arc.left, 2 * number),
            right: self.face_after(arc.right, 2 * number + 1),
            points: copied_points(alloc, arc.points.as_slice())?,
        })
    }

    /// The arcs afterwards.
    pub fn arcs(&self, alloc: Global, arcs: &[BaseArc]) -> Result<List<BaseArc>, Memory>
        requires { length self.now.moved.now ≡ 2 * length arcs.now }
        ensures { IfOk result (λ made. made ≡ with_faces (told_face arcs.now self.now.face self.now.new self.now.moved.now) 0 arcs.now) }
    {
        let mut made = List::new(alloc);
        for number in 0..arcs.len() {
            made.push(self.arc_after(alloc, &arcs[number], number)?)?;
        }
        Ok(made)
    }
}

/// A new arc that cuts a face: it has the face at its right, and a new one at its left.
#[derive(Clone, Copy)]
pub struct NewArc<'a> {
    pub face: u32,
    pub new: u32,
    pub points: &'a [Point],
}

/// The arcs of a map after a cut by the new arc, by which these sides go over.
pub fn arcs_with(
    alloc: Global,
    arcs: &[BaseArc],
    arc: NewArc<'_>,
    moved: &[Side],
) -> Result<List<BaseArc>, Memory>
    requires lines { AreLines arcs.now }
    requires moved { All (IsSide (length arcs.now)) moved.now }
    ensures { IfOk result (λ made. made ≡ divided_arcs arcs.now arc.entry.face arc.entry.new arc.entry.points.now moved.now) }
{
    let notes = noted(alloc, arcs.len(), moved)?;
    let parting = Parting {
        face: arc.face,
        new: arc.new,
        moved: &notes,
    };
    let mut made = parting.arcs(alloc, arcs)?;
    made.push(BaseArc {
        left: arc.new,
        right: arc.face,
        points: copied_points(alloc, arc.points)?,
    })?;
    Ok(made)
}
