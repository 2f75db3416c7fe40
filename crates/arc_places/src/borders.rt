//! The borders of faces: which arcs may have a face as a side.

ghost use Rattle.std.specs.Prelude.{◌≡◌, ◌≢◌, ◌≤◌, ◌+◌, ◌++◌, ◌∷◌, ◌==◌, ◌&&◌, ◌||◌, ◌^◌, ◌<◌};
ghost use Rattle.std.specs.Prelude.{ℕ, [], IfOk, OnOk, if◌then◌else◌};
ghost use Rattle.tgap_model.specs.Base.{borders_face};
ghost use Rattle.face_cuts.specs.Fusions.{renumbered};
ghost use Rattle.arc_places.specs.Places.{is_among};
ghost use Rattle.arc_places.specs.Borders.{CoversFaces, HasFaces, HaveFaces, bordering, face_count};

use std::alloc::Global;
use std::marker::Model;
use std::mem;
use tgap_model::{BaseArc, List, Memory};

/// For each face the numbers of arcs, among them each arc that is there and has the face at its left or right. Face 0 is the one
/// outside. Contracts see a row of arcs for each face.
#[derive(Drop)]
pub struct Borders {
    arcs: Vec<List<usize>>,
}

impl Model for Borders {
    ghost use Rattle.std.specs.Prelude.{◌<◌, ℕ, List as Sequence, length};

    ghost Value = { Sequence (Sequence ℕ) };

    ghost view = { λ b. b.arcs.items };

    ghost invariant = { λ b. 0 < length b.arcs.items };
}

/// The numbers of the one list and those of the other after them.
fn appended(mut longer: List<usize>, shorter: &[usize]) -> Result<List<usize>, Memory>
    ensures { IfOk result (λ all. all ≡ longer ++ shorter.now) }
{
    for number in shorter {
        longer.push(*number)?;
    }
    Ok(longer)
}

/// The numbers of both lists, those of the shorter one after those of the longer one. It takes one step for each number of the
/// shorter one.
fn joined(first: List<usize>, second: List<usize>) -> Result<List<usize>, Memory>
    ensures { IfOk result (λ all. (i : ℕ) → is_among i all ≡ (is_among i first || is_among i second)) }
{
    if first.len() < second.len() {
        appended(second, first.as_slice())
    } else {
        appended(first, second.as_slice())
    }
}

impl Borders {
    /// The borders of so many faces, by these arcs. It takes one look at each arc and each face.
    pub fn of(alloc: Global, arcs: &[BaseArc], count: usize) -> Result<Borders, Memory>
        requires few { count < 2 ^ 32 }
        requires faces { HaveFaces count arcs.now }
        ensures arcs { IfOk result (λ borders. CoversFaces (bordering borders) arcs.now) }
        ensures count { IfOk result (λ borders. face_count borders ≡ count) }
    {
        let mut borders = Borders::empty(alloc, count)?;
        for number in 0..arcs.len() {
            borders.list_sides(number, &arcs[number])?;
        }
        Ok(borders)
    }

    /// The borders of so many faces, before an arc is listed.
    fn empty(alloc: Global, count: usize) -> Result<Borders, Memory>
        requires { count < 2 ^ 32 }
        ensures { IfOk result (λ borders. face_count borders ≡ count) }
    {
        let mut arcs = Vec::with_capacity(alloc, count + 1)?;
        for _ in 0..count + 1 {
            arcs.push(List::new(alloc))?;
        }
        Ok(Borders { arcs })
    }

    /// Lists an arc for its two faces, and nothing else.
    pub fn list_sides(&mut self, number: usize, arc: &BaseArc) -> Result<(), Memory>
        requires { HasFaces (face_count self.old) arc.now }
        ensures listed { OnOk result ((f i : ℕ) →
            is_among i (bordering self.new f) ≡ (is_among i (bordering self.old f) || ((number == i) && borders_face f arc.now))) }
        ensures count { OnOk result (face_count self.new ≡ face_count self.old) }
    {
        self.list(arc.left, number)?;
        self.list(arc.right, number)
    }

    /// The arcs that are listed for a face; none where there is no face of that number.
    pub fn of_face(&self, face: u32) -> &[usize]
        ensures { result.now ≡ bordering self.now face }
    {
        match self.arcs.get(face as usize) {
            Some(numbers) => numbers.as_slice(),
            None => &[],
        }
    }

    /// Lists an arc for a face beside those that are listed there, and nothing else.
    pub fn list(&mut self, face: u32, arc: usize) -> Result<(), Memory>
        requires { face ≤ face_count self.old }
        ensures listed { OnOk result ((f : ℕ) →
            bordering self.new f ≡ (if f == face then bordering self.old face ++ arc ∷ [] else bordering self.old f)) }
        ensures count { OnOk result (face_count self.new ≡ face_count self.old) }
    {
        self.arcs[face as usize].push(arc)
    }

    /// Adds a last face, for which nothing is listed.
    pub fn add_face(&mut self, alloc: Global) -> Result<(), Memory>
        ensures listed { OnOk result ((f : ℕ) → bordering self.new f ≡ bordering self.old f) }
        ensures count { OnOk result (face_count self.new ≡ face_count self.old + 1) }
    {
        self.arcs.push(List::new(alloc))?;
        Ok(())
    }

    /// Takes away what is listed for a face, and leaves these in its place.
    fn exchange(&mut self, face: u32, numbers: List<usize>) -> List<usize>
        requires { face ≤ face_count self.old }
        ensures taken { result ≡ bordering self.old face }
        ensures left { (f : ℕ) → bordering self.new f ≡ (if f == face then numbers else bordering self.old f) }
        ensures count { face_count self.new ≡ face_count self.old }
    {
        mem::replace(&mut self.arcs[face as usize], numbers)
    }

    /// Drops a face with its list; the last face takes its number.
    fn drop_face(&mut self, face: u32)
        requires face { face ≤ face_count self.old }
        requires others { 0 < face_count self.old }
        ensures listed { (f : ℕ) → f < face_count self.old →
            bordering self.new f ≡ (if f == face then bordering self.old (face_count self.old) else bordering self.old f) }
        ensures count { face_count self.new + 1 ≡ face_count self.old }
    {
        self.arcs.swap_remove(face as usize);
    }

    /// Makes face `gone` a part of face `kept`: what is listed for either is listed for it, and the last face takes the number
    /// `gone`. The shorter list is put after the longer one, so an arc is moved at most as often as the list that it stands in
    /// has doubled; the list of the last face is moved as a whole.
    pub fn fuse(&mut self, alloc: Global, kept: u32, gone: u32) -> Result<(), Memory>
        requires kept { kept ≤ face_count self.old }
        requires gone { gone ≤ face_count self.old }
        requires apart { kept ≢ gone }
        ensures both { OnOk result ((i : ℕ) →
            is_among i (bordering self.new (renumbered (face_count self.old) kept gone kept))
            ≡ (is_among i (bordering self.old kept) || is_among i (bordering self.old gone))) }
        ensures others { OnOk result ((f : ℕ) → f ≤ face_count self.old → f ≢ kept → f ≢ gone →
            bordering self.new (renumbered (face_count self.old) kept gone f) ≡ bordering self.old f) }
        ensures count { OnOk result (face_count self.new + 1 ≡ face_count self.old) }
    {
        let first = self.exchange(kept, List::new(alloc));
        let second = self.exchange(gone, List::new(alloc));
        let all = joined(first, second)?;
        self.exchange(kept, all);
        self.drop_face(gone);
        Ok(())
    }
}
