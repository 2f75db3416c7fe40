//! Two faces that become one.

ghost use Rattle.std.specs.Prelude.{◌≡◌, ◌<◌, ◌≤◌, ◌^◌, ◌||◌, IfOk, length, map};
ghost use Rattle.std.specs.List.{list_any};
ghost use Rattle.tgap_model.specs.Base.{borders_face};
ghost use Rattle.face_cuts.specs.Outcomes.{GivesCut};
ghost use Rattle.face_cuts.specs.Fusions.{classes_without, fuse_faces, is_between, is_face, joined, others, relabelled, renumbered};

use crate::cause::{Cause, NO_SUCH_NUMBER, NOTHING_BETWEEN, NOTHING_LEFT, refused};
use std::alloc::Global;
use tgap_model::{Base, BaseArc, List, Memory, Or, copied_points};

/// Two faces of a map with so many: one that is kept, and one that is gone and of which the other takes the place.
#[derive(Clone, Copy)]
struct Fusion {
    faces: u32,
    kept: u32,
    gone: u32,
}

/// Whether the number is that of a face from 1 on.
pub fn is_face(base: &Base, face: u32) -> bool
    ensures { result ≡ is_face base.now face }
{
    1 <= face && face as usize <= base.classes().len()
}

/// How many faces a map has.
pub fn count_faces(base: &Base) -> u32
    ensures { result ≡ length base.now.classes }
{
    base.classes().len() as u32
}

impl Fusion {
    /// Whether the arc has the two faces as its sides.
    fn is_between(&self, arc: &BaseArc) -> bool
        ensures { result ≡ is_between self.now.kept self.now.gone arc.now }
    {
        (arc.left == self.kept && arc.right == self.gone)
            || (arc.left == self.gone && arc.right == self.kept)
    }

    /// Whether the arc has one of the two faces as a side.
    fn is_beside(&self, arc: &BaseArc) -> bool
        ensures { result ≡ (borders_face self.now.kept arc.now || borders_face self.now.gone arc.now) }
    {
        arc.left == self.kept
            || arc.right == self.kept
            || arc.left == self.gone
            || arc.right == self.gone
    }

    /// Whether some arc has the two faces as its sides.
    fn is_any_between(&self, arcs: &[BaseArc]) -> bool
        ensures { result ≡ list_any (is_between self.now.kept self.now.gone) arcs.now }
    {
        arcs.iter().any(|arc| self.is_between(arc))
    }

    /// Whether some other arc has one of the two faces as a side.
    fn is_any_left(&self, arcs: &[BaseArc]) -> bool
        ensures { result ≡ list_any (λ a. borders_face self.now.kept a || borders_face self.now.gone a) (others self.now.kept self.now.gone arcs.now) }
    {
        arcs.iter()
            .filter(|arc| !self.is_between(arc))
            .any(|arc| self.is_beside(arc))
    }

    /// The number of a face where the two are one.
    fn joined(&self, face: u32) -> u32
        ensures { result ≡ joined self.now.kept self.now.gone face }
    {
        if face == self.gone { self.kept } else { face }
    }

    /// The number of a face afterwards: the last one has the number of the one that is gone.
    fn renumbered(&self, face: u32) -> u32
        ensures { result ≡ renumbered self.now.faces self.now.kept self.now.gone face }
    {
        let joined = self.joined(face);
        if joined == self.faces {
            self.gone
        } else {
            joined
        }
    }

    /// A copy of the arc with the numbers of its faces afterwards.
    fn relabelled(&self, alloc: Global, arc: &BaseArc) -> Result<BaseArc, Memory>
        ensures { IfOk result (λ made. made ≡ relabelled (renumbered self.now.faces self.now.kept self.now.gone) arc.now) }
    {
        Ok(BaseArc {
            left: self.renumbered(arc.left),
            right: self.renumbered(arc.right),
            points: copied_points(alloc, arc.points.as_slice())?,
        })
    }

    /// The arcs afterwards.
    fn arcs(&self, alloc: Global, arcs: &[BaseArc]) -> Result<List<BaseArc>, Memory>
        ensures { IfOk result (λ made. made ≡ map (relabelled (renumbered self.now.faces self.now.kept self.now.gone)) (others self.now.kept self.now.gone arcs.now)) }
    {
        let mut made = List::new(alloc);
        for arc in arcs {
            if !self.is_between(arc) {
                made.push(self.relabelled(alloc, arc)?)?;
            }
        }
        Ok(made)
    }
}

/// The classes afterwards: in the place of that of the face that is gone there is that of the last one.
fn classes_without(alloc: Global, gone: u32, classes: &[u32]) -> Result<List<u32>, Memory>
    requires some { 1 ≤ gone }
    requires within { gone ≤ length classes.now }
    ensures { IfOk result (λ made. made ≡ classes_without gone classes.now) }
{
    let last = classes.len() - 1;
    let mut made = Vec::from_slice(alloc, classes)?;
    made[gone as usize - 1] = classes[last];
    made.truncate(last);
    Ok(List::from(made))
}

/// The map in which face `gone` is a part of face `kept`. All arcs between the two are taken out, and the others close up in
/// order. The last face gets the number `gone`, with its class.
///
/// The causes, the first that holds: 2, one of the two is no face from 1 on; 13, no arc is between them, which is so too where they
/// are one face; 14, no other arc has one of them as a side. It takes one pass over the map, whose arcs are copied.
#[tactic(auto, unfolding(crate::specs::Fusions::fuse_faces))]
pub fn fuse_faces(alloc: Global, base: &Base, kept: u32, gone: u32) -> Result<Base, Or<Cause>>
    ensures exact { GivesCut result (fuse_faces base.now kept gone) }
{
    if !is_face(base, kept) || !is_face(base, gone) {
        return Err(refused(NO_SUCH_NUMBER));
    }
    let arcs = base.arcs().as_slice();
    let fusion = Fusion {
        faces: count_faces(base),
        kept,
        gone,
    };
    if !fusion.is_any_between(arcs) {
        return Err(refused(NOTHING_BETWEEN));
    }
    if !fusion.is_any_left(arcs) {
        return Err(refused(NOTHING_LEFT));
    }
    let classes = classes_without(alloc, gone, base.classes().as_slice())?;
    let arcs = fusion.arcs(alloc, arcs)?;
    Ok(base.with_parts(alloc, classes, arcs)?)
}
