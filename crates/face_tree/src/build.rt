//! What the tree stores of each face: its class, its parent and its jump; and which faces are roots.

ghost use Rattle.std.specs.Prelude.{◌≡◌, ◌≤◌, ◌<◌, ◌+◌, ◌^◌, ◌⊎◌, ℕ, None, length, fold, slice_index, slice_index_or, IfOk};
ghost use Rattle.std.specs.List.{All};
ghost use Rattle.tgap_model.specs.History.{AreNumbered, classes_after};
ghost use Rattle.face_tree.specs.Tree.{AreAscending, AreJumpsBy, parent_by, without_parent};

use std::alloc::Global;
use tgap_model::{Memory, MergeStep, numbers_below};

/// The class of each face, those of the faces that the steps make after the others.
pub fn classes_of(alloc: Global, classes: &[u32], steps: &[MergeStep]) -> Result<Vec<u32>, Memory>
    requires numbered { AreNumbered (length classes.now) steps.now }
    requires small { length classes.now + length steps.now + 1 < 2 ^ 32 }
    ensures { IfOk result (λ found. found.items ≡ fold (λ ks s. classes_after s ks) classes.now steps.now) }
{
    let mut found = Vec::with_capacity(alloc, classes.len() + steps.len())?;
    found.extend_from_slice(classes)?;
    for step in steps {
        found.push(found[step.winner as usize - 1])?;
    }
    Ok(found)
}

/// The parent of each face, by its number; the outside has none. It goes back from the last step.
pub fn parents_of(
    alloc: Global,
    faces: u32,
    steps: &[MergeStep],
) -> Result<Vec<Option<u32>>, Memory>
    requires numbered { AreNumbered faces steps.now }
    requires small { faces + length steps.now + 1 < 2 ^ 32 }
    ensures count { IfOk result (λ found. length found.items ≡ faces + length steps.now + 1) }
    ensures value { IfOk result (λ found. (f : ℕ) → slice_index_or found.items f None ≡ parent_by steps.now f) }
{
    let mut found = vec![in alloc; None; faces as usize + steps.len() + 1]?;
    for i in (0..steps.len()).rev() {
        let step = steps[i];
        found[step.loser as usize] = Some(step.made);
        found[step.winner as usize] = Some(step.made);
    }
    Ok(found)
}

/// The jump of a child of this face: where the jump of the face is as long as the jump that follows it, both, otherwise
/// the way to the face alone. So jumps get longer the farther down a face is, as the digits of a skew binary number.
fn jump_over(face: u32, jumps: &[u32], depths: &[u32]) -> u32
    requires face { face < length jumps.now }
    requires jumps { All (λ jump. jump < length jumps.now) jumps.now }
    requires depths { length depths.now ≡ length jumps.now }
    ensures { (result ≡ face) ⊎ (result ≡ slice_index jumps.now (slice_index jumps.now face)) }
{
    let near = jumps[face as usize];
    let far = jumps[near as usize];
    let depth = u64::from(depths[face as usize]);
    let near_depth = u64::from(depths[near as usize]);
    let far_depth = u64::from(depths[far as usize]);
    if depth + far_depth == 2 * near_depth {
        far
    } else {
        face
    }
}

/// The jump of each face, by its number: that of a root is the root itself.
pub fn jumps_of(alloc: Global, parents: &[Option<u32>]) -> Result<Vec<u32>, Memory>
    requires ascending { AreAscending parents.now }
    requires small { length parents.now < 2 ^ 32 }
    ensures { IfOk result (λ jumps. AreJumpsBy parents.now jumps.items) }
{
    let mut jumps = numbers_below(alloc, parents.len() as u32)?;
    let mut depths = vec![in alloc; 0u32; parents.len()]?;
    for face in (0..parents.len()).rev() {
        if let Some(parent) = parents[face] {
            depths[face] = depths[parent as usize] + 1;
            jumps[face] = jump_over(parent, &jumps, &depths);
        }
    }
    Ok(jumps)
}

/// The faces without a parent, in ascending order. The parents are listed by the number of the face, that of the outside
/// first.
pub fn roots_of(alloc: Global, parents: &[Option<u32>]) -> Result<Vec<u32>, Memory>
    requires some { 0 < length parents.now }
    requires small { length parents.now < 2 ^ 32 }
    ensures { IfOk result (λ found. found.items ≡ without_parent parents.now) }
{
    let mut found = Vec::new(alloc);
    for face in 1..parents.len() {
        if parents[face].is_none() {
            found.push(face as u32)?;
        }
    }
    Ok(found)
}
