//! The rows of faces that a window gets anew.

ghost use Rattle.std.specs.Prelude.{◌≡◌, ◌≢◌, ◌<◌, ◌↔◌, ◌∷◌, ◌++◌, ℕ, nat_lt, map, filter, Contains, IfOk, OnOk};
ghost use Rattle.std.specs.List.Sorted.{IsStrictlyIncreasing};
ghost use Rattle.face_tree.specs.Tree.{IsFace};
ghost use Rattle.slice_read.specs.Windows.{all_sides, row_of};
ghost use Rattle.refine_packets.specs.Counts.{AreOut, count_at, is_out};

use crate::counts::count_at;
use face_tree::FaceTree;
use std::alloc::Global;
use tgap_model::{Edge, FaceRow, List, Memory};

/// Appends the faces at the sides of these edges, edge by edge.
fn push_sides(faces: &mut Vec<u32>, edges: &[Edge]) -> Result<(), Memory>
    ensures { OnOk result (faces.new.items ≡ faces.old.items ++ all_sides edges.now) }
{
    for edge in edges {
        faces.push(edge.left)?;
        faces.push(edge.right)?;
    }
    Ok(())
}

/// The loser, the winner and the faces at the sides of these edges.
fn all_beside(alloc: Global, loser: u32, winner: u32, edges: &[Edge]) -> Result<Vec<u32>, Memory>
    ensures { IfOk result (λ faces. faces.items ≡ loser ∷ winner ∷ all_sides edges.now) }
{
    let mut faces = Vec::from_slice(alloc, &[loser, winner])?;
    push_sides(&mut faces, edges)?;
    Ok(faces)
}

/// Whether the face is none that is counted, nor the outside.
fn is_out(counts: &[u32], face: u32) -> bool
    ensures { result ≡ is_out counts.now face }
{
    face != 0 && count_at(counts, face) == 0
}

/// Those of the loser, the winner and the faces at the sides of these edges that are not counted, without the outside, by
/// number, each once.
pub fn faces_out(
    alloc: Global,
    counts: &[u32],
    loser: u32,
    winner: u32,
    edges: &[Edge],
) -> Result<Vec<u32>, Memory>
    ensures { IfOk result (λ faces. AreOut counts.now (loser ∷ winner ∷ all_sides edges.now) faces.items) }
{
    let mut faces = all_beside(alloc, loser, winner, edges)?;
    faces.sort_unstable();
    faces.dedup();
    faces.retain(|face| is_out(counts, *face));
    Ok(faces)
}

/// The rows of those of these faces that are counted.
pub fn counted_rows(
    alloc: Global,
    tree: &FaceTree,
    counts: &[u32],
    faces: &[u32],
) -> Result<List<FaceRow>, Memory>
    requires { (f : ℕ) → Contains faces.now f → 0 < count_at counts.now f → IsFace tree.now f }
    ensures { IfOk result (λ rows. rows ≡ map (row_of tree.now) (filter (λ f. nat_lt 0 (count_at counts.now f)) faces.now)) }
{
    let mut rows = List::new(alloc);
    for face in faces {
        if count_at(counts, *face) > 0 {
            let class = tree.class(*face);
            rows.push(FaceRow { face: *face, class })?;
        }
    }
    Ok(rows)
}
