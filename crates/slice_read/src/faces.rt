//! The faces of a slice.

ghost use Rattle.std.specs.Prelude.{◌≡◌, ◌≤◌, ◌+◌, length, map, All, IfOk};
ghost use Rattle.face_tree.specs.Tree.{IsFace};
ghost use Rattle.slice_read.specs.Reading.{live_rows};
ghost use Rattle.slice_read.specs.Windows.{row_of};

use face_tree::FaceTree;
use std::alloc::Global;
use tgap_model::{FaceRow, List, Memory};

/// A row for each of these faces, with its class.
pub fn rows_of(alloc: Global, tree: &FaceTree, faces: &[u32]) -> Result<List<FaceRow>, Memory>
    requires { All (IsFace tree.now) faces.now }
    ensures { IfOk result (λ rows. rows ≡ map (row_of tree.now) faces.now) }
{
    let mut rows = List::with_capacity(alloc, faces.len())?;
    for face in faces {
        rows.push(FaceRow {
            face: *face,
            class: tree.class(*face),
        })?;
    }
    Ok(rows)
}

/// The faces that are live after k steps, by number, each with its class.
pub fn faces_at(alloc: Global, tree: &FaceTree, k: u32) -> Result<List<FaceRow>, Memory>
    requires { k ≤ length tree.now.steps }
    ensures { IfOk result (λ rows. rows ≡ live_rows tree.now k (tree.now.faces + k)) }
{
    let faces = tree.live_at(alloc, k)?;
    rows_of(alloc, tree, &faces)
}
