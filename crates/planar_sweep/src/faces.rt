//! The faces at the sides of the segments, and where they differ down the line.

ghost use Rattle.std.specs.Prelude.{◌≡◌, ◌<◌, ◌^◌, length, get_or, IfOk};
ghost use Rattle.planar_sweep.specs.Faces.{differ};
ghost use Rattle.planar_sweep.specs.Swept.{face_pair, AreFaces};

use std::alloc::Global;
use tgap_model::{LabelledSegment, Memory};

/// The faces at the upper and at the lower side of a segment.
fn face_pair(s: &LabelledSegment) -> (u32, u32)
    ensures { result ≡ face_pair s.now }
{
    if s.segment.a.x < s.segment.b.x {
        (s.left, s.right)
    } else {
        (s.right, s.left)
    }
}

/// The faces at the upper and at the lower side of each segment, and then those of the end: the outside, which is 0.
pub fn faces_of(alloc: Global, segments: &[LabelledSegment]) -> Result<Vec<(u32, u32)>, Memory>
    requires few { length segments.now < 2 ^ 32 }
    ensures { IfOk result (λ faces. AreFaces segments.now faces.items) }
{
    let mut faces = Vec::with_capacity(alloc, segments.len() + 1)?;
    for s in segments {
        faces.push(face_pair(s))?;
    }
    faces.push((0, 0))?;
    Ok(faces)
}

/// One where the face below a node is not that above the next one.
pub fn differ(faces: &[(u32, u32)], upper: u32, lower: u32) -> usize
    requires upper { upper < length faces.now }
    requires lower { lower < length faces.now }
    ensures { result ≡ differ (get_or faces.now upper (0, 0)).1 (get_or faces.now lower (0, 0)).0 }
{
    usize::from(faces[upper as usize].1 != faces[lower as usize].0)
}
