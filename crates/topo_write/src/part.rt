//! Parts of faces.

use tgap_model::{FaceRow, List};

/// A part of a face: the places of its outer ring, and then of the inner ones, among the rings of a slice.
#[derive(Drop)]
pub struct Part {
    pub row: FaceRow,
    pub rings: List<u32>,
}
