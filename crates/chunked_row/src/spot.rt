//! Where a place of a row lies in its chunks.

/// A place of a row: in a chunk, behind so many of its numbers.
#[derive(Clone, Copy)]
pub struct Spot {
    pub chunk: usize,
    pub index: usize,
}
