//! One arc that still borders a face.

/// An arc of the base map that is a border, with the two faces at its sides.
#[derive(Clone, Copy, PartialEq, Eq)]
pub struct BorderRow {
    /// The number of the arc.
    pub arc: u32,
    pub left: u32,
    pub right: u32,
}
