//! Why a batch is refused.

/// The first line of a batch that is at fault, by its number, from 1, and the first cause that holds of it, by its number in
/// 'Edit batches' of docs/formats.md.
#[derive(Clone, Copy, Debug, PartialEq, Eq)]
pub struct EditFault {
    pub line: u32,
    pub cause: u8,
}
