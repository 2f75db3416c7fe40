//! Where the arcs of a map are found while a batch of edits works on them: by point, by face, and as a table for cuts. An arc has
//! a slot until the arcs are indexed anew, and an arc without points is gone. It stands on `face_cuts`, whose cuts look into the
//! table.
#![tactic(auto)]

mod bodies;
mod borders;
mod found;
mod front;
mod ordered;
mod places;
mod slot_table;
mod slots;
mod sought;

pub use bodies::ListedSlots;
pub use borders::Borders;
pub use places::Places;
pub use slot_table::SlotTable;
pub use slots::{arcs_in, is_there};
