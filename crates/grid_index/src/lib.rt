//! Which boxes meet a window: trees of boxes that answer in the time of what they give and little more. It stands on
//! `tgap_model`, whose windows it takes, and on the sorting of `lemmas`.
#![tactic(auto)]

mod boxes;
mod changes;
mod edges;
mod entries;
mod keys;
mod live;
mod order;
mod probe;
mod segments;
mod slots;
mod tree;
mod window;

pub use boxes::EdgeBoxes;
pub use live::{Live, SegmentPlace};
pub use order::order_of;
pub use probe::Probe;
pub use tree::BoxTree;
pub use window::{meets, segment_box};
