//! The tree of faces of a merged area map: which face a face has become after some steps of the merge history, when a
//! face is live, and what it becomes part of. It stands on `tgap_model`, whose `History` says what a step is.
#![tactic(auto)]

mod build;
mod children;
mod labels;
mod tree;

pub use tree::FaceTree;
