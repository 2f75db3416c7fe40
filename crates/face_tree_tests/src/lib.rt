//! Tests of `face_tree` over its public calls: the tree of five squares in a row, whose merges are worked out by hand.
#![tactic(auto)]

#[cfg(test)]
mod five_squares;
