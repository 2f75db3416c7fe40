//! A version that is held.

use std::sync::Arc;

/// A version with its number. It never changes, and is kept for as long as it is held.
#[derive(Drop)]
pub struct Pin<V> {
    /// The number of the version.
    pub number: u64,
    /// The version.
    pub held: Arc<V>,
}
