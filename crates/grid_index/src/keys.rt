//! Keys in ascending order.

ghost use Rattle.std.specs.Prelude.{◌≡◌, ◌==◌, IfOk, IsPermutation};
ghost use Rattle.std.specs.List.{list_any};
ghost use Rattle.std.specs.List.Sorted.{IsNonDecreasing};

use std::alloc::Global;
use tgap_model::{Memory, Window};

/// The key of an edge, and a box that meets that of one of its segments.
#[derive(Clone, Copy)]
pub struct KeyBox {
    pub key: u32,
    pub area: Window,
}

/// The keys, ascending.
pub fn ascending(alloc: Global, keys: &[u32]) -> Result<Vec<u32>, Memory>
    ensures same { IfOk result (λ sorted. IsPermutation keys.now sorted.items) }
    ensures ascending { IfOk result (λ sorted. IsNonDecreasing sorted.items) }
{
    let mut sorted = Vec::from_slice(alloc, keys)?;
    sorted.sort_unstable();
    Ok(sorted)
}

/// Whether a key is among these, which ascend.
pub fn is_among(keys: &[u32], key: u32) -> bool
    requires { IsNonDecreasing keys.now }
    ensures { result ≡ list_any (λ k. k == key) keys.now }
{
    keys.binary_search(&key).is_ok()
}
