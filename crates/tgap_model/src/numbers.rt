//! Rows of numbers.

ghost use Rattle.std.specs.Prelude.{◌≡◌, ◌<◌, ℕ, length, slice_index, IfOk};

use crate::failure::Memory;
use std::alloc::Global;

/// The numbers from 0 to below this one, each at its own place. It fails on want of memory alone.
pub fn numbers_below(alloc: Global, end: u32) -> Result<Vec<u32>, Memory>
    ensures count { IfOk result (λ numbers. length numbers.items ≡ end) }
    ensures numbers { IfOk result (λ numbers. (k : ℕ) → k < end → slice_index numbers.items k ≡ k) }
{
    let mut numbers = Vec::with_capacity(alloc, end as usize)?;
    for n in 0..end {
        numbers.push(n)?;
    }
    Ok(numbers)
}
