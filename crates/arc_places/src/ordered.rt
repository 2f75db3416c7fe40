//! Sides in the order of their numbers.

ghost use Rattle.std.specs.Prelude.{◌≡◌, ◌<◌, ◌≤◌, ◌*◌, ◌^◌, ◌&&◌, ℕ, Bool, All, IfOk, filter, map, nat_lt};
ghost use Rattle.ring_walk.specs.declared.side.Side.{Side as OneSide};
ghost use Rattle.ring_walk.specs.Sides.{numbered, sides};
ghost use Rattle.arc_places.specs.Places.{is_among};
ghost use Rattle.arc_places.specs.Ordered.{AreOrdered};

use ring_walk::Side;
use std::alloc::Global;
use tgap_model::Memory;

/// These numbers in ascending order, each once.
fn ordered(mut numbers: Vec<usize>) -> Vec<usize>
    ensures { AreOrdered numbers.items result.items }
{
    numbers.sort_unstable();
    numbers.dedup();
    numbers
}

/// The sides with these numbers.
fn numbered_sides(alloc: Global, numbers: &[usize]) -> Result<Vec<Side>, Memory>
    requires { All (λ i. i < 2 ^ 33) numbers.now }
    ensures { IfOk result (λ found. found.items ≡ map numbered numbers.now) }
{
    let mut found = Vec::with_capacity(alloc, numbers.len())?;
    for number in numbers {
        found.push(Side::numbered(*number))?;
    }
    Ok(found)
}

/// The sides with these numbers, in order and each once: of so many spans those that pass a test, where their numbers and no
/// others are there.
pub fn sides_in_order(alloc: Global, numbers: Vec<usize>) -> Result<Vec<Side>, Memory>
    requires { All (λ i. i < 2 ^ 33) numbers.items }
    ensures { IfOk result (λ found. (n : ℕ) (p : OneSide → Bool) →
        ((i : ℕ) → is_among i numbers.items ≡ (nat_lt i (2 * n) && p (numbered i))) → found.items ≡ filter p (sides n)) }
{
    let numbers = ordered(numbers);
    numbered_sides(alloc, &numbers)
}
