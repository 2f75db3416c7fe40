//! The first place of a stack at which the faces disagree, by a look at all of its places.

ghost use Rattle.std.specs.Prelude.{◌≡◌, ◌≢◌, ℕ, ◌+◌, ◌<◌, ◌≤◌, ◌^◌, List, length, map, get_or};
ghost use Rattle.std.specs.List.{All};
ghost use Rattle.planar_stack.specs.Sweep.{sides_at, IsFirstOf};

use crate::gap::{faces, gap_at};
use chunked_row::Row;
use tgap_model::LabelledSegment;

/// How many neighbours from the first one on agree: the lower face of each is the upper face of the next one.
fn agreeing(starts: &[LabelledSegment], numbers: &[u32]) -> usize
    requires known { All (λ n. n < length starts.now) numbers.now }
    requires some { 0 < length numbers.now }
    ensures some { 0 < result }
    ensures within { result ≤ length numbers.now }
    ensures agree { (k d : ℕ) → k + 1 < result → (sides_at starts.now (get_or numbers.now k d)).lower ≡ (sides_at starts.now (get_or numbers.now (k + 1) d)).upper }
{
    let mut lower = faces(&starts[numbers[0] as usize]).1;
    for i in 1..numbers.len() {
        let next = faces(&starts[numbers[i] as usize]);
        if next.0 != lower {
            return i;
        }
        lower = next.1;
    }
    numbers.len()
}

/// The first place of a stack at which the faces differ, or that below its last member.
pub fn first_place(starts: &[LabelledSegment], stack: &Row, line: i64) -> usize
    requires known { All (λ n. n < length starts.now) stack.now }
    requires few { length stack.now < 2 ^ 32 }
    ensures { (seen : List ℕ) → IsFirstOf seen (map (sides_at starts.now) stack.now) stack.now result }
{
    let mut place = 0;
    while place < stack.len() && gap_at(starts, stack, place, line).is_none() {
        place += agreeing(starts, stack.run_from(place));
    }
    place
}
