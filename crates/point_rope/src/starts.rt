//! The places at which the runs of a row begin.

ghost use Rattle.std.specs.Prelude.{◌≡◌, ◌<◌, ◌≤◌, ◌+◌, ◌^◌, length, get_or, IfOk};
ghost use Rattle.point_rope.specs.Runs.{joined, starts_from};

use crate::full_run::FullRun;
use tgap_model::Memory;

/// The sum of two counts, or want of memory where no machine number has it.
pub fn sum_of(a: usize, b: usize) -> Result<usize, Memory>
    ensures { IfOk result (λ sum. sum ≡ a + b) }
{
    a.checked_add(b).ok_or(Memory)
}

/// The last run that begins up to a place, or the first one where none does.
pub fn last_up_to(starts: &[usize], place: usize) -> usize
    requires some { 0 < length starts.now }
    ensures within { result < length starts.now }
    ensures begun { 0 < result → get_or starts.now result 0 ≤ place }
    ensures next { result + 1 < length starts.now → place < get_or starts.now (result + 1) 0 }
{
    let mut low = 1;
    let mut high = starts.len();
    while low < high {
        let middle = low + (high - low) / 2;
        if starts[middle] <= place {
            low = middle + 1;
        } else {
            high = middle;
        }
    }
    low - 1
}

/// Puts the starts of these runs in the place of those before, and gives how many points the runs have.
pub fn renew(starts: &mut Vec<usize>, runs: &[FullRun]) -> usize
    requires room { length runs.now ≤ length starts.old.items }
    requires few { length (joined runs.now) < 2 ^ 64 }
    ensures starts { starts.new.items ≡ starts_from 0 runs.now }
    ensures count { result ≡ length (joined runs.now) }
{
    starts.truncate(runs.len());
    let mut start = 0;
    for i in 0..runs.len() {
        starts[i] = start;
        start += runs[i].len();
    }
    start
}
