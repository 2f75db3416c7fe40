//! The places at which the chunks of a row begin.

ghost use Rattle.std.specs.Prelude.{◌≡◌, ℕ, ◌<◌, ◌≤◌, ◌+◌, ◌-◌, ◌^◌, ◌++◌, length, get_or, take, drop, map};
ghost use Rattle.std.specs.List.{All};

/// Raises the starts by one.
fn raise(starts: &mut [usize])
    requires { All (λ s. s + 1 < 2 ^ 64) starts.old }
    ensures { starts.new ≡ map (λ s. s + 1) starts.old }
{
    for start in starts.iter_mut() {
        *start += 1;
    }
}

/// Lowers the starts by one.
fn lower(starts: &mut [usize])
    requires { All (λ s. 0 < s) starts.old }
    ensures { starts.new ≡ map (λ s. s - 1) starts.old }
{
    for start in starts.iter_mut() {
        *start -= 1;
    }
}

/// Moves the starts from one on up by one.
pub fn move_up(starts: &mut Vec<usize>, from: usize)
    requires within { from ≤ length starts.old.items }
    requires few { All (λ s. s + 1 < 2 ^ 64) (drop from starts.old.items) }
    ensures { starts.new.items ≡ take from starts.old.items ++ map (λ s. s + 1) (drop from starts.old.items) }
{
    raise(&mut starts[from..]);
}

/// Moves the starts from one on down by one.
pub fn move_down(starts: &mut Vec<usize>, from: usize)
    requires within { from ≤ length starts.old.items }
    requires some { All (λ s. 0 < s) (drop from starts.old.items) }
    ensures { starts.new.items ≡ take from starts.old.items ++ map (λ s. s - 1) (drop from starts.old.items) }
{
    lower(&mut starts[from..]);
}

/// The last chunk that begins before a place, or the first one where none does.
pub fn last_before(starts: &[usize], place: usize) -> usize
    requires some { 0 < length starts.now }
    ensures within { result < length starts.now }
    ensures begun { 0 < result → get_or starts.now result 0 < place }
    ensures next { result + 1 < length starts.now → place ≤ get_or starts.now (result + 1) 0 }
{
    let mut low = 1;
    let mut high = starts.len();
    while low < high {
        let middle = low + (high - low) / 2;
        if starts[middle] < place {
            low = middle + 1;
        } else {
            high = middle;
        }
    }
    low - 1
}
