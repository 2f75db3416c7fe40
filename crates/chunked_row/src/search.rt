//! The search for a place in a row, by a test that the numbers before the place pass and those behind it fail: first
//! among the chunks, by their first numbers, and then in one chunk.

ghost use Rattle.std.specs.Prelude.{◌≡◌, ◌<◌, ◌≤◌, ◌-◌, ◌^◌, true, false, [], length, get_or};
ghost use Rattle.std.specs.List.{All, concat};
ghost use Rattle.chunked_row.specs.Chunks.{HasSome};

use crate::chunks::Chunks;

/// How many chunks stand before the place: the last of them begins with a number that passes, and the next one with a
/// number that fails.
fn chunks_before<P: Fn(u32) -> bool>(chunks: &Chunks, passes: &P) -> usize
    requires full { All HasSome chunks.now }
    requires callable { All (All (P.pre passes.now)) chunks.now }
    ensures within { result ≤ length chunks.now }
    ensures passed { 0 < result → P.post passes.now (get_or (get_or chunks.now (result - 1) []) 0 0) true }
    ensures failed { result < length chunks.now → P.post passes.now (get_or (get_or chunks.now result []) 0 0) false }
{
    let mut low = 0;
    let mut high = chunks.len();
    while low < high {
        let middle = low + (high - low) / 2;
        if passes(chunks.get(middle).at(0)) {
            low = middle + 1;
        } else {
            high = middle;
        }
    }
    low
}

/// The place among some numbers, from an index on: the number before it passes, unless it is at that index, and the one
/// at it fails.
fn index_of<P: Fn(u32) -> bool>(numbers: &[u32], from: usize, passes: &P) -> usize
    requires within { from ≤ length numbers.now }
    requires callable { All (P.pre passes.now) numbers.now }
    ensures from { from ≤ result }
    ensures within { result ≤ length numbers.now }
    ensures passed { from < result → P.post passes.now (get_or numbers.now (result - 1) 0) true }
    ensures failed { result < length numbers.now → P.post passes.now (get_or numbers.now result 0) false }
{
    let mut low = from;
    let mut high = numbers.len();
    while low < high {
        let middle = low + (high - low) / 2;
        if passes(numbers[middle]) {
            low = middle + 1;
        } else {
            high = middle;
        }
    }
    low
}

/// A place in a row: the number before it passes, and the one at it fails.
pub fn place_in<P: Fn(u32) -> bool>(chunks: &Chunks, passes: &P) -> usize
    requires full { All HasSome chunks.now }
    requires few { length (concat chunks.now) < 2 ^ 64 }
    requires callable { All (P.pre passes.now) (concat chunks.now) }
    ensures within { result ≤ length (concat chunks.now) }
    ensures passed { 0 < result → P.post passes.now (get_or (concat chunks.now) (result - 1) 0) true }
    ensures failed { result < length (concat chunks.now) → P.post passes.now (get_or (concat chunks.now) result 0) false }
{
    let before = chunks_before(chunks, passes);
    if before == 0 {
        return 0;
    }
    let index = index_of(chunks.get(before - 1).as_slice(), 1, passes);
    chunks.start(before - 1) + index
}
