//! Changes of a row in its chunks, of which none is empty.

ghost use Rattle.std.specs.Prelude.{◌≡◌, ℕ, ◌<◌, ◌≤◌, ◌+◌, ◌^◌, ◌∷◌, [], length, get_or, take, drop, is_ok, if◌then◌else◌, IfOk};
ghost use Rattle.std.specs.List.{All, concat, insert, remove};
ghost use Rattle.chunked_row.specs.Chunks.{HasSome, IsSpot};

use crate::chunk::FULL;
use crate::chunks::Chunks;
use crate::spot::Spot;
use std::alloc::Global;
use tgap_model::Memory;

/// Splits a chunk in halves. On want of memory the chunks are as before.
fn split(alloc: Global, chunks: &mut Chunks, chunk: usize) -> Result<(), Memory>
    requires within { chunk < length chunks.old }
    requires long { 2 ≤ length (get_or chunks.old chunk []) }
    requires few { length (concat chunks.old) < 2 ^ 64 }
    requires full { All HasSome chunks.old }
    ensures same { concat chunks.new ≡ concat chunks.old }
    ensures full { All HasSome chunks.new }
{
    let half = chunks.get(chunk).len() / 2;
    chunks.cut(alloc, chunk, half)
}

/// The spot of a place, in a chunk that has room: the chunk of the place is split where it is full.
fn spot_with_room(alloc: Global, chunks: &mut Chunks, place: usize) -> Result<Spot, Memory>
    requires some { 0 < length chunks.old }
    requires within { place ≤ length (concat chunks.old) }
    requires few { length (concat chunks.old) < 2 ^ 64 }
    requires full { All HasSome chunks.old }
    ensures same { concat chunks.new ≡ concat chunks.old }
    ensures full { All HasSome chunks.new }
    ensures spot { IfOk result (IsSpot chunks.new place) }
{
    let spot = chunks.spot_of(place);
    if chunks.get(spot.chunk).len() < FULL {
        return Ok(spot);
    }
    split(alloc, chunks, spot.chunk)?;
    Ok(chunks.spot_of(place))
}

/// Puts a number in at a place. On want of memory the row is as before.
pub fn insert_at(
    alloc: Global,
    chunks: &mut Chunks,
    place: usize,
    number: u32,
) -> Result<(), Memory>
    requires within { place ≤ length (concat chunks.old) }
    requires few { length (concat chunks.old) + 1 < 2 ^ 64 }
    requires full { All HasSome chunks.old }
    ensures inserted { concat chunks.new ≡ (if is_ok result then insert (concat chunks.old) place number else concat chunks.old) }
    ensures full { All HasSome chunks.new }
{
    if chunks.is_empty() {
        return chunks.insert_first(alloc, number);
    }
    let spot = spot_with_room(alloc, chunks, place)?;
    chunks.insert_in(spot.chunk, spot.index, number)
}

/// Takes a chunk out where it is empty.
fn remove_empty(chunks: &mut Chunks, chunk: usize)
    requires within { chunk < length chunks.old }
    requires before { All HasSome (take chunk chunks.old) }
    requires behind { All HasSome (drop (chunk + 1) chunks.old) }
    ensures same { concat chunks.new ≡ concat chunks.old }
    ensures full { All HasSome chunks.new }
{
    if chunks.get(chunk).len() == 0 {
        chunks.remove(chunk);
    }
}

/// Takes the number at a place out.
pub fn remove_at(chunks: &mut Chunks, place: usize)
    requires within { place < length (concat chunks.old) }
    requires few { length (concat chunks.old) < 2 ^ 64 }
    requires full { All HasSome chunks.old }
    ensures removed { concat chunks.new ≡ remove (concat chunks.old) place }
    ensures full { All HasSome chunks.new }
{
    let spot = chunks.spot_of(place + 1);
    chunks.remove_in(spot.chunk, spot.index - 1);
    remove_empty(chunks, spot.chunk);
}

/// The number at a place.
pub fn number_at(chunks: &Chunks, place: usize) -> u32
    requires within { place < length (concat chunks.now) }
    requires few { length (concat chunks.now) < 2 ^ 64 }
    ensures { result ≡ get_or (concat chunks.now) place 0 }
{
    let spot = chunks.spot_of(place + 1);
    chunks.get(spot.chunk).at(spot.index - 1)
}

/// The numbers from a place on that lie in the chunk of the place.
pub fn run_of(chunks: &Chunks, place: usize) -> &[u32]
    requires within { place < length (concat chunks.now) }
    requires few { length (concat chunks.now) < 2 ^ 64 }
    ensures some { 0 < length result.now }
    ensures within { place + length result.now ≤ length (concat chunks.now) }
    ensures numbers { (k d : ℕ) → k < length result.now → get_or result.now k d ≡ get_or (concat chunks.now) (place + k) d }
{
    let spot = chunks.spot_of(place + 1);
    &chunks.get(spot.chunk).as_slice()[spot.index - 1..]
}
