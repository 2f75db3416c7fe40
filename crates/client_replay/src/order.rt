//! Whether keys and places ascend, each below the next.

ghost use Rattle.std.specs.Prelude.{◌≡◌, map, nat_lt};
ghost use Rattle.lemmas.specs.Sorting.{is_sorted_by};
ghost use Rattle.client_replay.specs.Rules.{are_in_order, mends_in_order};

use tgap_model::{Edge, FaceRow, Mend, Piece, Put};

/// Whether the keys of these edges ascend.
pub fn edges_ascend(edges: &[Edge]) -> bool
    ensures { result ≡ are_in_order edges.now }
{
    edges.is_sorted_by(|edge, next| edge.key < next.key)
}

/// Whether the keys of these mends ascend.
pub fn mends_ascend(mends: &[Mend]) -> bool
    ensures { result ≡ mends_in_order mends.now }
{
    mends.is_sorted_by(|mend, next| mend.key < next.key)
}

/// Whether the places of these puts ascend.
pub fn puts_ascend(puts: &[Put]) -> bool
    ensures { result ≡ is_sorted_by nat_lt (map (λ p. p.at) puts.now) }
{
    puts.is_sorted_by(|put, next| put.at < next.at)
}

/// Whether the last places of these pieces ascend.
pub fn pieces_ascend(pieces: &[Piece]) -> bool
    ensures { result ≡ is_sorted_by nat_lt (map (λ p. p.last) pieces.now) }
{
    pieces.is_sorted_by(|piece, next| piece.last < next.last)
}

/// Whether the numbers of these faces ascend.
pub fn faces_ascend(rows: &[FaceRow]) -> bool
    ensures { result ≡ is_sorted_by nat_lt (map (λ f. f.face) rows.now) }
{
    rows.is_sorted_by(|row, next| row.face < next.face)
}
