//! Why a record is refused.

/// A record that does not fit the slice: the step of the record, and the least of the rules that it breaks.
///
/// 1. It has the step of the slice, and that is not 0.
/// 2. The new face is in the slice, with the class of the winner; loser and winner are not there. The three are different
///    faces, and 0 is none of them.
/// 3. The mends stand by ascending key, and each names an edge with the new face on exactly one side.
/// 4. The places of a mend's puts ascend; each put, at its turn, is between two points of the edge, and differs from both.
/// 5. Each mend has a piece; the places at which its pieces end ascend, begin at 1 or above, and end where the edge does
///    when its puts are made; no piece has another side than the loser or the winner.
/// 6. The ended edges stand by ascending key, each between loser and winner.
/// 7. Once the step is undone, no two edges have one key.
///
/// Of a record of a window 1, 3, 4, 5 and 7 are the same, and the others are these:
///
/// 2. Neither loser nor winner is in the slice. The new face may be missing there. The three are different faces, and 0 is
///    none of them.
/// 6. The edges that come stand by ascending key, and the rows of faces by ascending number, none of which is 0 or a face
///    of the slice.
/// 8. Once the step is undone, each face beside an edge, but the outside, has a row.
#[derive(Clone, Copy, PartialEq, Eq)]
pub struct Unfit {
    pub step: u32,
    pub rule: u8,
}
