//! The causes for which an edit is refused.

ghost use Rattle.std.specs.Prelude.{◌≡◌};
ghost use Rattle.tgap_model.specs.declared.failure.Or.TheVariants.{Fault};

use tgap_model::Or;

/// The cause for which an edit is refused, by its number in 'Edit batches' of docs/formats.md.
#[derive(Clone, Copy, PartialEq, Eq)]
pub struct Cause {
    pub number: u8,
}

/// There is no face or no class of that number.
pub const NO_SUCH_NUMBER: u8 = 2;

/// No arc has the point.
pub const NO_SUCH_POINT: u8 = 3;

/// The point is a node.
pub const IS_NODE: u8 = 6;

/// An end of the arc is no node, or the arc leaves it in no sector of the face.
pub const NO_SECTOR: u8 = 9;

/// The points of the arc are not all different, or an inner one is a point of the map.
pub const POINT_TAKEN: u8 = 10;

/// The map would have more faces, arcs or points than it may have.
pub const NO_ROOM: u8 = 11;

/// No walk along the face comes from the end of the arc to its start.
pub const NO_WALK: u8 = 12;

/// No arc is between the two faces.
pub const NOTHING_BETWEEN: u8 = 13;

/// No other arc has one of the two faces as a side.
pub const NOTHING_LEFT: u8 = 14;

/// The refusal for this cause.
pub fn refused(number: u8) -> Or<Cause>
    ensures { result ≡ Fault (record { number = number }) }
{
    Or::Fault(Cause { number })
}
