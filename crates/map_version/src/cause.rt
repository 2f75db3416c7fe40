//! The causes for which a line of a batch is refused.

ghost use Rattle.std.specs.Prelude.{◌≡◌};
ghost use Rattle.std.specs.Option.{ok_or};
ghost use Rattle.line_forms.specs.Json.{ensured};
ghost use Rattle.tgap_model.specs.declared.failure.Or.TheVariants.{Fault};
ghost use Rattle.map_version.specs.Faults.{cause_number};

use face_cuts::Cause;
use tgap_model::Or;

/// The line is out of form or without its line feed, what should be a number is none, or a coordinate is beyond the limits.
pub const NO_EDIT: u8 = 1;

/// There is no face or no class of that number.
pub const NO_SUCH_NUMBER: u8 = 2;

/// No arc has the point.
pub const NO_SUCH_POINT: u8 = 3;

/// The new point is one of the map already.
pub const POINT_TAKEN: u8 = 4;

/// No segment has the two ends.
pub const NO_SUCH_SEGMENT: u8 = 5;

/// The point is a node.
pub const IS_NODE: u8 = 6;

/// The point before it is also the one after it.
pub const TURNS_BACK: u8 = 7;

/// The map has as many points as it may have.
pub const NO_ROOM: u8 = 8;

/// The points of a new arc are not all different, or an inner one is a point of the map.
pub const NOT_FREE: u8 = 10;

/// The map would have more faces, arcs or points than it may have.
pub const PAST_LIMIT: u8 = 11;

/// No arc is between the two faces.
pub const NOTHING_BETWEEN: u8 = 13;

/// No other arc has one of the two faces as a side.
pub const NOTHING_LEFT: u8 = 14;

/// What was found, or this cause.
pub fn found<T>(value: Option<T>, cause: u8) -> Result<T, Or<u8>>
    ensures { result ≡ ok_or value (Fault cause) }
{
    match value {
        Some(value) => Ok(value),
        None => Err(Or::Fault(cause)),
    }
}

/// This cause, where the test fails.
pub fn ensured(holds: bool, cause: u8) -> Result<(), Or<u8>>
    ensures { result ≡ ensured holds (Fault cause) }
{
    if holds { Ok(()) } else { Err(Or::Fault(cause)) }
}

/// The cause of a cut that was refused: 9, an end of the new arc is no node, or the arc leaves it in no sector of the face; 12, no walk
/// along the face comes from its end to its start.
pub fn cause_of(cause: Or<Cause>) -> Or<u8>
    ensures { result ≡ cause_number cause }
{
    match cause {
        Or::Fault(cause) => Or::Fault(cause.number),
        Or::Memory => Or::Memory,
    }
}
