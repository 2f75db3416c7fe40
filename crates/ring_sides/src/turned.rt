//! Rings that are turned round.

ghost use Rattle.ring_sides.specs.Turned.{TurnedRingsTakeTheSame};

/// A ring that has an area takes the same sides for its face, whichever way it is turned.
pub fn turned_rings_take_the_same()
    ensures { TurnedRingsTakeTheSame }
{}
