//! Laws of the next side and of the rings. The functions do nothing: the contract of each is a law.

ghost use Rattle.ring_walk.specs.Orbits.{NextIsOneToOne, RingsAreOrbits};

/// The next side is one to one on the sides of spans, and leaves where the side arrives.
pub fn next_is_one_to_one()
    ensures { NextIsOneToOne }
{}

/// The rings of spans are the orbits of their sides: each side stands in one ring, and once, and each ring begins with its
/// least side.
pub fn rings_are_orbits()
    ensures { RingsAreOrbits }
{}
