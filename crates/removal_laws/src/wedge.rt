//! Laws of the directions at the ends of the segment that takes the place of two.

ghost use Rattle.removal_laws.specs.WedgeLaws.{NeighboursHaveOnePlace};

/// At an end of the segment that takes the place of two, the vertex that is taken out and the other end have one place among the
/// directions in which all other segments leave it.
pub fn neighbours_have_one_place()
    ensures { NeighboursHaveOnePlace }
{}
