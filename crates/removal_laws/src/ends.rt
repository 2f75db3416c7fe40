//! Laws of the ends of chains.

ghost use Rattle.removal_laws.specs.EndLaws.{EndsWereEnds, EndsAreNotListed};

/// Where the faces stay the same along chains, an end of a chain after a step was an end of a chain before it.
pub fn ends_were_ends()
    ensures { EndsWereEnds }
{}

/// And where inner points of the chains stand once, no end of a chain is listed.
pub fn ends_are_not_listed()
    ensures { EndsAreNotListed }
{}
