//! Laws of chains, slices and records.

ghost use Rattle.map_laws.specs.ChainLaws.{ChainsAreUnique, ChainsExist, ChainsStep, SlicesAreUnique, EndedEdgesVanish};

/// At most one list is the chains of a map after some steps of its history.
pub fn chains_are_unique()
    ensures { ChainsAreUnique }
{}

/// The border arcs that are joined at the nodes of degree two, one after the other, are the chains of every map after every
/// number of steps.
pub fn chains_exist()
    ensures { ChainsExist }
{}

/// Where the faces at the sides stay the same along each chain, the chains after a step are those before it less the ones
/// between its loser and its winner, joined at the nodes whose degree becomes two.
pub fn chains_step()
    ensures { ChainsStep }
{}

/// At most one slice has the faces and the edges of a map after some steps, less the vertices that were removed.
pub fn slices_are_unique()
    ensures { SlicesAreUnique }
{}

/// The edges that a record brings back are made of exactly the arcs that are borders before its step and not after it.
pub fn ended_edges_vanish()
    ensures { EndedEdgesVanish }
{}
