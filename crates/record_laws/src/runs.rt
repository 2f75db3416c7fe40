//! Laws of runs.

ghost use Rattle.record_laws.specs.RunLaws.{RunsAreChains};

/// Each chain after a step is a row of chains before it, as they are or turned round; and each of these but those between the
/// step's loser and winner is in one of them, once.
pub fn runs_are_chains()
    ensures { RunsAreChains }
{}
