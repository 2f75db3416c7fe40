//! Laws of the faces round a node, where vertices are taken out.

ghost use Rattle.step_laws.specs.NodeLaws.{ReplacedAgreesRound, SweepKeepsNodes};

/// The faces round a node still agree where a vertex is taken out of an edge.
pub fn replaced_agrees_round()
    ensures { ReplacedAgreesRound }
{}

/// The faces round a node still agree after a sweep.
pub fn sweep_keeps_nodes()
    ensures { SweepKeepsNodes }
{}
