//! Laws of pieces and puts.

ghost use Rattle.record_laws.specs.PieceLaws.{PiecesAreEdges, PutsComeBack};

/// The pieces of a chain cut its points, as they were before the step's removals, into those of the edges before the step.
pub fn pieces_are_edges()
    ensures { PiecesAreEdges }
{}

/// The vertices that a step took out come back at their places.
pub fn puts_come_back()
    ensures { PutsComeBack }
{}
