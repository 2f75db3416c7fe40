//! Laws of the replacement of two segments in a row by one.

ghost use Rattle.removal_laws.specs.ReplaceLaws.{ReplacedIsApart};

/// Where the segments of edges have no point in common but permitted ones, this stays so when a point is taken out of an edge, if
/// it lies on one line with its neighbours or their triangle is clear of all other segments.
pub fn replaced_is_apart()
    ensures { ReplacedIsApart }
{}
