//! Laws of the triangle of a removed vertex.

ghost use Rattle.removal_laws.specs.TriangleLaws.{ClearIsApart, ClearOfBase, OneLineCovers};

/// A triangle that is clear of a segment meets it at most in a corner `a` or `c` at which the segment ends.
pub fn clear_is_apart()
    ensures { ClearIsApart }
{}

/// The segment from `a` to `c` meets a segment of which the triangle is clear at most in an `a` or `c` at which that one ends.
pub fn clear_of_base()
    ensures { ClearOfBase }
{}

/// Where `a`, `b` and `c` are on one line, the segment from `a` to `c` lies on those from `a` to `b` and from `b` to `c`.
pub fn one_line_covers()
    ensures { OneLineCovers }
{}
