//! Listings of small maps, worked by hand.

/// Two squares side by side.
pub const TWO_SQUARES: &str =
    "tgap 1\ntransform 1 1 0 0\nratio 16\nclasses 1\nclass 0 1 1\nfaces 2\nface 1 0\nface 2 0\narcs 3\narc 1 0 4 10 10 0 10 0 0 10 0\narc 2 0 4 10 0 20 0 20 10 10 10\narc 1 2 2 10 0 10 10\nend\n";

/// A square with a square hole, which is a face.
pub const HOLE_WITH_FACE: &str =
    "tgap 1\ntransform 1 1 0 0\nratio 0\nclasses 1\nclass 0 1 1\nfaces 2\nface 1 0\nface 2 0\narcs 2\narc 1 0 5 0 0 30 0 30 30 0 30 0 0\narc 2 1 5 10 10 20 10 20 20 10 20 10 10\nend\n";
