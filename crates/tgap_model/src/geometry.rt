//! Points of the plane, in grid units.

/// A point with whole coordinates, in grid units; up is towards greater y. Of two points the one with less x comes
/// first, or with the same x the one with less y.
#[derive(Clone, Copy, Debug, PartialEq, Eq, PartialOrd, Ord)]
pub struct Point {
    pub x: i64,
    pub y: i64,
}

/// A point with rational coordinates `nx / d` and `ny / d`. The fraction need not be reduced.
#[derive(Clone, Copy, Debug, PartialEq, Eq)]
pub struct Fraction {
    pub nx: i128,
    pub ny: i128,
    pub d: i128,
}

/// A segment between two points.
#[derive(Clone, Copy, PartialEq, Eq)]
pub struct Seg {
    pub a: Point,
    pub b: Point,
}

/// Which ends two segments may share: `ab` says that the end `a` of the first and the end `b` of the second are one
/// point, at which both may meet, and so on.
#[derive(Clone, Copy, PartialEq, Eq)]
pub struct Shared {
    pub aa: bool,
    pub ab: bool,
    pub ba: bool,
    pub bb: bool,
}

/// A closed window of the plane: x from `x0` to `x1`, y from `y0` to `y1`, in grid units.
#[derive(Clone, Copy, Debug, PartialEq, Eq)]
pub struct Window {
    pub x0: i64,
    pub y0: i64,
    pub x1: i64,
    pub y1: i64,
}
