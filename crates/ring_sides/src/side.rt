//! The two sides of an arc, and the two kinds of rings.

ghost use Rattle.std.specs.Prelude.{◌≡◌, not};
ghost use Rattle.ring_sides.specs.Taking.{is_left};

/// A side of an arc, seen from its first point to its last.
#[derive(Clone, Copy)]
pub enum Side {
    Left,
    Right,
}

/// What a ring is to its polygon.
#[derive(Clone, Copy)]
pub enum RingKind {
    /// The polygon is inside the ring.
    Exterior,
    /// The polygon is outside the ring.
    Hole,
}

impl Side {
    /// The other side.
    pub fn opposite(self) -> Side
        ensures { is_left result ≡ not (is_left self) }
    {
        match self {
            Side::Left => Side::Right,
            Side::Right => Side::Left,
        }
    }
}
