//! Sides: a span with a way along it.

ghost use Rattle.std.specs.Prelude.{◌≡◌, ◌<◌, ◌^◌};
ghost use Rattle.ring_walk.specs.Sides.{numbered, other_way, same_side, side_number, turned, way_number};

/// How a span is gone along: from its first point to its last, or from its last to its first.
#[derive(Clone, Copy, PartialEq, Eq)]
pub enum Way {
    Along,
    Against,
}

impl Way {
    /// The other of the two.
    pub fn other(self) -> Way
        ensures { result ≡ other_way self }
    {
        match self {
            Way::Along => Way::Against,
            Way::Against => Way::Along,
        }
    }

    /// 0 for along, 1 for against.
    fn number(self) -> usize
        ensures { result ≡ way_number self }
    {
        match self {
            Way::Along => 0,
            Way::Against => 1,
        }
    }
}

/// A span, by its number, with a way along it. The face of a side is the one at the left on that way.
#[derive(Clone, Copy, PartialEq, Eq)]
pub struct Side {
    pub span: u32,
    pub way: Way,
}

impl Side {
    /// The same span, the other way.
    pub fn turned(self) -> Side
        ensures { result ≡ turned self }
    {
        Side {
            span: self.span,
            way: self.way.other(),
        }
    }

    /// Its number: sides are numbered span by span, the one along it first.
    pub fn number(self) -> usize
        ensures { result ≡ side_number self }
    {
        2 * self.span as usize + self.way.number()
    }

    /// The side with this number.
    pub fn numbered(number: usize) -> Side
        requires { number < 2 ^ 33 }
        ensures { result ≡ numbered number }
    {
        Side {
            span: (number / 2) as u32,
            way: if number % 2 == 0 {
                Way::Along
            } else {
                Way::Against
            },
        }
    }

    /// Whether it is this side.
    pub fn is(self, other: Side) -> bool
        ensures { result ≡ same_side self other }
    {
        self.number() == other.number()
    }
}
