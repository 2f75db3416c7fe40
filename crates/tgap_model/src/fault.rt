//! Why a map is refused.

ghost use Rattle.std.specs.Prelude.{◌≡◌};
ghost use Rattle.tgap_model.specs.Limits.{limit_of, limit_word};

use crate::geometry::{Fraction, Point};
use crate::limits::{MAX_ARCS, MAX_CLASSES, MAX_FACES, MAX_POINTS};

/// What a limit is set on.
#[derive(Clone, Copy, Debug, PartialEq, Eq)]
pub enum LimitKind {
    Classes,
    Faces,
    Arcs,
    Points,
}

impl LimitKind {
    /// How many there may be.
    pub fn limit(self) -> usize
        ensures { result ≡ limit_of self }
    {
        match self {
            LimitKind::Classes => MAX_CLASSES,
            LimitKind::Faces => MAX_FACES,
            LimitKind::Arcs => MAX_ARCS,
            LimitKind::Points => MAX_POINTS,
        }
    }

    /// Its name in a text.
    pub fn word(self) -> &'static str
        ensures { result.now ≡ limit_word self }
    {
        match self {
            LimitKind::Classes => "classes",
            LimitKind::Faces => "faces",
            LimitKind::Arcs => "arcs",
            LimitKind::Points => "points",
        }
    }
}

/// Why a map is refused: the first fault, with what shows it.
#[derive(Clone, Copy, Debug, PartialEq, Eq)]
pub enum MapFault {
    /// The bytes are no JSON.
    NotJson,
    /// A part of the topology has not the shape that the format gives it.
    Shape {
        place: u8,
        at: u32,
    },
    /// There is no object of that name.
    NoObject,
    /// One object was to be chosen, and there are several.
    ManyObjects {
        count: u64,
    },
    /// A coordinate is no whole number.
    NotWhole {
        arc: u32,
        position: u32,
    },
    /// A coordinate is outside the limits.
    OutOfRange {
        arc: u32,
        position: u32,
    },
    /// An arc has fewer than two positions.
    ArcShort {
        arc: u32,
    },
    /// An index of a ring names no arc.
    ArcIndex {
        ring: u32,
        place: u32,
        index: i64,
    },
    /// There are more of these than the limit allows.
    Limit {
        which: LimitKind,
        count: u64,
    },
    /// In a ring there is a gap between the end of an arc and the start of the next.
    RingOpen {
        ring: u32,
        place: u32,
    },
    /// A ring has no area.
    RingFlat {
        ring: u32,
    },
    /// Two rings take one side of an arc.
    SideTaken {
        arc: u32,
        side: u8,
        first: u32,
        second: u32,
    },
    /// One face takes both sides of an arc.
    SameSides {
        arc: u32,
        face: u32,
    },
    /// Two segments meet where they may not.
    Meets {
        i: u32,
        j: u32,
        at: Fraction,
    },
    /// Round a node, one spoke and the next disagree on the face between them.
    NodeDisagrees {
        node: Point,
        spoke: u32,
        next: u32,
        left: u32,
        right: u32,
    },
    /// On a vertical line, a segment and the next disagree on the face between them.
    StackDisagrees {
        line: i64,
        place: u32,
        upper: u32,
        lower: u32,
    },
    /// A line of a listing is not of its form.
    BadLine {
        line: u32,
    },
    /// A member of the rules is not of its form.
    BadRules {
        place: u8,
    },
    /// A file is longer than the limit, in bytes.
    InputLong {
        max: u64,
    },
}
