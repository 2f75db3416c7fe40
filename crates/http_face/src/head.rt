//! What is told of the head of a request, and its limits.

ghost use Rattle.std.specs.Prelude.{◌≡◌};
ghost use Rattle.http_face.specs.declared.head.TheConstants.{MAX_BODY_BYTES, MAX_HEADERS, MAX_HEAD_BYTES};

use crate::request::Route;
use tgap_model::Text;

/// The greatest length of a head, in bytes.
pub const MAX_HEAD_BYTES: usize = 8_192;

/// The greatest number of headers.
pub const MAX_HEADERS: usize = 64;

/// The greatest length of a body, in bytes.
pub const MAX_BODY_BYTES: u32 = 1_048_576;

/// The limits as numbers: definitions read the constants, and would follow a wrong one.
pub fn limits_as_numbers()
    ensures head { MAX_HEAD_BYTES ≡ 8192 }
    ensures headers { MAX_HEADERS ≡ 64 }
    ensures body { MAX_BODY_BYTES ≡ 1048576 }
{}

/// The status of a head at fault.
pub const BAD_REQUEST: u16 = 400;

/// The status of a head that announces a body over the limit.
pub const CONTENT_TOO_LARGE: u16 = 413;

/// The head of a request: how many bytes it has, its method and its target, how many bytes its body has, and whether
/// the connection is to end after the reply.
#[derive(Drop)]
pub struct Head {
    pub length: u32,
    pub method: Text,
    pub target: Text,
    pub body: u32,
    pub close: bool,
}

/// What the bytes of a request so far tell of its head.
#[derive(Drop)]
pub enum HeadState {
    /// The head is whole and good.
    Whole(Head),
    /// The head is unfinished.
    More,
    /// The head is at fault; the reply has this status, 400 or 413.
    Bad { status: u16 },
}

/// What the bytes of a request so far tell of where its head and its body end, and of whether the connection ends too.
#[derive(Clone, Copy, Debug, PartialEq, Eq)]
pub enum HeadEnds {
    /// The head is whole and good.
    Whole { length: u32, body: u32, close: bool },
    /// The head is unfinished.
    More,
    /// The head is at fault; the reply has this status, 400 or 413.
    Bad { status: u16 },
}

/// What the bytes of a request so far tell of where its head and its body end, of whether the connection ends too, and
/// of what it asks for.
#[derive(Clone, Copy, Debug, PartialEq, Eq)]
pub enum HeadAsks {
    /// The head is whole and good.
    Whole {
        length: u32,
        body: u32,
        close: bool,
        asked: Route,
    },
    /// The head is unfinished.
    More,
    /// The head is at fault; the reply has this status, 400 or 413.
    Bad {
        status: u16,
    },
}
