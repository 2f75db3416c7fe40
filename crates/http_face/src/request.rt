//! What a request may ask for.

ghost use Rattle.std.specs.Prelude.{◌≡◌};
ghost use Rattle.http_face.specs.Routes.{method_of, method_word};

use tgap_model::Window;

/// The method that a path takes.
#[derive(Clone, Copy, Debug, PartialEq, Eq)]
pub enum Allow {
    Get,
    Post,
}

impl Allow {
    /// How the method is written.
    pub(crate) fn word(self) -> &'static str
        ensures { result.now ≡ method_word self }
    {
        match self {
            Allow::Get => "GET",
            Allow::Post => "POST",
        }
    }
}

/// What a method and a target ask for.
#[derive(Clone, Copy, Debug, PartialEq, Eq)]
pub enum Route {
    /// The numbers of the version that is read.
    Info,
    /// To read the newest version from now on.
    Pin,
    /// To read the newest version from now on, by a client that has seen this one.
    PinSeen(u64),
    /// The slice at a step.
    Slice(u32),
    /// The packet from a step to a finer one.
    Packet(u32, u32),
    /// What a window shows of the slice at a step.
    Window(u32, Window),
    /// The slice at a step as a topology.
    Topo(u32),
    /// The packet of a window from a step to a finer one.
    WindowPacket(u32, u32, Window),
    /// A batch of edits.
    Edit,
    /// A parameter is no number in its range, or the ends of the window are out of order.
    BadNumber,
    /// The path takes this method alone.
    WrongMethod(Allow),
    /// No path of the server.
    NoRoute,
}

/// A row of the table of routes.
#[derive(Clone, Copy, PartialEq, Eq)]
pub(crate) enum Resource {
    Info,
    Pin,
    PinSeen,
    Slice,
    Packet,
    Window,
    Topo,
    WindowPacket,
    Edit,
}

impl Resource {
    /// The method that it takes.
    pub(crate) fn method(self) -> Allow
        ensures { result ≡ method_of self }
    {
        match self {
            Resource::Info
            | Resource::Slice
            | Resource::Packet
            | Resource::Window
            | Resource::Topo
            | Resource::WindowPacket => Allow::Get,
            Resource::Pin | Resource::PinSeen | Resource::Edit => Allow::Post,
        }
    }
}
