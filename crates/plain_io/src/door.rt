//! Where the links of clients come in.

ghost use Rattle.std.specs.Prelude.{ℕ, Bool, false, Option, ◌≡◌, ◌||◌};
ghost use Rattle.plain_io.specs.Links.{HasNone};
ghost use Rattle.plain_io.specs.Doors.{Connections, NoMoreBack, FewerBack, IfCame, is_closed, Arrives, CountsArrival, HandsBack};

mod memory;
mod refusal;
mod sure;
mod tcp;

use crate::connection::ConnectionEnd;
use crate::link::Link;
pub use memory::MemoryDoor;
pub use sure::SureDoor;
pub use tcp::TcpDoor;

/// What a door gives next.
#[derive(Drop)]
pub enum Arrival<L> {
    /// The link of a new connection.
    Came(L),
    /// No more will come.
    Closed,
    /// A fault.
    Failed,
}

/// A door, where links come in and to which each is handed back after its connection. It may be let go at any time.
pub trait Door: Drop {
    type Line: Link;

    /// How many links came and which were handed back, where that is told.
    ghost told: { Self → Option (Connections Self.Line) };

    /// How often a call has failed.
    ghost faults: { Self → ℕ };

    /// Whether a call has answered that no more links will come.
    ghost closed: { Self → Bool };

    /// The next link. Nothing was taken from it or put to it, neither of its counts has risen, and its input has not ended.
    fn next(&mut self) -> Arrival<Self::Line>
        ensures told { Arrives result (told self.old) (told self.new) }
        ensures faults { CountsArrival result (faults self.old) (faults self.new) }
        ensures closed { closed self.new ≡ (closed self.old || is_closed result) }
        ensures untaken { IfCame result (λ link. HasNone (Self.Line.taken link)) }
        ensures unput { IfCame result (λ link. HasNone (Self.Line.told link)) }
        ensures take_faults { IfCame result (λ link. Self.Line.take_faults link ≡ 0) }
        ensures put_faults { IfCame result (λ link. Self.Line.put_faults link ≡ 0) }
        ensures unended { IfCame result (λ link. Self.Line.ended link ≡ false) };

    /// Hands a link back after its connection, with the end of that.
    fn done(&mut self, line: Self::Line, end: ConnectionEnd)
        requires { FewerBack (told self.old) }
        ensures told { HandsBack (told self.old) (told self.new) line end }
        ensures faults { faults self.new ≡ faults self.old }
        ensures closed { closed self.new ≡ closed self.old };

    /// How often a call has failed; a count that stands at its type's end stays there.
    fn faults(&self) -> u64
        ensures { result ≡ faults self.now };

    /// No more links are back than came.
    ghost no_more_back: { (door : Self) → NoMoreBack (told door) };
}
