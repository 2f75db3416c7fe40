//! Where the doors of a server come from, and where they come back.

ghost use Rattle.std.specs.Prelude.{ℕ, false, Option, IfOk, All, ◌≡◌, ◌≤◌, vec_len};
ghost use Rattle.plain_io.specs.Doors.{NoneCame};
ghost use Rattle.plain_io.specs.Harbours.{Doors, NoMoreBack, FewerBack, GivesDoors, CountsDoors, TakesBack, CountsBack};

mod memory;
mod store;
mod sure;
mod tcp;

use crate::door::Door;
pub use memory::MemoryHarbour;
use std::alloc::Global;
pub use sure::SureHarbour;
pub use tcp::TcpHarbour;

/// Why no doors were given.
#[derive(Clone, Copy, Debug, PartialEq, Eq)]
pub enum HarbourFail {
    /// The port could not be opened.
    Failed,
    /// An allocation was refused.
    Memory,
}

/// A harbour, which gives the doors of a server and gets them back.
pub trait Harbour {
    type Gate: Door + Send;

    /// How many doors were given and which came back, where that is told.
    ghost told: { Self → Option (Doors Self.Gate) };

    /// How often no doors could be given, and how many doors with a fault came back.
    ghost faults: { Self → ℕ };

    /// So many doors at that port, from 1 to 16. No link came of them yet, none has failed and none is closed.
    fn doors(&mut self, alloc: Global, port: u16, n: u32) -> Result<Vec<Self::Gate>, HarbourFail>
        requires least { 1 ≤ n }
        requires most { n ≤ 16 }
        ensures number { IfOk result (λ doors. vec_len doors ≡ n) }
        ensures empty { IfOk result (λ doors. All (λ door. NoneCame (Self.Gate.told door)) doors.items) }
        ensures sound { IfOk result (λ doors. All (λ door. Self.Gate.faults door ≡ 0) doors.items) }
        ensures unclosed { IfOk result (λ doors. All (λ door. Self.Gate.closed door ≡ false) doors.items) }
        ensures told { GivesDoors n result (told self.old) (told self.new) }
        ensures faults { CountsDoors result (faults self.old) (faults self.new) };

    /// Takes a door back that this harbour gave. One with a fault counts as a fault of the harbour.
    fn back(&mut self, door: Self::Gate)
        requires { FewerBack (told self.old) }
        ensures told { TakesBack (told self.old) (told self.new) door }
        ensures faults { CountsBack (Self.Gate.faults door) (faults self.old) (faults self.new) };

    /// No more doors are back than were given.
    ghost no_more_back: { (harbour : Self) → NoMoreBack (told harbour) };
}
