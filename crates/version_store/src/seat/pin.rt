//! A seat pins the newest version.

ghost use Rattle.std.specs.Prelude.{◌≡◌, IfOk};
ghost use Rattle.version_store.specs.Growth.{IsPrefix, IsList};
ghost use Rattle.version_store.specs.Store.{seat_versions, told_versions, seat_limit, KeepsCounts, IsLast};

use super::SeatOf;
use crate::known::Growing;
use crate::name::StoreName;
use crate::pin::Pin;
use std::alloc::Global;
use std::sync::Arc;
use tgap_model::{Holds, Memory};

impl<V: Holds + Drop, N: StoreName> SeatOf<V, N, Growing> {
    /// Pins the newest version. It takes no lock, waits for nobody, and makes one step on what is shared.
    ///
    /// The seat's list grows to what is published at that step, also where memory is wanted for one owner more of the version.
    pub fn pin(&mut self, _alloc: Global) -> Result<Pin<V>, Memory>
        // The pin is the last version of the list that the seat has seen then.
        ensures pinned { IfOk result (IsLast V.numbered (seat_versions self.new)) }
        // That list begins with all that the seat had seen before, and with all that it was told of.
        ensures grows { IsPrefix (seat_versions self.old) (seat_versions self.new) }
        ensures told { IsPrefix (told_versions self.old) (seat_versions self.new) }
        // Its versions have the numbers of their places, and are no more than there may be.
        ensures listed { IsList V.numbered (seat_limit self.new) (seat_versions self.new) }
        ensures same { (told_versions self.new ≡ told_versions self.old) × KeepsCounts self.old self.new }
    {
        self.see();
        let held = Arc::try_clone(&self.newest)?;
        Ok(Pin {
            number: self.count - 1,
            held,
        })
    }
}
