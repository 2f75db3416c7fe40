//! What a seat sees, and what it hears and tells.

ghost use Rattle.std.specs.Prelude.{◌≡◌, []};
ghost use Rattle.version_store.specs.Growth.{IsPrefix};
ghost use Rattle.version_store.specs.Rule.{note};
ghost use Rattle.version_store.specs.Store.{seat_versions, told_versions, KeepsCounts};

use super::SeatOf;
use crate::known::{Growing, Place};
use crate::name::StoreName;
use crate::plays::{Hear, MakeNote, See};
use tgap_model::Holds;

impl<V: Holds + Drop, N: StoreName> SeatOf<V, N, Growing> {
    /// Sees what is published, and takes the newest version where that is new to the seat. It makes one step on the store's word.
    pub(crate) fn see(&mut self)
        ensures grows { IsPrefix (seat_versions self.old) (seat_versions self.new) }
        ensures told { IsPrefix (told_versions self.old) (seat_versions self.new) }
        ensures same { (told_versions self.new ≡ told_versions self.old) × KeepsCounts self.old self.new }
    {
        let table = &self.table;
        let place = &mut self.place;
        let found = table.shared.load::<See>(place, 0);
        if found > self.count {
            let slot = 16 * (found - 1) + self.index;
            self.newest = table.shared.exchange(place, slot as usize, None).unwrap();
            self.count = found;
        }
    }

    /// Hears of the versions of a note.
    pub(crate) fn hear(&mut self, told: Place<V>)
        requires { (told.table_id ≡ N.store) × (told.me.0.role ≡ 0) × (told.me.1 ≡ []) }
        ensures told { told_versions self.new ≡ told.me.0.list }
        ensures same { (seat_versions self.new ≡ seat_versions self.old) × KeepsCounts self.old self.new }
    {
        let table = &self.table;
        table.shared.join_seat::<Hear>(&mut self.place, told);
    }

    /// A note of the versions that the seat has seen.
    pub(crate) fn tell(&mut self) -> Place<V>
        ensures note { (result.table_id ≡ N.store) × (result.me ≡ (note (seat_versions self.old), [])) }
        ensures same { (seat_versions self.new ≡ seat_versions self.old) × (told_versions self.new ≡ told_versions self.old) × KeepsCounts self.old self.new }
    {
        let table = &self.table;
        table.shared.split_seat::<MakeNote>(&mut self.place)
    }
}
