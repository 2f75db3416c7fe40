//! The press tells its list to seats, and hears of what they have seen.

ghost use Rattle.std.specs.Prelude.{◌≡◌, ◌<◌, ◌+◌, ◌^◌, ◌≤◌, [], length, slice_index, IfOk, IsOk, OnErr};
ghost use Rattle.version_store.specs.Growth.{IsPrefix, IsList};
ghost use Rattle.version_store.specs.Publishers.{numbers_of, ArePublishers};
ghost use Rattle.version_store.specs.Rule.{note};
ghost use Rattle.version_store.specs.Store.{press_versions, press_limit, press_keeper, press_publishers, press_seats, KeepsPublishers, seat_versions, seat_number, seat_numbers, KeepsPublished, told_versions, seat_limit, published_count, unkept_count, keeper_full_count, tellings, KeepsCounts, raised};

use super::PressOf;
use crate::known::{Growing, Place};
use crate::name::StoreName;
use crate::plays::{Compare, Hear, MakeNote, TakeName};
use crate::seat::Seat;
use std::alloc::Global;
use tgap_model::{Holds, Keep, Memory};

impl<V: Holds + Drop, N: StoreName, K: Keep> PressOf<V, N, K, Growing> {
    /// A note of the published versions.
    fn note(&mut self) -> Place<V>
        ensures note { (result.table_id ≡ N.store) × (result.me ≡ (note (press_versions self.old), [])) }
        ensures same { press_versions self.new ≡ press_versions self.old }
        ensures publishers { KeepsPublishers self.old self.new }
        ensures keeper { press_keeper self.new ≡ press_keeper self.old }
    {
        let table = &self.table;
        table.shared.split_seat::<MakeNote>(&mut self.place)
    }

    /// Hears of the versions of a note. They begin the press's list, since the press alone publishes.
    fn hear(&mut self, told: Place<V>)
        requires { (told.table_id ≡ N.store) × (told.me.0.role ≡ 0) × (told.me.1 ≡ []) }
        ensures front { IsPrefix told.me.0.list (press_versions self.old) }
        ensures same { press_versions self.new ≡ press_versions self.old }
        ensures publishers { KeepsPublishers self.old self.new }
        ensures keeper { press_keeper self.new ≡ press_keeper self.old }
    {
        let table = &self.table;
        let place = &mut self.place;
        table.shared.join_seat::<Hear>(place, told);
        table.shared.load::<Compare>(place, 0);
    }

    /// Takes over the name of a seat: the versions that were published in it are those of which the seat is the publisher.
    fn take_name(&mut self, name: Place<V>)
        requires note { (name.table_id ≡ N.store) × (name.me.0.role ≡ 0) × (name.me.1 ≡ []) }
        requires one { 0 < name.me.0.publisher }
        ensures numbers { name.me.0.numbers ≡ numbers_of name.me.0.publisher (press_publishers self.old) }
        ensures same { press_versions self.new ≡ press_versions self.old }
        ensures publishers { KeepsPublishers self.old self.new }
        ensures keeper { press_keeper self.new ≡ press_keeper self.old }
    {
        let table = &self.table;
        let place = &mut self.place;
        table.shared.join_seat::<TakeName>(place, name);
        table.shared.load::<Compare>(place, 0);
    }

    /// Tells the list to a seat, which has seen all of it then.
    pub(super) fn tell(&mut self, seat: &mut Seat<V, N>)
        ensures same { press_versions self.new ≡ press_versions self.old }
        ensures publishers { KeepsPublishers self.old self.new }
        ensures keeper { press_keeper self.new ≡ press_keeper self.old }
        ensures seen { seat_versions seat.new ≡ press_versions self.old }
        ensures told { told_versions seat.new ≡ press_versions self.old }
        ensures grows { IsPrefix (seat_versions seat.old) (seat_versions seat.new) }
        ensures counts { KeepsCounts seat.old seat.new }
    {
        seat.hear(self.note());
        seat.see();
        self.hear(seat.tell());
    }

    /// Tells the published versions to a seat, and answers the number of the newest. It waits for nobody.
    pub fn newest(&mut self, _alloc: Global, seat: &mut Seat<V, N>) -> Result<u64, Memory>
        // The seat has seen the press's list, whose last number is the answer.
        ensures seen { IfOk result (λ newest. (seat_versions seat.new ≡ press_versions self.new) × (newest + 1 ≡ length (press_versions self.new))) }
        // The count for this number is one more, and no other changes; where it is 2^64 - 1 it stays.
        ensures counted { IfOk result (λ newest. tellings seat.new ≡ raised (tellings seat.old) newest) }
        // That count is one of those that a seat has, and is below 2^64.
        ensures sized { IfOk result (λ newest. (newest < length (tellings seat.old)) × (slice_index (tellings seat.old) newest < 2 ^ 64)) }
        ensures kept { OnErr result (tellings seat.new ≡ tellings seat.old) }
        // It takes no memory.
        ensures taken { IsOk result }
        ensures same { press_versions self.new ≡ press_versions self.old }
        ensures publishers { KeepsPublishers self.old self.new }
        ensures grows { IsPrefix (seat_versions seat.old) (seat_versions seat.new) }
        ensures told { IsPrefix (told_versions seat.new) (seat_versions seat.new) }
        // The list's versions have the numbers of their places, and are no more than there may be.
        ensures listed { IsList V.numbered (press_limit self.new) (press_versions self.new) }
        ensures others { (seat_limit seat.new ≡ seat_limit seat.old) × (published_count seat.new ≡ published_count seat.old) }
        // The keeper, the counts of what it refused and what the seat has published stay.
        ensures keeper { press_keeper self.new ≡ press_keeper self.old }
        ensures refusals { (unkept_count seat.new ≡ unkept_count seat.old) × (keeper_full_count seat.new ≡ keeper_full_count seat.old) }
        ensures numbers { KeepsPublished seat.old seat.new }
    {
        self.tell(seat);
        let newest = self.count - 1;
        seat.count_telling(newest);
        Ok(newest)
    }

    /// Ends a seat. What it has seen begins the press's list. It takes no memory and waits for nobody.
    pub fn gather(&mut self, seat: Seat<V, N>)
        ensures front { IsPrefix (seat_versions seat) (press_versions self.new) }
        // The versions that it has published are those of which it is the publisher.
        ensures numbers { seat_numbers seat ≡ numbers_of (seat_number seat) (press_publishers self.new) }
        // Each version but the first has one of the seats as its publisher.
        ensures each { ArePublishers (press_seats self.new) (press_publishers self.new) }
        ensures even { length (press_publishers self.new) ≡ length (press_versions self.new) }
        ensures same { press_versions self.new ≡ press_versions self.old }
        ensures publishers { KeepsPublishers self.old self.new }
        ensures keeper { press_keeper self.new ≡ press_keeper self.old }
    {
        let mut seat = seat;
        let seen = seat.tell();
        self.hear(seen);
        self.take_name(seat.into_name());
    }
}
