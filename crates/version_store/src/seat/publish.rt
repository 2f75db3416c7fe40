//! A version is published in a seat's name.

ghost use Rattle.std.specs.Prelude.{◌≡◌, ◌<◌, ◌≤◌, ◌+◌, ◌*◌, ◌++◌, [], ◌∷◌, length, vec_len};
ghost use Rattle.version_store.specs.Rule.{AreOwners, published_by};
ghost use Rattle.version_store.specs.Steps.{IsFree, IsOn};
ghost use Rattle.version_store.specs.Store.{seat_versions, told_versions, seat_limit, seat_number, seat_numbers, published_count, unkept_count, keeper_full_count, tellings};

use super::SeatOf;
use crate::known::{Growing, Place};
use crate::name::StoreName;
use crate::plays::LendName;
use crate::shelf::{fill_all, lend_name, raise};
use std::sync::Arc;
use tgap_model::Holds;

impl<V: Holds + Drop, N: StoreName> SeatOf<V, N, Growing> {
    /// Publishes a version in the seat's name, by the place of the press, after `count` versions.
    pub(crate) fn publish_by(
        &mut self,
        place: &mut Place<V>,
        version: &V,
        count: u64,
        owners: Vec<Arc<V>>,
    )
        requires on { IsOn N.store (seat_limit self.old) place.old }
        requires press { IsFree place.old.me }
        requires count { (count ≡ length place.old.me.0.list) × (count < seat_limit self.old) × (place.old.me.0.filled ≡ 16 * count) }
        requires owners { AreOwners version.now owners.items × (vec_len owners ≡ place.old.me.0.seats) × (0 < vec_len owners) × (vec_len owners ≤ 16) }
        requires number { V.numbered version.now ≡ count }
        ensures on { IsOn N.store (seat_limit self.old) place.new }
        ensures published { place.new.me ≡ (published_by place.old.me.0 (seat_number self.old) (count + 1) version.now, []) }
        ensures one { seat_number self.old ≤ place.old.me.0.seats }
        ensures numbers { seat_numbers self.new ≡ seat_numbers self.old ++ count ∷ [] }
        ensures same { (seat_versions self.new ≡ seat_versions self.old) × (told_versions self.new ≡ told_versions self.old) × (seat_limit self.new ≡ seat_limit self.old) × (seat_number self.new ≡ seat_number self.old) }
        ensures counts { (published_count self.new ≡ published_count self.old) × (tellings self.new ≡ tellings self.old) × (unkept_count self.new ≡ unkept_count self.old) × (keeper_full_count self.new ≡ keeper_full_count self.old) }
    {
        let shelf = &self.table.shared;
        let own = &mut self.place;
        lend_name(shelf, own, place);
        fill_all(shelf, place, version, 16 * count as usize, owners);
        raise(shelf, place, version, count + 1);
        lend_name(shelf, place, own);
    }

    /// Ends the seat: what is left is a note by which its name is handed over.
    pub(crate) fn into_name(self) -> Place<V>
        ensures on { result.table_id ≡ N.store }
        ensures note { (result.me.0.role ≡ 0) × (result.me.1 ≡ []) }
        ensures name { (result.me.0.publisher ≡ seat_number self) × (result.me.0.numbers ≡ seat_numbers self) }
    {
        let SeatOf {
            table,
            mut place,
            index: _,
            limit: _,
            count: _,
            newest: _,
            published: _,
            unkept: _,
            keeper_full: _,
            tellings: _,
            name: _,
        } = self;
        table.shared.split_seat::<LendName>(&mut place)
    }
}
