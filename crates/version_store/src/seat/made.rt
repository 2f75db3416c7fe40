//! The press makes seats.

ghost use Rattle.std.specs.Prelude.{◌≡◌, ◌<◌, ◌≤◌, ◌+◌, ◌*◌, ◌^◌, [], ◌∷◌, length, slice_index, IfOk};
ghost use Rattle.std.specs.Arc.{arc_value};
ghost use Rattle.version_store.specs.Rule.{with_seat};
ghost use Rattle.tgap_model.specs.Faults.{Rises};
ghost use Rattle.version_store.specs.Store.{seat_versions, told_versions, seat_limit, published_count, unkept_count, keeper_full_count, tellings, raised, seat_number, IsNewSeat, KeepsPublished};

use super::{Seat, SeatOf};
use crate::known::{Growing, Known, Place};
use crate::name::StoreName;
use crate::plays::MakeSeat;
use atomic_table::Table;
use std::alloc::Global;
use std::marker::PhantomData;
use std::sync::Arc;
use tgap_model::{Holds, Memory};

impl<V: Holds + Drop, N: StoreName> SeatOf<V, N, Growing> {
    /// The next seat, which the press's place makes.
    pub(crate) fn made(
        table: &Arc<Table<Option<Arc<V>>, Known<V>, u64, Growing, Global>>,
        place: &mut Place<V>,
        first: &Arc<V>,
        index: u64,
        limit: u64,
    ) -> Result<Seat<V, N>, Memory>
        requires store { (place.old.table_id ≡ N.store) × ((arc_value table.now).shared.table_id ≡ N.store) × (limit ≡ N.limit) }
        requires sized { (N.store.words ≡ 1) × (N.store.slots ≡ 16 * limit) × ((arc_value table.now).shared.key ≡ limit) × (0 < limit) × (limit ≤ 64) }
        requires press { (place.old.me.0.role ≡ 1) × (place.old.me.0.limit ≡ limit) × (place.old.me.0.seats ≡ index) × (index < 16) }
        requires one { (place.old.me.0.list ≡ arc_value first.now ∷ []) × (V.numbered (arc_value first.now) ≡ 0) }
        requires nobody { place.old.me.0.publishers ≡ 0 ∷ [] }
        ensures new { IfOk result (IsNewSeat (arc_value first.now) limit) }
        ensures number { IfOk result (λ seat. seat_number seat ≡ index + 1) }
        ensures press { IfOk result (λ _. (place.new.table_id ≡ place.old.table_id) × (place.new.me ≡ (with_seat place.old.me.0, place.old.me.1))) }
    {
        let table = Arc::try_clone(table)?;
        let newest = Arc::try_clone(first)?;
        let place = table.shared.split_seat::<MakeSeat>(place);
        Ok(SeatOf {
            table,
            place,
            index,
            limit,
            count: 1,
            newest,
            published: 0,
            unkept: 0,
            keeper_full: 0,
            tellings: [0; 64],
            name: PhantomData,
        })
    }

    /// Counts a telling that ended at this number.
    pub(crate) fn count_telling(&mut self, number: u64)
        requires { number < 64 }
        ensures counted { tellings self.new ≡ raised (tellings self.old) number }
        ensures sized { (number < length (tellings self.old)) × (slice_index (tellings self.old) number < 2 ^ 64) }
        ensures same { (seat_versions self.new ≡ seat_versions self.old) × (told_versions self.new ≡ told_versions self.old) × (seat_limit self.new ≡ seat_limit self.old) × (published_count self.new ≡ published_count self.old) }
        ensures others { (unkept_count self.new ≡ unkept_count self.old) × (keeper_full_count self.new ≡ keeper_full_count self.old) }
        ensures numbers { KeepsPublished self.old self.new }
    {
        let told = &mut self.tellings[number as usize];
        *told = told.saturating_add(1);
    }

    /// Counts a version that the seat has published.
    pub(crate) fn count_published(&mut self)
        requires { published_count self.old + 1 < length (seat_versions self.old) }
        ensures counted { published_count self.new ≡ published_count self.old + 1 }
        ensures same { (seat_versions self.new ≡ seat_versions self.old) × (told_versions self.new ≡ told_versions self.old) × (seat_limit self.new ≡ seat_limit self.old) × (tellings self.new ≡ tellings self.old) }
        ensures others { (unkept_count self.new ≡ unkept_count self.old) × (keeper_full_count self.new ≡ keeper_full_count self.old) }
        ensures numbers { KeepsPublished self.old self.new }
    {
        self.published += 1;
    }

    /// Counts a version of the seat whose batch the keeper failed to keep.
    pub(crate) fn count_unkept(&mut self)
        ensures counted { Rises (unkept_count self.old) (unkept_count self.new) }
        ensures same { (seat_versions self.new ≡ seat_versions self.old) × (told_versions self.new ≡ told_versions self.old) × (seat_limit self.new ≡ seat_limit self.old) × (tellings self.new ≡ tellings self.old) }
        ensures others { (published_count self.new ≡ published_count self.old) × (keeper_full_count self.new ≡ keeper_full_count self.old) }
        ensures numbers { KeepsPublished self.old self.new }
    {
        self.unkept = self.unkept.saturating_add(1);
    }

    /// Counts a version of the seat for whose batch the keeper had no room.
    pub(crate) fn count_keeper_full(&mut self)
        ensures counted { Rises (keeper_full_count self.old) (keeper_full_count self.new) }
        ensures same { (seat_versions self.new ≡ seat_versions self.old) × (told_versions self.new ≡ told_versions self.old) × (seat_limit self.new ≡ seat_limit self.old) × (tellings self.new ≡ tellings self.old) }
        ensures others { (published_count self.new ≡ published_count self.old) × (unkept_count self.new ≡ unkept_count self.old) }
        ensures numbers { KeepsPublished self.old self.new }
    {
        self.keeper_full = self.keeper_full.saturating_add(1);
    }
}
