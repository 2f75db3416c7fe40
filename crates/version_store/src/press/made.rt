//! The press of an opened store.

ghost use Rattle.std.specs.Prelude.{◌≡◌, ◌<◌, ◌≤◌, ◌*◌, [], ◌∷◌, length};
ghost use Rattle.std.specs.Arc.{arc_value};
ghost use Rattle.version_store.specs.Growth.{AreNumbered};
ghost use Rattle.version_store.specs.Store.{press_versions, press_limit, press_publishers, press_seats};

use super::{Press, PressOf};
use crate::known::{Growing, Known, Place};
use crate::name::StoreName;
use atomic_table::Table;
use std::alloc::Global;
use std::marker::PhantomData;
use std::sync::Arc;
use tgap_model::{Holds, NoKeeper};

impl<V: Holds + Drop, N: StoreName> PressOf<V, N, NoKeeper, Growing> {
    /// The press whose place has made this many seats, when the first version alone is published.
    pub(crate) fn over(
        table: Arc<Table<Option<Arc<V>>, Known<V>, u64, Growing, Global>>,
        place: Place<V>,
        limit: u64,
        seats: u64,
    ) -> Press<V, N, NoKeeper>
        requires store { (place.table_id ≡ N.store) × ((arc_value table).shared.table_id ≡ N.store) × (limit ≡ N.limit) }
        requires sized { (N.store.words ≡ 1) × (N.store.slots ≡ 16 * limit) × ((arc_value table).shared.key ≡ limit) × (0 < limit) × (limit ≤ 64) }
        requires press { (place.me.0.role ≡ 1) × (place.me.0.limit ≡ limit) × (place.me.0.seats ≡ seats) × (0 < seats) × (seats ≤ 16) }
        requires resting { (place.me.0.filled ≡ 16) × (place.me.0.out ≡ 0) × (place.me.1 ≡ []) }
        requires one { (length place.me.0.list ≡ 1) × AreNumbered V.numbered place.me.0.list }
        requires manned { seats ≡ N.seats }
        requires nobody { place.me.0.publishers ≡ 0 ∷ [] }
        ensures over { (press_versions result ≡ place.me.0.list) × (press_limit result ≡ limit) }
        ensures publishers { (press_publishers result ≡ 0 ∷ []) × (press_seats result ≡ seats) }
    {
        PressOf {
            table,
            place,
            limit,
            count: 1,
            seats,
            keeper: NoKeeper,
            name: PhantomData,
        }
    }
}
