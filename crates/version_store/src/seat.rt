//! A worker's place as a reader.

ghost use Rattle.std.specs.Prelude.{◌≡◌, ◌<◌, ◌≤◌, ◌+◌, ◌-◌, ◌*◌, length, Some, slice_get};
ghost use Rattle.std.specs.Arc.{arc_value};
ghost use Rattle.version_store.specs.Growth.{AreNumbered};

use crate::known::{Growing, Known, Place};
use crate::name::StoreName;
use atomic_table::{Table, TableRule};
use std::alloc::Global;
use std::marker::PhantomData;
use std::sync::Arc;
use tgap_model::Holds;

mod looks;
mod made;
mod pin;
mod publish;

/// A seat of the store that `N` names: it has seen a list of versions, and holds the newest of them.
pub type Seat<V, N> = SeatOf<V, N, Growing>;

/// A seat under the rule `P`, which is `Growing`.
#[derive(Drop)]
pub struct SeatOf<V: Holds, N: StoreName, P: TableRule<Option<Arc<V>>, Known<V>, u64>> {
    table: Arc<Table<Option<Arc<V>>, Known<V>, u64, P, Global>>,
    place: Place<V>,
    index: u64,
    limit: u64,
    count: u64,
    newest: Arc<V>,
    published: u64,
    unkept: u64,
    keeper_full: u64,
    tellings: [u64; 64],
    name: PhantomData<N>,
    ghost of_store: { (place.table_id ≡ N.store) × ((arc_value table).shared.table_id ≡ N.store) × (limit ≡ N.limit) },
    ghost sized: { (N.store.words ≡ 1) × (N.store.slots ≡ 16 * limit) × ((arc_value table).shared.key ≡ limit) × (limit ≤ 64) },
    ghost seated: { (place.me.0.role ≡ index + 2) × (place.me.0.limit ≡ limit) × (index < 16) },
    ghost called: { place.me.0.publisher ≡ index + 1 },
    ghost counted: { (length place.me.0.list ≡ count) × (count ≤ limit) × (published < count) },
    ghost newest_is: { slice_get place.me.0.list (count - 1) ≡ Some (arc_value newest) },
    ghost numbered: { AreNumbered V.numbered place.me.0.list },
}
