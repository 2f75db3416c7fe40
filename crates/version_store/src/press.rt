//! The one writer.

ghost use Rattle.std.specs.Prelude.{◌≡◌, ◌<◌, ◌≤◌, ◌*◌, [], length};
ghost use Rattle.std.specs.Arc.{arc_value};
ghost use Rattle.version_store.specs.Growth.{AreNumbered};
ghost use Rattle.version_store.specs.Publishers.{ArePublishers};
ghost use Rattle.version_store.specs.Folds.{batches_of, FitsTold};

use crate::known::{Growing, Known, Place};
use crate::name::StoreName;
use atomic_table::{Table, TableRule};
use std::alloc::Global;
use std::marker::PhantomData;
use std::sync::Arc;
use tgap_model::{Holds, Keep};

mod attach;
mod fail;
mod made;
mod publish;
mod tell;

pub use fail::PublishFail;

/// The press of the store that `N` names: it publishes versions, and knows the list of all that are published. It holds the keeper `K`
/// of their batches.
pub type Press<V, N, K> = PressOf<V, N, K, Growing>;

/// A press under the rule `P`, which is `Growing`.
#[derive(Drop)]
pub struct PressOf<V: Holds, N: StoreName, K: Keep, P: TableRule<Option<Arc<V>>, Known<V>, u64>> {
    table: Arc<Table<Option<Arc<V>>, Known<V>, u64, P, Global>>,
    place: Place<V>,
    limit: u64,
    count: u64,
    seats: u64,
    keeper: K,
    name: PhantomData<N>,
    ghost of_store: { (place.table_id ≡ N.store) × ((arc_value table).shared.table_id ≡ N.store) × (limit ≡ N.limit) },
    ghost sized: { (N.store.words ≡ 1) × (N.store.slots ≡ 16 * limit) × ((arc_value table).shared.key ≡ limit) × (limit ≤ 64) },
    ghost seated: { (place.me.0.role ≡ 1) × (place.me.0.limit ≡ limit) × (place.me.0.seats ≡ seats) × (0 < seats) × (seats ≤ 16) },
    ghost manned: { seats ≡ N.seats },
    ghost published_by: { ArePublishers seats place.me.0.publishers × (length place.me.0.publishers ≡ count) },
    ghost resting: { (place.me.0.filled ≡ 16 * count) × (place.me.0.out ≡ 0) × (place.me.1 ≡ []) },
    ghost counted: { (length place.me.0.list ≡ count) × (count ≤ limit) × (0 < count) },
    ghost numbered: { AreNumbered V.numbered place.me.0.list },
    ghost kept: { FitsTold (batches_of V.batched place.me.0.list) (K.told keeper) },
}
