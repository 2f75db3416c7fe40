//! A store before it is opened under its name.

ghost use Rattle.std.specs.Prelude.{◌≡◌, ◌<◌, ◌≤◌, ◌*◌, [], ◌∷◌};
ghost use Rattle.std.specs.Arc.{arc_value};

use crate::known::{Growing, Known, Place};
use atomic_table::{Table, TableRule};
use std::alloc::Global;
use std::sync::Arc;
use tgap_model::Holds;

mod open;

pub use open::start;

/// A store with its first version, before it is opened under a name.
pub type Fresh<V> = FreshOf<V, Growing>;

/// Such a store under the rule `P`, which is `Growing`.
#[derive(Drop)]
pub struct FreshOf<V: Holds, P: TableRule<Option<Arc<V>>, Known<V>, u64>> {
    table: Arc<Table<Option<Arc<V>>, Known<V>, u64, P, Global>>,
    place: Place<V>,
    first: Arc<V>,
    limit: u64,
    places: u64,
    ghost of_table: { (place.table_id ≡ (arc_value table).shared.table_id) × ((arc_value table).shared.key ≡ limit) },
    ghost sized: { (place.table_id.words ≡ 1) × (place.table_id.slots ≡ 16 * limit) × (0 < limit) × (limit ≤ 64) },
    ghost seated: { (place.me.0.role ≡ 1) × (place.me.0.limit ≡ limit) × (place.me.0.seats ≡ 0) × (0 < places) × (places ≤ 16) },
    ghost resting: { (place.me.0.filled ≡ 16) × (place.me.0.out ≡ 0) × (place.me.1 ≡ []) },
    ghost one: { (place.me.0.list ≡ arc_value first ∷ []) × (V.numbered (arc_value first) ≡ 0) × (place.me.0.publishers ≡ 0 ∷ []) },
}
