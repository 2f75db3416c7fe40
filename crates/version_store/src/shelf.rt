//! How the press fills slots and publishes.

ghost use Rattle.std.specs.Prelude.{◌≡◌, ◌<◌, ◌≤◌, ◌+◌, ◌*◌, [], ◌∷◌, length, vec_len, IfOk};
ghost use Rattle.std.specs.Arc.{arc_value};
ghost use Rattle.version_store.specs.Rule.{AreOwners, filling, with_version, without_name, with_name};
ghost use Rattle.version_store.specs.Steps.{IsFree, IsOn};

use crate::known::{Growing, Known, Place};
use crate::plays::{Lay, LendName, Lift, Raise, TakeName};
use atomic_table::Shared;
use std::alloc::Global;
use std::sync::Arc;
use tgap_model::{Holds, Memory};

/// What the press and the seats share: the number of published versions, and 16 slots for each version.
pub(crate) type Shelf<V> = Shared<Option<Arc<V>>, Known<V>, u64, Growing>;

/// So many owners of a version.
pub(crate) fn owners<V: Drop>(
    alloc: Global,
    version: &Arc<V>,
    count: usize,
) -> Result<Vec<Arc<V>>, Memory>
    ensures { IfOk result (λ owners. AreOwners (arc_value version.now) owners.items × (vec_len owners ≡ count)) }
{
    let mut owners = Vec::with_capacity(alloc, count)?;
    for _ in 0..count {
        owners.push_reserved(Arc::try_clone(version)?);
    }
    Ok(owners)
}

/// Fills the first slot that is not filled.
pub(crate) fn fill<V: Holds + Drop>(
    shelf: &Shelf<V>,
    place: &mut Place<V>,
    slot: usize,
    owner: Arc<V>,
)
    requires on { IsOn shelf.now.table_id shelf.now.key place.old }
    requires press { IsFree place.old.me }
    requires slot { (slot ≡ place.old.me.0.filled) × (slot < 16 * length place.old.me.0.list + 16) × (slot < 16 * shelf.now.key) }
    requires next { 16 * length place.old.me.0.list < slot → place.old.me.0.next ≡ arc_value owner ∷ [] }
    ensures on { IsOn shelf.now.table_id shelf.now.key place.new }
    ensures filled { place.new.me ≡ (filling place.old.me.0 (slot + 1) (arc_value owner), []) }
{
    shelf.load::<Lift>(place, 0);
    drop(shelf.exchange(place, slot, Some(owner)));
    shelf.load::<Lay>(place, 0);
}

/// Fills slots from this one on, one for each owner of the version.
pub(crate) fn fill_all<V: Holds + Drop>(
    shelf: &Shelf<V>,
    place: &mut Place<V>,
    version: &V,
    first: usize,
    owners: Vec<Arc<V>>,
)
    requires on { IsOn shelf.now.table_id shelf.now.key place.old }
    requires press { IsFree place.old.me }
    requires first { (first ≡ place.old.me.0.filled) × (first ≡ 16 * length place.old.me.0.list) × (first < 16 * shelf.now.key) × (shelf.now.key ≤ 64) }
    requires owners { AreOwners version.now owners.items × (0 < vec_len owners) × (vec_len owners ≤ 16) }
    ensures on { IsOn shelf.now.table_id shelf.now.key place.new }
    ensures filled { place.new.me ≡ (filling place.old.me.0 (first + vec_len owners) version.now, []) }
{
    let mut slot = first;
    for owner in owners {
        fill(shelf, place, slot, owner);
        slot += 1;
    }
}

/// Publishes the version with which the slots of all seats are filled, as the last of so many.
pub(crate) fn raise<V: Holds>(shelf: &Shelf<V>, place: &mut Place<V>, version: &V, count: u64)
    requires on { IsOn shelf.now.table_id shelf.now.key place.old }
    requires press { IsFree place.old.me }
    requires next { place.old.me.0.next ≡ version.now ∷ [] }
    requires filled { (16 * length place.old.me.0.list + place.old.me.0.seats ≤ place.old.me.0.filled) × (place.old.me.0.filled ≤ 16 * count) }
    requires count { (count ≡ length place.old.me.0.list + 1) × (count ≤ shelf.now.key) }
    requires number { V.numbered version.now ≡ length place.old.me.0.list }
    ensures on { IsOn shelf.now.table_id shelf.now.key place.new }
    ensures published { place.new.me ≡ (with_version place.old.me.0 count version.now, []) }
    // If that is in the name of a seat, it is one of those that the press has made.
    ensures seat { place.old.me.0.publisher ≤ place.old.me.0.seats }
{
    shelf.store::<Raise>(place, 0, count);
}

/// Hands the name in which a place publishes over to another place.
pub(crate) fn lend_name<V: Holds>(shelf: &Shelf<V>, from: &mut Place<V>, to: &mut Place<V>)
    requires from { IsOn shelf.now.table_id shelf.now.key from.old }
    requires to { IsOn shelf.now.table_id shelf.now.key to.old }
    ensures from { IsOn shelf.now.table_id shelf.now.key from.new }
    ensures to { IsOn shelf.now.table_id shelf.now.key to.new }
    ensures lent { from.new.me ≡ (without_name from.old.me.0, from.old.me.1) }
    ensures taken { to.new.me ≡ (with_name to.old.me.0 from.old.me.0, to.old.me.1) }
{
    let name = shelf.split_seat::<LendName>(from);
    shelf.join_seat::<TakeName>(to, name);
}
