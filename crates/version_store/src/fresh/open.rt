//! A store is made, and opened under a name.

ghost use Rattle.std.specs.Prelude.{◌≡◌, ◌<◌, ◌≤◌, ◌*◌, [], ◌∷◌, length, All, IfOk};
ghost use Rattle.std.specs.Arc.{arc_value};
ghost use Rattle.version_store.specs.Growth.{IsList};
ghost use Rattle.version_store.specs.Store.{fresh_store, fresh_first, fresh_limit, fresh_places, press_versions, press_limit, press_publishers, press_seats, IsNewSeat, AreSeatsFrom};

use super::{Fresh, FreshOf};
use crate::known::Growing;
use crate::name::StoreName;
use crate::press::Press;
use crate::seat::Seat;
use crate::shelf::{fill, raise};
use atomic_table::Table;
use std::alloc::Global;
use std::sync::{Arc, Wait};
use tgap_model::{Holds, Memory, NoKeeper};

/// Makes a store of which `first` is the only version, for at most `limit` versions in all and for as many seats as `places`.
pub fn start<V: Holds + Drop>(
    alloc: Global,
    first: Arc<V>,
    limit: u64,
    places: u32,
) -> Result<Fresh<V>, Memory>
    requires first { V.numbered (arc_value first) ≡ 0 }
    requires some { 1 ≤ limit }
    requires limit { limit ≤ 64 }
    requires place { 1 ≤ places }
    requires places { places ≤ 16 }
    ensures first { IfOk result (λ store. fresh_first store ≡ arc_value first) }
    ensures limit { IfOk result (λ store. fresh_limit store ≡ limit) }
    ensures places { IfOk result (λ store. fresh_places store ≡ places) }
{
    let owner = Arc::try_clone(&first)?;
    let (table, mut place) = Table::vacant(alloc, &[0], 16 * limit as usize, &limit)?;
    let table = Arc::new(alloc, table)?;
    let shared = &table.shared;
    fill(shared, &mut place, 0, owner);
    raise(shared, &mut place, &*first, 1);
    Ok(FreshOf {
        table,
        place,
        first,
        limit,
        places: places as u64,
    })
}

impl<V: Holds + Drop> FreshOf<V, Growing> {
    /// Opens the store under its name: the press, which has no keeper, and a seat for each place. On want of memory the store is dropped.
    ///
    /// `N` is a parameter of the caller, and who calls that one gives `std::marker::Brand` for it, with the ghosts of this store.
    pub fn open<N: StoreName, R: Wait>(
        self,
        _rt: &R,
        alloc: Global,
    ) -> Result<(Press<V, N, NoKeeper>, Vec<Seat<V, N>>), Memory>
        requires store { fresh_store self ≡ N.store }
        requires limit { fresh_limit self ≡ N.limit }
        requires seats { fresh_places self ≡ N.seats }
        // The press's list is the first version alone.
        ensures press { IfOk result (λ opened. press_versions opened.0 ≡ fresh_first self ∷ []) }
        ensures limit { IfOk result (λ opened. press_limit opened.0 ≡ fresh_limit self) }
        ensures listed { IfOk result (λ opened. IsList V.numbered (press_limit opened.0) (press_versions opened.0)) }
        // So is the list of each seat, which has published none and was told nothing. There are as many as places.
        ensures seats { IfOk result (λ opened. All (IsNewSeat (fresh_first self) (fresh_limit self)) opened.1.items) }
        ensures places { IfOk result (λ opened. length opened.1.items ≡ fresh_places self) }
        // The seats have the numbers from 1 on, in their order; the press knows how many there are. Nobody has published the first version.
        ensures numbers { IfOk result (λ opened. AreSeatsFrom 1 opened.1.items) }
        ensures known { IfOk result (λ opened. (press_seats opened.0 ≡ fresh_places self) × (press_publishers opened.0 ≡ 0 ∷ [])) }
    {
        let FreshOf {
            table,
            mut place,
            first,
            limit,
            places,
        } = self;
        let mut seats = Vec::with_capacity(alloc, places as usize)?;
        for index in 0..places {
            seats.push_reserved(Seat::made(&table, &mut place, &first, index, limit)?);
        }
        Ok((Press::over(table, place, limit, places), seats))
    }
}
