//! The press publishes a version.

ghost use Rattle.std.specs.Prelude.{◌≡◌, ◌≢◌, ◌<◌, ◌+◌, ◌*◌, ◌++◌, ℕ, [], ◌∷◌, length, vec_len, None, Some, Err, IfOk, IfErr, OnOk, OnErr, MatchOption, ◌↔◌};
ghost use Rattle.std.specs.Arc.{arc_value};
ghost use Rattle.tgap_model.specs.Faults.{Rose};
ghost use Rattle.tgap_model.specs.Keeping.{CountsKeep, Keeps};
ghost use Rattle.version_store.specs.declared.press.fail.PublishFail.TheVariants.{Stale, VersionsFull, KeeperFull, Memory as WantOfMemory};
ghost use Rattle.version_store.specs.Growth.{IsPrefix, IsList};
ghost use Rattle.version_store.specs.Folds.{batches_of, FitsTold};
ghost use Rattle.version_store.specs.Keepers.{ComesOfList, LeavesKeeper, PublishKeeps, CountsFault, CountsUnkept, CountsKeeperFull};
ghost use Rattle.version_store.specs.Store.{press_versions, press_limit, press_keeper, press_publishers, press_seats, KeepsPublishers, seat_versions, seat_limit, seat_number, seat_numbers, published_count, unkept_count, keeper_full_count, tellings, KeepsCounts};
ghost use Rattle.version_store.specs.Rule.{AreOwners};

use super::{PressOf, PublishFail};
use crate::known::Growing;
use crate::name::StoreName;
use crate::seat::Seat;
use crate::shelf::owners;
use std::alloc::Global;
use std::sync::{Arc, Wait};
use tgap_model::{Holds, Keep, KeepFail};

impl<V: Holds + Drop, N: StoreName, K: Keep> PressOf<V, N, K, Growing> {
    ghost use Rattle.tgap_model.specs.declared.keep.KeepFail.TheVariants.{Full as IsFull};

    /// Appends a version in the name of a seat. There is an owner of it for each seat.
    fn append(&mut self, seat: &mut Seat<V, N>, version: &V, owners: Vec<Arc<V>>)
        requires owners { AreOwners version.now owners.items }
        requires places { vec_len owners ≡ self.old.seats }
        requires some { 0 < self.old.seats }
        requires room { length (press_versions self.old) < press_limit self.old }
        requires number { V.numbered version.now ≡ length (press_versions self.old) }
        requires kept { FitsTold (batches_of V.batched (press_versions self.old ++ version.now ∷ [])) (K.told (press_keeper self.old)) }
        ensures appended { press_versions self.new ≡ press_versions self.old ++ version.now ∷ [] }
        ensures publisher { press_publishers self.new ≡ press_publishers self.old ++ seat_number seat.old ∷ [] }
        ensures seats { press_seats self.new ≡ press_seats self.old }
        ensures keeper { press_keeper self.new ≡ press_keeper self.old }
        ensures numbers { seat_numbers seat.new ≡ seat_numbers seat.old ++ length (press_versions self.old) ∷ [] }
        ensures seen { (seat_versions seat.new ≡ seat_versions seat.old) × (seat_limit seat.new ≡ seat_limit seat.old) × (seat_number seat.new ≡ seat_number seat.old) }
        ensures counts { (published_count seat.new ≡ published_count seat.old) × (tellings seat.new ≡ tellings seat.old) × (unkept_count seat.new ≡ unkept_count seat.old) × (keeper_full_count seat.new ≡ keeper_full_count seat.old) }
    {
        seat.publish_by(&mut self.place, version, self.count, owners);
        self.count += 1;
    }

    /// Keeps the batch of the version that is to be the next one.
    fn keep(&mut self, alloc: Global, number: u64, version: &V) -> Result<(), KeepFail>
        requires number { number ≡ length (press_versions self.old) }
        ensures same { press_versions self.new ≡ press_versions self.old }
        ensures publishers { KeepsPublishers self.old self.new }
        ensures limit { K.limit (press_keeper self.new) ≡ K.limit (press_keeper self.old) }
        ensures faults { CountsKeep result (K.faults (press_keeper self.old)) (K.faults (press_keeper self.new)) }
        ensures full { (most : ℕ) → result ≡ Err (IsFull most) → K.limit (press_keeper self.old) ≡ Some most }
        ensures kept { MatchOption (K.told (press_keeper self.old)) (K.told (press_keeper self.new) ≡ None)
            (λ before. Keeps (K.limit (press_keeper self.old)) before (K.told (press_keeper self.new))
            (record { number = number; batch = V.batched version.now }) result) }
        ensures fits { OnOk result (FitsTold (batches_of V.batched (press_versions self.old ++ version.now ∷ [])) (K.told (press_keeper self.new))) }
    {
        let batch = version.batch();
        self.keeper.keep(alloc, number, batch)
    }

    /// Whether a version that is made from the version `named` would be published now. It tells the published versions to the seat,
    /// takes no memory and waits for nobody.
    ///
    /// It refuses as `publish` does, a stale version first, and then one for which there is no room. What it allows may yet be refused,
    /// where others publish before.
    pub fn ready(&mut self, seat: &mut Seat<V, N>, named: u64) -> Result<(), PublishFail>
        requires named { named < length (seat_versions seat.old) }
        // The list stays, and the seat has seen it.
        ensures same { press_versions self.new ≡ press_versions self.old }
        ensures publishers { KeepsPublishers self.old self.new }
        ensures seen { seat_versions seat.new ≡ press_versions self.old }
        ensures front { IsPrefix (seat_versions seat.old) (press_versions self.old) }
        ensures grows { IsPrefix (seat_versions seat.old) (seat_versions seat.new) }
        // `named` is the newest version and there is room for one more, or which of both does not hold.
        ensures newest { OnOk result (named + 1 ≡ length (press_versions self.old)) }
        ensures room { OnOk result (length (press_versions self.old) < press_limit self.old) }
        ensures stale { (newest : ℕ) → (result ≡ Err (Stale newest)) ↔ ((named < newest) × (newest + 1 ≡ length (press_versions self.old))) }
        ensures full { (limit : ℕ) → (result ≡ Err (VersionsFull limit)) ↔ ((named + 1 ≡ length (press_versions self.old)) × (length (press_versions self.old) ≡ press_limit self.old) × (limit ≡ press_limit self.old)) }
        ensures taken { result ≢ Err WantOfMemory }
        // The keeper is not asked, and stays.
        ensures cause { IfErr result ComesOfList }
        ensures keeper { press_keeper self.new ≡ press_keeper self.old }
        // The store has one limit, which stays, as the counts do.
        ensures limited { (press_limit self.new ≡ press_limit self.old) × (press_limit self.new ≡ seat_limit seat.new) × (press_limit self.new ≡ N.limit) }
        ensures counts { KeepsCounts seat.old seat.new }
    {
        self.tell(seat);
        let newest = self.count - 1;
        if named < newest {
            return Err(PublishFail::Stale { newest });
        }
        if self.count == self.limit {
            return Err(PublishFail::VersionsFull { limit: self.limit });
        }
        Ok(())
    }

    /// Publishes a version that was made from the version `named`, where that is the newest.
    ///
    /// It refuses a stale version first, then one for which there is no room, and then one whose batch the keeper does not keep. All
    /// other memory is taken before the batch is kept, so that nothing is wanting afterwards. A refusal leaves the list and drops the version.
    /// It waits for no reader: `_rt` allows a store to wait here, and this one does not. It takes as long as its keeper does to keep the
    /// batch, and who waits for the press waits as long; a seat pins all the same.
    pub fn publish<R: Wait>(
        &mut self,
        _rt: &R,
        alloc: Global,
        seat: &mut Seat<V, N>,
        named: u64,
        next: Arc<V>,
    ) -> Result<u64, PublishFail>
        requires named { named < length (seat_versions seat.old) }
        requires next { V.numbered (arc_value next) ≡ named + 1 }
        // The list grows by this version, which the answer numbers; the seat has seen that list, and has published one version more.
        ensures appended { OnOk result (press_versions self.new ≡ press_versions self.old ++ arc_value next ∷ []) }
        ensures answered { IfOk result (λ number. number ≡ named + 1) }
        ensures seen { OnOk result (seat_versions seat.new ≡ press_versions self.new) }
        ensures counted { OnOk result (published_count seat.new ≡ published_count seat.old + 1) }
        // The seat is the version's publisher: the press notes its number, and the seat that of the version. A refusal leaves both.
        ensures publisher { OnOk result (press_publishers self.new ≡ press_publishers self.old ++ seat_number seat.old ∷ []) }
        ensures numbers { OnOk result (seat_numbers seat.new ≡ seat_numbers seat.old ++ (named + 1) ∷ []) }
        ensures none { OnErr result ((press_publishers self.new ≡ press_publishers self.old) × (seat_numbers seat.new ≡ seat_numbers seat.old)) }
        ensures seats { (press_seats self.new ≡ press_seats self.old) × (seat_number seat.new ≡ seat_number seat.old) }
        // What the seat had seen begins the list before.
        ensures front { IsPrefix (seat_versions seat.old) (press_versions self.old) }
        ensures grows { IsPrefix (seat_versions seat.old) (seat_versions seat.new) }
        // It is stale exactly where a version above `named` is published; the newest, which the answer names, is then the last that the seat
        // has seen.
        ensures stale { (newest : ℕ) → (result ≡ Err (Stale newest)) ↔ ((named < newest) × (newest + 1 ≡ length (press_versions self.old))) }
        ensures newest { (newest : ℕ) → result ≡ Err (Stale newest) → seat_versions seat.new ≡ press_versions self.old }
        // There is no room exactly where it is not stale and as many versions are published as there may be.
        ensures full { (limit : ℕ) → (result ≡ Err (VersionsFull limit)) ↔ ((named + 1 ≡ length (press_versions self.old)) × (length (press_versions self.old) ≡ press_limit self.old) × (limit ≡ press_limit self.old)) }
        // The versions of both lists have the numbers of their places, and are no more than there may be. The store has one limit.
        ensures listed { IsList V.numbered (press_limit self.new) (press_versions self.new) }
        ensures limited { (press_limit self.new ≡ seat_limit seat.new) × (press_limit self.new ≡ N.limit) }
        // A refusal leaves the list and the count. The limit and the counts of tellings stay.
        ensures kept { OnErr result ((press_versions self.new ≡ press_versions self.old) × (published_count seat.new ≡ published_count seat.old)) }
        ensures others { (seat_limit seat.new ≡ seat_limit seat.old) × (tellings seat.new ≡ tellings seat.old) }
        // Where it is told what is kept: the batch is kept where the answer is Ok, and was not in doubt, and what is kept at each refusal; when
        // the keeper has no room.
        ensures batch { MatchOption (K.told (press_keeper self.old)) (K.told (press_keeper self.new) ≡ None)
            (λ before. PublishKeeps (K.limit (press_keeper self.old)) before (K.told (press_keeper self.new))
            (record { number = named + 1; batch = V.batched (arc_value next) }) result) }
        // A keeper that is full has a limit, which the answer tells and which stays.
        ensures keeper_full { (most : ℕ) → result ≡ Err (KeeperFull most) → K.limit (press_keeper self.old) ≡ Some most }
        ensures keeper_limit { K.limit (press_keeper self.new) ≡ K.limit (press_keeper self.old) }
        // Unkept comes only where the keeper's count of faults rose, and else that count stays. The keeper is not asked before the list is.
        ensures faults { CountsFault (K.faults (press_keeper self.old)) (K.faults (press_keeper self.new)) result }
        ensures unasked { LeavesKeeper (press_keeper self.old) (press_keeper self.new) result }
        // The seat counts what the keeper failed to keep, and for what it had no room.
        ensures unkept { CountsUnkept (unkept_count seat.old) (unkept_count seat.new) result }
        ensures without_room { CountsKeeperFull (keeper_full_count seat.old) (keeper_full_count seat.new) result }
    {
        self.ready(seat, named)?;
        let owners = owners(alloc, &next, self.seats as usize)?;
        match self.keep(alloc, named + 1, &*next) {
            Ok(()) => {
                self.append(seat, &*next, owners);
                self.tell(seat);
                seat.count_published();
                Ok(named + 1)
            }
            Err(KeepFail::Failed) => {
                seat.count_unkept();
                Err(PublishFail::Unkept)
            }
            Err(KeepFail::Full { limit }) => {
                seat.count_keeper_full();
                Err(PublishFail::KeeperFull { limit })
            }
            Err(KeepFail::Memory) => Err(PublishFail::Memory),
        }
    }
}
