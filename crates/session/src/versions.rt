//! The versions of a map, as a connection sees them.

ghost use Rattle.std.specs.Prelude.{◌≡◌, ◌<◌, ◌≤◌, ◌+◌, ℕ, length, slice_get, Some, Err, IfOk, IfErr, OnOk};
ghost use Rattle.std.specs.Arc.{arc_value};
ghost use Rattle.tgap_model.specs.Faults.{Rose};
ghost use Rattle.session.specs.Turns.{CountsPublish};
ghost use Rattle.session.specs.Versions.{Seen, Continues, SameCounts, IsPin};
ghost use Rattle.version_store.specs.Keepers.{ComesOfList};
ghost use Rattle.version_store.specs.declared.press.fail.PublishFail.TheVariants.{Stale, VersionsFull};

use map_version::Version;
use std::alloc::Global;
use std::sync::{Arc, Wait};
use tgap_model::Memory;
use version_store::{Pin, PublishFail};

/// The versions of a map, of which others may publish more.
pub(crate) trait Versions<P> {
    /// What is seen of them.
    ghost seen: { Self → Seen };

    /// Pins the newest version that is seen.
    fn pin(&mut self, alloc: Global) -> Result<Pin<Version>, Memory>
        ensures pin { IfOk result (IsPin (seen self.new).history) }
        ensures newest { IfOk result (λ pin. pin.number + 1 ≡ length (seen self.new).history) }
        ensures continues { Continues (seen self.old) (seen self.new) }
        ensures counts { SameCounts (seen self.old) (seen self.new) };

    /// The number of the newest version, as the press tells it.
    fn newest<R: Wait>(&mut self, rt: &R, alloc: Global, press: &P) -> Result<u64, Memory>
        ensures newest { IfOk result (λ n. n + 1 ≡ length (seen self.new).history) }
        ensures told { IfOk result (λ n. Rose ((seen self.old).tellings n) ((seen self.new).tellings n)) }
        ensures continues { Continues (seen self.old) (seen self.new) }
        ensures counts { SameCounts (seen self.old) (seen self.new) };

    /// Whether a version that is made of the one of this number would be published now, as the press tells it.
    fn ready<R: Wait>(&mut self, rt: &R, press: &P, named: u64) -> Result<(), PublishFail>
        requires named { named < length (seen self.old).history }
        ensures stale { (newest : ℕ) → result ≡ Err (Stale newest)
            → (named < newest) × (newest + 1 ≡ length (seen self.new).history) }
        ensures full { (limit : ℕ) → result ≡ Err (VersionsFull limit) → (limit ≡ (seen self.new).limit) × (limit ≡ named + 1) }
        ensures cause { IfErr result ComesOfList }
        ensures continues { Continues (seen self.old) (seen self.new) }
        ensures counts { SameCounts (seen self.old) (seen self.new) };

    /// Publishes a version that was made of the one of this number.
    fn publish<R: Wait>(
        &mut self,
        rt: &R,
        alloc: Global,
        press: &P,
        named: u64,
        next: Arc<Version>,
    ) -> Result<u64, PublishFail>
        requires named { named < length (seen self.old).history }
        requires number { (arc_value next).number ≡ named + 1 }
        ensures answer { IfOk result (λ n. n ≡ named + 1) }
        ensures last { OnOk result (slice_get (seen self.new).history (named + 1) ≡ Some (arc_value next).built) }
        ensures batch { OnOk result (slice_get (seen self.new).batches (named + 1) ≡ Some (arc_value next).batch) }
        ensures newest { OnOk result (length (seen self.old).history ≤ named + 1) }
        ensures small { OnOk result (named + 1 < 64) }
        ensures room { OnOk result (named + 1 < (seen self.new).limit) }
        ensures counts { CountsPublish (named + 1) (seen self.old) (seen self.new) result }
        ensures stale { (newest : ℕ) → result ≡ Err (Stale newest)
            → (named < newest) × (newest + 1 ≡ length (seen self.new).history) }
        ensures full { (limit : ℕ) → result ≡ Err (VersionsFull limit) → (limit ≡ (seen self.new).limit) × (limit ≡ named + 1) }
        ensures continues { Continues (seen self.old) (seen self.new) };

    /// No more are seen than there may be.
    ghost room: { (versions : Self) → length (seen versions).history ≤ (seen versions).limit };
}
