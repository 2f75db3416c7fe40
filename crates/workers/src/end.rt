//! Why workers stopped.

ghost use Rattle.std.specs.Prelude.{◌≡◌, ◌≤◌, ◌-◌, ◌^◌, ◌↔◌, ◌⊎◌, true, IsTrue};
ghost use Rattle.tgap_model.specs.Faults.{Rose};
ghost use Rattle.workers.specs.declared.end.ServeEnd.TheVariants.{DoorFailed};

/// Why workers stopped.
#[derive(Clone, Copy, Debug, PartialEq, Eq)]
pub enum ServeEnd {
    /// No more links will come of any door.
    Closed,
    /// A door failed.
    DoorFailed,
}

impl ServeEnd {
    /// The end of two groups of workers, of which each stopped.
    pub(crate) fn both(self, other: ServeEnd) -> ServeEnd
        ensures { (result ≡ DoorFailed) ↔ ((self ≡ DoorFailed) ⊎ (other ≡ DoorFailed)) }
    {
        match self {
            ServeEnd::Closed => other,
            ServeEnd::DoorFailed => ServeEnd::DoorFailed,
        }
    }
}

/// The end of one worker, by the count of its door's faults before and after.
pub(crate) fn end_by_counts(before: u64, now: u64) -> ServeEnd
    requires { before ≤ now }
    ensures { (result ≡ DoorFailed) ↔ Rose before now }
{
    if before < now || now == u64::MAX {
        ServeEnd::DoorFailed
    } else {
        ServeEnd::Closed
    }
}
