//! The limits of what is counted.

ghost use Rattle.std.specs.Prelude.{◌≤◌, IfOk};
ghost use Rattle.tgap_model.specs.Limits.{limit_of};
ghost use Rattle.map_forms.specs.Listing.{at_most, within_limit};
ghost use Rattle.plain_io.specs.Taking.{GivesWhole};

use tgap_model::{LimitKind, MapFault, Or};

/// The fault of more than `most` of what is counted.
pub fn at_most(which: LimitKind, most: usize, count: u64) -> Result<(), Or<MapFault>>
    ensures exact { GivesWhole result (at_most which most count) }
    ensures few { IfOk result (λ _. count ≤ most) }
{
    if count <= most as u64 {
        Ok(())
    } else {
        Err(Or::Fault(MapFault::Limit { which, count }))
    }
}

/// The fault of a limit, where there are more than it allows.
pub fn within_limit(which: LimitKind, count: u64) -> Result<(), Or<MapFault>>
    ensures exact { GivesWhole result (within_limit which count) }
    ensures few { IfOk result (λ _. count ≤ limit_of which) }
{
    at_most(which, which.limit(), count)
}
