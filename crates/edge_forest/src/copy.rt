//! A copy of a base map.

ghost use Rattle.std.specs.Prelude.{◌≡◌, IfOk};

use std::alloc::Global;
use tgap_model::{Base, Checked, Memory, copied_arcs, copied_numbers, copied_rules};

/// A copy of a base map.
fn copy_base(alloc: Global, base: &Base) -> Result<Base, Memory>
    ensures { IfOk result (λ copy. copy ≡ base.now) }
{
    let rules = copied_rules(alloc, base.rules())?;
    let classes = copied_numbers(alloc, base.classes().as_slice())?;
    let arcs = copied_arcs(alloc, base.arcs().as_slice())?;
    let Some(copy) = Base::new(*base.transform(), rules, classes, arcs) else {
        unreachable!()
    };
    Ok(copy)
}

/// A copy of a base map that was checked.
pub fn copy_checked(alloc: Global, checked: &Checked) -> Result<Checked, Memory>
    ensures { IfOk result (λ copy. copy ≡ checked.now) }
{
    let copy = copy_base(alloc, checked.base())?;
    Ok(Checked::of(copy))
}
