//! The faces that steps merge.

ghost use Rattle.std.specs.Prelude.{◌≡◌, ◌<◌, ◌^◌, length, IfOk};
ghost use Rattle.face_tree.specs.Tree.{children};

use std::alloc::Global;
use tgap_model::{Memory, MergeStep};

/// The two faces that each of these steps merges, step by step, the loser before the winner.
pub fn children_of(alloc: Global, steps: &[MergeStep]) -> Result<Vec<u32>, Memory>
    requires { length steps.now < 2 ^ 32 }
    ensures { IfOk result (λ found. found.items ≡ children steps.now) }
{
    let mut found = Vec::with_capacity(alloc, 2 * steps.len())?;
    for step in steps {
        found.push(step.loser)?;
        found.push(step.winner)?;
    }
    Ok(found)
}
