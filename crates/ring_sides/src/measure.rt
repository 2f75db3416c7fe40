//! The shoelace sums of the arcs of a topology.

ghost use Rattle.std.specs.Prelude.{◌≡◌, map, IfOk};
ghost use Rattle.tgap_model.specs.Point.{shoelace};
ghost use Rattle.ring_sides.specs.Arcs.{AreRawArcs};

use std::alloc::Global;
use tgap_model::{List, Memory, Point, shoelace};

/// The shoelace sum of each arc.
pub fn shoelace_sums(alloc: Global, arcs: &[List<Point>]) -> Result<Vec<i128>, Memory>
    requires { AreRawArcs arcs.now }
    ensures { IfOk result (λ sums. sums.items ≡ map shoelace arcs.now) }
{
    let mut sums = Vec::with_capacity(alloc, arcs.len())?;
    for arc in arcs {
        sums.push(shoelace(arc.as_slice()))?;
    }
    Ok(sums)
}
