//! The parts of a base map: the arcs with their faces, and the rules.

ghost use Rattle.std.specs.Prelude.{◌≡◌, ◌≤◌, length};
ghost use Rattle.tgap_model.specs.declared.limits.TheConstants.{MAX_ARCS};
ghost use Rattle.topology_forms.specs.Rings.{sided_from};
ghost use Rattle.plain_io.specs.Taking.{GivesWhole};
ghost use Rattle.ring_sides.specs.Taking.{HasSides};

use crate::taken::Taken;
use std::alloc::Global;
use tgap_model::{BaseArc, List, MapFault, Or, Point, copied_points};

/// The arcs of which at least one side was taken, with their faces. No face may have both sides of an arc.
pub fn sided_arcs(
    alloc: Global,
    arcs: &[List<Point>],
    taken: &Taken,
) -> Result<List<BaseArc>, Or<MapFault>>
    requires { HasSides (length arcs.now) taken.now }
    ensures { GivesWhole result (sided_from 0 arcs.now taken.now.left taken.now.right) }
{
    let mut sided = List::new(alloc);
    for (number, points) in arcs.iter().enumerate() {
        let left = taken.left(number);
        let right = taken.right(number);
        if left != right {
            let points = copied_points(alloc, points.as_slice())?;
            sided.push(BaseArc {
                left,
                right,
                points,
            })?;
        } else if left != 0 {
            return Err(Or::Fault(MapFault::SameSides {
                arc: number as u32,
                face: left,
            }));
        }
    }
    Ok(sided)
}
