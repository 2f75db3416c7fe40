//! The measures of the arcs of a map, made on all processors.

ghost use Rattle.std.specs.Prelude.{◌≡◌, ◌≤◌, length, map, IfOk};
ghost use Rattle.std.specs.List.{All};
ghost use Rattle.tgap_model.specs.declared.limits.TheConstants.{MAX_POINTS};
ghost use Rattle.tgap_model.specs.Bounds.{IsNear};
ghost use Rattle.face_merge.specs.Measures.{measure_of};

use face_merge::{Measure, measure};
use rayon::prelude::*;
use std::alloc::Global;
use std::thread::Threads;
use tgap_model::{Base, BaseArc, List, Memory};

/// The measure of each arc of a map. Where there are some thousand arcs, as many threads as there are processors share them.
pub fn measures_of<R: Threads + Sync>(
    rt: &R,
    alloc: Global,
    base: &Base,
) -> Result<List<Measure>, Memory>
    ensures { IfOk result (λ measures. measures ≡ map measure_of base.now.arcs) }
{
    let measures: Vec<Measure> = base
        .arcs()
        .as_slice()
        .par_iter()
        .map(
            |arc: &BaseArc| -> Measure
                requires { All IsNear arc.now.points × (length arc.now.points ≤ MAX_POINTS) }
                ensures { result ≡ measure_of arc.now }
            { measure(arc) },
        )
        .collect(rt, alloc)?;
    Ok(List::from(measures))
}
