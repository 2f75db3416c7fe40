//! The merge history of a base map: at each step the face of least importance that has a permitted neighbour joins the
//! one of them that suits it best.
//! Beside it, the area of the face that each step takes. It stands on `tgap_model`, whose `History` says what a step is.
#![tactic(auto)]

ghost use Rattle.std.specs.Prelude.{◌≡◌, ◌≤◌, List, length, map, IfOk};
ghost use Rattle.tgap_model.specs.declared.merge.MergeStep.{MergeStep};
ghost use Rattle.tgap_model.specs.History.{IsHistory, AreNumbered, history_of as whole_history};
ghost use Rattle.face_merge.specs.Measures.{measure_of};

mod areas;
mod links;
mod measures;
mod measuring;
mod merging;
mod queue;

pub use areas::lost_areas;
pub use measures::Measure;
use measures::measures_of;
pub use measuring::measure;
use merging::Merging;
use std::alloc::Global;
use tgap_model::{Base, List, Memory, MergeStep};

/// The merge history of a base map, planar or not, by 'Merging' of docs/rules.md: its steps, in order, from the measures
/// of its arcs.
///
/// The areas, the neighbours and the lengths that they share are summed once; each step changes those of the two faces
/// that it merges, and goes on with the counts of permitted neighbours of those at the loser's side. The links of the one
/// with fewer of them go to the other, and the faces with a permitted neighbour wait in an ordered queue, so the cost is
/// near the number of arcs times the square of its logarithm. It is more only where a face with very many neighbours
/// loses again and again: each step looks at all neighbours of its loser. It fails on want of memory alone.
pub fn history_of(
    alloc: Global,
    base: &Base,
    measures: &List<Measure>,
) -> Result<List<MergeStep>, Memory>
    requires { measures.now ≡ map measure_of base.now.arcs }
    // Each step is the one that the rules ask for, and the last one leaves no face with a permitted neighbour.
    ensures steps { IfOk result (λ steps. IsHistory base.now steps) }
    // No other list of steps is the history.
    ensures only { IfOk result (λ steps. (others : List MergeStep) → IsHistory base.now others → others ≡ steps) }
    // The history, by the function that computes on small maps.
    ensures exact { IfOk result (λ steps. steps ≡ whole_history base.now) }
    // A step merges two different faces, and the new face has the next number.
    ensures numbered { IfOk result (AreNumbered (length base.now.classes)) }
    ensures few { IfOk result (λ steps. length steps ≤ length base.now.arcs) }
{
    let mut merging = Merging::of(alloc, base, measures.as_slice())?;
    while let Some(pair) = merging.next_pair(alloc)? {
        merging = merging.take(alloc, pair)?;
    }
    Ok(merging.into_steps())
}

/// The merge history of a base map, planar or not, by 'Merging' of docs/rules.md: its steps, in order.
///
/// The points are read once, to measure the arcs; the rest costs what `history_of` costs. It fails on want of memory
/// alone.
pub fn history(alloc: Global, base: &Base) -> Result<List<MergeStep>, Memory>
    // Each step is the one that the rules ask for, and the last one leaves no face with a permitted neighbour.
    ensures steps { IfOk result (λ steps. IsHistory base.now steps) }
    // No other list of steps is the history.
    ensures only { IfOk result (λ steps. (others : List MergeStep) → IsHistory base.now others → others ≡ steps) }
    // The history, by the function that computes on small maps.
    ensures exact { IfOk result (λ steps. steps ≡ whole_history base.now) }
    // A step merges two different faces, and the new face has the next number.
    ensures numbered { IfOk result (AreNumbered (length base.now.classes)) }
    ensures few { IfOk result (λ steps. length steps ≤ length base.now.arcs) }
{
    let measures = measures_of(alloc, base.arcs().as_slice())?;
    history_of(alloc, base, &measures)
}
