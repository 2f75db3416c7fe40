//! The areas of the faces of a base map, and of those that the steps of a history take.

ghost use Rattle.std.specs.Prelude.{◌≡◌, ◌≤◌, ◌<◌, pos, unsigned_abs, length, map, slice_index_or, All, IfOk, IsTrue};
ghost use Rattle.tgap_model.specs.declared.limits.TheConstants.{MAX_ARCS, MAX_FACES};
ghost use Rattle.tgap_model.specs.Base.{is_base};
ghost use Rattle.tgap_model.specs.Bounds.{max_area};
ghost use Rattle.tgap_model.specs.History.{history_of, labelled};
ghost use Rattle.tgap_model.specs.Merged.{merged};
ghost use Rattle.face_merge.specs.Areas.{added, joined_area, lost_areas};
ghost use Rattle.face_merge.specs.Measures.{IsMeasured, measure_of};
ghost use Rattle.face_merge.specs.Merging.{AreAreas, IsLabelled};

use crate::measures::{Measure, labelled_arcs};
use std::alloc::Global;
use tgap_model::{Base, LabelledArc, List, Memory, MergeStep};

/// Adds a part to the area of a face.
fn add(areas: &mut Vec<i128>, face: u32, part: i128)
    requires within { face < length areas.old.items }
    requires area { unsigned_abs (slice_index_or areas.old.items face (pos 0)) ≤ max_area }
    requires part { unsigned_abs part ≤ max_area }
    ensures { areas.new.items ≡ added areas.old.items face part }
{
    areas[face as usize] += part;
}

/// Twice the area of each face, by its number.
pub fn areas_of(alloc: Global, faces: usize, arcs: &[LabelledArc]) -> Result<Vec<i128>, Memory>
    requires faces { faces ≤ MAX_FACES }
    requires labelled { All (IsLabelled faces) arcs.now }
    requires measured { All IsMeasured arcs.now }
    requires few { length arcs.now ≤ MAX_ARCS }
    ensures { IfOk result (λ areas. AreAreas faces arcs.now areas.items) }
{
    let mut areas = vec![in alloc; 0i128; faces + 1]?;
    for arc in arcs {
        add(&mut areas, arc.left, arc.area);
        add(&mut areas, arc.right, -arc.area);
    }
    Ok(areas)
}

/// Twice the area of the face that a step makes: that of its loser and that of its winner together.
fn joined(areas: &[i128], step: &MergeStep) -> i128
    requires loser { step.now.loser < length areas.now }
    requires winner { step.now.winner < length areas.now }
    requires loser_area { unsigned_abs (slice_index_or areas.now step.now.loser (pos 0)) ≤ max_area }
    requires winner_area { unsigned_abs (slice_index_or areas.now step.now.winner (pos 0)) ≤ max_area }
    ensures { result ≡ joined_area areas.now step.now }
{
    areas[step.loser as usize] + areas[step.winner as usize]
}

/// Twice the area of each face of a base map, by its number, from the measures of its arcs.
fn base_areas(alloc: Global, base: &Base, measures: &[Measure]) -> Result<Vec<i128>, Memory>
    requires { measures.now ≡ map measure_of base.now.arcs }
    ensures areas { IfOk result (λ areas. AreAreas (length base.now.classes) (map labelled base.now.arcs) areas.items) }
    ensures base { IfOk result (λ _. IsTrue (is_base base.now)) }
{
    let arcs = base.arcs().as_slice();
    let labelled = labelled_arcs(alloc, arcs, measures)?;
    areas_of(alloc, base.classes().len(), &labelled)
}

/// Twice the area of the face that each step takes, in the order of the steps: of its loser, as that face is just
/// before the step.
///
/// The measures are those of the arcs of the base map, and the steps are its whole history. The areas of the base faces
/// are summed once, and the area of a new face is that of the two that it is made of, so the cost is the number of arcs
/// and the number of steps: no point is read. It fails on want of memory alone.
pub fn lost_areas(
    alloc: Global,
    base: &Base,
    measures: &List<Measure>,
    steps: &[MergeStep],
) -> Result<List<i128>, Memory>
    requires measures { measures.now ≡ map measure_of base.now.arcs }
    requires steps { steps.now ≡ history_of base.now }
    ensures exact { IfOk result (λ areas. areas ≡ lost_areas (merged base.now)) }
    ensures small { IfOk result (λ areas. All (λ area. unsigned_abs area ≤ max_area) areas) }
{
    let mut areas = base_areas(alloc, base, measures.as_slice())?;
    let mut lost = List::with_capacity(alloc, steps.len())?;
    for step in steps {
        lost.push(areas[step.loser as usize])?;
        let area = joined(&areas, step);
        areas.push(area)?;
    }
    Ok(lost)
}
