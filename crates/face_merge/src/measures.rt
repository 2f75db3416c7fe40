//! The measures of arcs: what each adds to the areas and the lengths of faces.

ghost use Rattle.std.specs.Prelude.{◌≡◌, ◌≤◌, length, map, IfOk};
ghost use Rattle.std.specs.List.{All};
ghost use Rattle.tgap_model.specs.declared.limits.TheConstants.{MAX_POINTS};
ghost use Rattle.tgap_model.specs.History.{labelled};
ghost use Rattle.tgap_model.specs.Bounds.{IsNear};
ghost use Rattle.face_merge.specs.Measures.{IsMeasured, measure_of};

use crate::measuring::measure;
use std::alloc::Global;
use tgap_model::{BaseArc, LabelledArc, List, Memory};

/// What an arc adds to the areas and the lengths of the faces at its sides.
#[derive(Clone, Copy, PartialEq, Eq)]
pub struct Measure {
    /// Its shoelace sum: what it adds to twice the area of the face at its left, and takes from that at its right.
    pub twice: i128,
    /// Its length, in grid units.
    pub length: i128,
}

/// The measure of each arc.
pub fn measures_of(alloc: Global, arcs: &[BaseArc]) -> Result<List<Measure>, Memory>
    requires near { All (λ a. All IsNear a.points) arcs.now }
    requires short { All (λ a. length a.points ≤ MAX_POINTS) arcs.now }
    ensures { IfOk result (λ measures. measures ≡ map measure_of arcs.now) }
{
    let mut measures = List::with_capacity(alloc, arcs.len())?;
    for arc in arcs {
        measures.push(measure(arc))?;
    }
    Ok(measures)
}

/// An arc with the labels of the base map and this measure.
fn with_measure(arc: &BaseArc, measure: Measure) -> LabelledArc
    requires measure { measure ≡ measure_of arc.now }
    requires size { IsMeasured (labelled arc.now) }
    ensures { result ≡ labelled arc.now }
{
    LabelledArc {
        left: arc.left,
        right: arc.right,
        area: measure.twice,
        extent: measure.length as u64,
    }
}

/// The arcs with the labels of the base map and these measures.
pub fn labelled_arcs(
    alloc: Global,
    arcs: &[BaseArc],
    measures: &[Measure],
) -> Result<Vec<LabelledArc>, Memory>
    requires measures { measures.now ≡ map measure_of arcs.now }
    requires sizes { All IsMeasured (map labelled arcs.now) }
    ensures { IfOk result (λ found. found.items ≡ map labelled arcs.now) }
{
    let mut found = Vec::with_capacity(alloc, arcs.len())?;
    for i in 0..arcs.len() {
        found.push(with_measure(&arcs[i], measures[i]))?;
    }
    Ok(found)
}
