//! The rings of a slice, with what is known of each.

ghost use Rattle.std.specs.Prelude.{◌≡◌, ◌<◌, ◌-◌, ◌^◌, ℕ, length, All, IfOk};
ghost use Rattle.ring_walk.specs.Spans.{IsRing};
ghost use Rattle.topo_write.specs.Building.{HaveEnds, IsMeasured, rings_in};
ghost use Rattle.topo_write.specs.Polygons.{of_face};

use crate::areas::{areas_of, faces_of};
use crate::groups::{end_of, grouped};
use crate::spans::spans_of;
use ring_walk::{EdgeEnds, Side, Span, rings_of};
use std::alloc::Global;
use tgap_model::{Edge, List, Memory};

/// The rings of a slice.
#[derive(Drop)]
pub struct Measured {
    pub rings: List<List<Side>>,
    /// Twice the area of each.
    pub areas: List<i128>,
    /// By the number of a face the places of its rings.
    pub groups: List<List<u32>>,
}

/// By the number of a face the places of its rings.
fn by_face(alloc: Global, spans: &[Span], rings: &[List<Side>]) -> Result<Vec<List<u32>>, Memory>
    requires rings { All (IsRing (length spans.now)) rings.now }
    requires few { length rings.now < 2 ^ 32 - 1 }
    ensures value { IfOk result (λ groups. (f : ℕ) → rings_in rings.now groups.items f ≡ of_face spans.now f rings.now) }
    ensures within { IfOk result (λ groups. All (All (λ p. p < length rings.now)) groups.items) }
    ensures small { IfOk result (λ groups. All (λ g. length g < 2 ^ 32 - 1) groups.items) }
{
    let faces = faces_of(alloc, spans, rings)?;
    let end = end_of(&faces);
    let groups = grouped(alloc, &faces, end)?;
    Ok(groups)
}

/// The rings of the edges of a slice.
pub fn measure(alloc: Global, edges: &[Edge], ends: &[EdgeEnds]) -> Result<Measured, Memory>
    requires { HaveEnds edges.now ends.now }
    ensures { IfOk result (IsMeasured edges.now ends.now) }
{
    let spans = spans_of(alloc, edges, ends)?;
    let rings = rings_of(alloc, &spans)?;
    let areas = areas_of(alloc, edges, rings.as_slice())?;
    let groups = by_face(alloc, &spans, rings.as_slice())?;
    Ok(Measured {
        rings,
        areas: List::from(areas),
        groups: List::from(groups),
    })
}
