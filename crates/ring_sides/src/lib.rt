//! From the rings of a topology to the sides of its arcs. It stands on `topology_forms`, whose `Rings` says which base map a
//! topology and its rules make, or what the first fault of the rings is. One function does nothing: its contract is a law of rings.
#![tactic(auto)]

ghost use Rattle.std.specs.Prelude.{◌≡◌, Err, IfOk, IsTrue};
ghost use Rattle.tgap_model.specs.declared.failure.Or.TheVariants.{Fault};
ghost use Rattle.tgap_model.specs.declared.fault.MapFault.{MapFault};
ghost use Rattle.tgap_model.specs.Base.{BaseMap, is_transform};
ghost use Rattle.map_forms.specs.RulesFile.{is_named_rules};
ghost use Rattle.topology_forms.specs.Rings.{is_raw_map, based};
ghost use Rattle.plain_io.specs.Taking.{GivesWhole};
ghost use Rattle.ring_sides.specs.Sides.{HasRingSides};
ghost use Rattle.ring_sides.specs.RingFaults.{IsRingFault};

mod arcs;
mod face;
mod measure;
mod side;
mod sided;
mod taken;
mod turned;

use arcs::Arcs;
use face::take_polygons;
use sided::sided_arcs;
use std::alloc::Global;
use tgap_model::{Base, MapFault, NamedRules, Or, RawMap, Transform, copied_rules};
pub use turned::turned_rings_take_the_same;

/// The same transform. Its numbers are read, so that it is known of each that it has 32 bits.
fn read_transform(transform: Transform) -> Transform
    ensures same { result ≡ transform }
    ensures words { IsTrue (is_transform transform) }
{
    let Transform { sx, sy, tx, ty } = transform;
    Transform { sx, sy, tx, ty }
}

/// The base map that a topology and its rules make, or the first fault of its rings.
///
/// The rings are those of TopoJSON 1.0 (section 2, "Arc Indexes" and "Polygon"): a ring is a list of indexes, each of which
/// names an arc, and a negative one names it from its last point to its first. Each arc starts where the one before it
/// ends. A ring whose points are all one, or that has none, is collapsed.
///
/// A polygon is a face unless its exterior ring is collapsed or missing; the first such polygon is face 1, the next one is
/// face 2, and so on. A face has the first class of the rules with its name, or else the default class. A face is inside
/// its exterior ring and outside its holes: on the left of an exterior ring that is counter-clockwise and of a hole that is
/// clockwise, on the right of others. So the direction of a ring is of no consequence. A collapsed hole and an arc of one
/// point have no side to take. The arcs of the base map are those of which a ring took a side, in their order; at a side
/// that no ring took is the outside, 0.
///
/// Rings are numbered from 0 over all polygons, those that are passed over too, and followed in that order. The faults:
/// - `RingOpen`, with the ring and the place in it: there is a gap between the end of the arc there and the next one.
/// - `RingFlat`, with the ring: it is closed, and its area is 0.
/// - `SideTaken`, with the arc, its side (0 is left, 1 is right), the face that has it and the face that comes for it.
/// - `SameSides`, with the arc and the face: one face has both sides. Among the rings there was no fault, and none of the
///   arcs before has this one.
///
/// Each point and each index is read a fixed number of times, however often an arc is named. The name of a face is
/// compared with those of the classes. It takes memory for the base map and for three numbers an arc.
#[tactic(auto, unfolding(topology_forms::specs::Rings::based))]
pub fn to_base(alloc: Global, raw: &RawMap, named: &NamedRules) -> Result<Base, Or<MapFault>>
    requires raw { IsTrue (is_raw_map raw.now) }
    requires named { IsTrue (is_named_rules named.now) }
    // The base map, or the first fault, by the function that computes on small maps.
    ensures exact { GivesWhole result (based raw.now named.now) }
    // The base map, told of the rings: each side of an arc has the face that takes it, and the arcs are those with a face.
    ensures sides { IfOk result (λ base. HasRingSides raw.now named.now base) }
    // No other base map has these sides; where there is a fault, none has.
    ensures only { (other : BaseMap) → HasRingSides raw.now named.now other → IfOk result (λ base. base ≡ other) }
    ensures refused { (base : BaseMap) → HasRingSides raw.now named.now base → (f : MapFault) → ¬ (result ≡ Err (Fault f)) }
    // What the fault names is wrong there, and nothing before it is.
    ensures shown { (f : MapFault) → result ≡ Err (Fault f) → IsRingFault raw.now f }
{
    let arcs = Arcs::of(alloc, raw.arcs.as_slice())?;
    let taken = take_polygons(alloc, &arcs, named, raw.polygons.as_slice())?;
    let sided = sided_arcs(alloc, raw.arcs.as_slice(), &taken)?;
    let rules = copied_rules(alloc, &named.rules)?;
    let transform = read_transform(raw.transform);
    Ok(Base::new(transform, rules, taken.into_classes(), sided).unwrap())
}
