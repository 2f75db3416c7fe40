//! The polygons of a topology as faces, each with its class.

ghost use Rattle.std.specs.Prelude.{◌≡◌, ◌≤◌, ◌<◌, ◌+◌, count_by, length, IsTrue, IfOk, OnOk, if◌then◌else◌};
ghost use Rattle.std.specs.List.{list_all};
ghost use Rattle.tgap_model.specs.declared.limits.TheConstants.{MAX_ARCS, MAX_CLASSES, MAX_FACES};
ghost use Rattle.line_forms.specs.Json.{try_fold};
ghost use Rattle.map_forms.specs.RulesFile.{is_named_rules};
ghost use Rattle.topology_forms.specs.Topology.{has_ring};
ghost use Rattle.topology_forms.specs.Rings.{is_raw_ring, nothing_taken, holes_taken, class_from, class_named, polygon_taken};
ghost use Rattle.plain_io.specs.Taking.{GivesWhole, LeavesWhole};
ghost use Rattle.ring_sides.specs.Taking.{Leaves, HasSides, KeepsForm, hole_taken, rings_taken};

use crate::arcs::Arcs;
use crate::side::RingKind;
use crate::taken::Taken;
use std::alloc::Global;
use tgap_model::{List, MapFault, NamedRules, Or, RawPolygon};

/// The class of this name: the first one that has it, or the default class.
fn class_by_name(named: &NamedRules, name: &[u8]) -> u32
    requires { length named.now.names ≤ MAX_CLASSES }
    ensures { result ≡ class_from named.now.default 0 named.now.names name.now }
{
    for (class, known) in named.names.as_slice().iter().enumerate() {
        if known.as_slice() == name {
            return class as u32;
        }
    }
    named.default
}

/// The class of a polygon.
fn class_of(named: &NamedRules, polygon: &RawPolygon) -> u32
    requires { IsTrue (is_named_rules named.now) }
    ensures { result ≡ class_named named.now polygon.now.kind }
{
    match &polygon.kind {
        Some(name) => class_by_name(named, name.as_slice()),
        None => named.default,
    }
}

/// Takes the arcs of a hole of the face, which has this number. One that is collapsed is passed over.
fn take_hole(
    taken: &mut Taken,
    arcs: &Arcs,
    face: u32,
    number: u32,
    ring: &[i64],
) -> Result<(), MapFault>
    requires ring { IsTrue (is_raw_ring (length arcs.now) ring.now) }
    requires sides { HasSides (length arcs.now) taken.old }
    ensures value { Leaves result taken.new (hole_taken arcs.now face number ring.now taken.old) }
    ensures form { KeepsForm taken.old taken.new }
{
    if arcs.is_collapsed(ring) {
        return Ok(());
    }
    taken.take_ring(arcs, RingKind::Hole, face, number, ring)
}

/// Takes the arcs of the holes of the face, of which the first one has this number.
fn take_holes(
    taken: &mut Taken,
    arcs: &Arcs,
    face: u32,
    first: u32,
    holes: &[List<i64>],
) -> Result<(), MapFault>
    requires rings { IsTrue (list_all (is_raw_ring (length arcs.now)) holes.now) }
    requires sides { HasSides (length arcs.now) taken.old }
    ensures value { Leaves result taken.new (holes_taken arcs.now face first holes.now taken.old) }
    ensures form { KeepsForm taken.old taken.new }
{
    let mut number = first;
    for hole in holes {
        take_hole(taken, arcs, face, number, hole.as_slice())?;
        number = number.saturating_add(1);
    }
    Ok(())
}

/// Takes the arcs of the rings of the face: of its exterior ring, which has this number, and of its holes.
fn take_rings(
    taken: &mut Taken,
    arcs: &Arcs,
    face: u32,
    first: u32,
    exterior: &[i64],
    holes: &[List<i64>],
) -> Result<(), MapFault>
    requires exterior { IsTrue (is_raw_ring (length arcs.now) exterior.now) }
    requires holes { IsTrue (list_all (is_raw_ring (length arcs.now)) holes.now) }
    requires sides { HasSides (length arcs.now) taken.old }
    ensures value { Leaves result taken.new (rings_taken arcs.now face first exterior.now holes.now taken.old) }
    ensures form { KeepsForm taken.old taken.new }
{
    taken.take_ring(arcs, RingKind::Exterior, face, first, exterior)?;
    take_holes(taken, arcs, face, first.saturating_add(1), holes)
}

/// Takes the arcs of a polygon. It is a face, unless it has no ring or its exterior ring is collapsed.
#[tactic(auto, unfolding(topology_forms::specs::Rings::face_taken))]
fn take_polygon(
    taken: &mut Taken,
    arcs: &Arcs,
    named: &NamedRules,
    polygon: &RawPolygon,
) -> Result<(), Or<MapFault>>
    requires rings { IsTrue (list_all (is_raw_ring (length arcs.now)) polygon.now.rings) }
    requires sides { HasSides (length arcs.now) taken.old }
    requires named { IsTrue (is_named_rules named.now) }
    requires few { length taken.old.classes + (if has_ring polygon.now then 1 else 0) ≤ MAX_FACES }
    ensures value { LeavesWhole result taken.new (polygon_taken arcs.now named.now taken.old polygon.now) }
    ensures sides { OnOk result (HasSides (length arcs.now) taken.new) }
    ensures few { OnOk result (length taken.new.classes ≤ length taken.old.classes + (if has_ring polygon.now then 1 else 0)) }
{
    let Some((exterior, holes)) = polygon.rings.as_slice().split_first() else {
        return Ok(());
    };
    let exterior = exterior.as_slice();
    if arcs.is_collapsed(exterior) {
        return Ok(());
    }
    taken.push_face(class_of(named, polygon))?;
    let face = taken.count_faces() as u32;
    take_rings(taken, arcs, face, polygon.first_ring, exterior, holes).map_err(Or::Fault)
}

/// What the rings of these polygons take.
pub fn take_polygons(
    alloc: Global,
    arcs: &Arcs,
    named: &NamedRules,
    polygons: &[RawPolygon],
) -> Result<Taken, Or<MapFault>>
    requires rings { IsTrue (list_all (λ p. list_all (is_raw_ring (length arcs.now)) p.rings) polygons.now) }
    requires named { IsTrue (is_named_rules named.now) }
    requires few_arcs { length arcs.now ≤ MAX_ARCS }
    requires few_faces { count_by has_ring polygons.now ≤ MAX_FACES }
    ensures value { GivesWhole result (try_fold (polygon_taken arcs.now named.now) (nothing_taken arcs.now) polygons.now) }
    ensures sides { IfOk result (HasSides (length arcs.now)) }
{
    let mut taken = Taken::nothing(alloc, arcs)?;
    for polygon in polygons {
        take_polygon(&mut taken, arcs, named, polygon)?;
    }
    Ok(taken)
}
