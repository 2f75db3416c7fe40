//! The parts of faces: outer rings, each with the inner ones that belong to it.

ghost use Rattle.std.specs.Prelude.{◌≡◌, ◌<◌, ◌≤◌, ◌^◌, ◌-◌, ◌++◌, [], map, flat_map, length, get_or, All, IfOk, OnOk};
ghost use Rattle.std.specs.List.{range_with_len};
ghost use Rattle.topo_write.specs.Building.{AreHeld, AreRings, HasPlaces, inner_places, outer_places, part_at, part_with, ring_at, ring_polygons, rings_in, told};
ghost use Rattle.topo_write.specs.Polygons.{face_polygons, lines_of};

use crate::flat::area_at;
use crate::groups::grouped;
use crate::homes::homes_of;
use crate::measured::Measured;
use crate::part::Part;
use std::alloc::Global;
use tgap_model::{Edge, FaceRow, List, Memory};

/// Those of these places that have outer rings.
fn outer_places(alloc: Global, areas: &[i128], places: &[u32]) -> Result<Vec<u32>, Memory>
    requires { All (λ p. p < length areas.now) places.now }
    ensures { IfOk result (λ outer. outer.items ≡ outer_places areas.now places.now) }
{
    let mut outer = Vec::new(alloc);
    for place in places {
        if area_at(areas, *place) > 0 {
            outer.push(*place)?;
        }
    }
    Ok(outer)
}

/// Those of these places that have inner rings.
fn inner_places(alloc: Global, areas: &[i128], places: &[u32]) -> Result<Vec<u32>, Memory>
    requires { All (λ p. p < length areas.now) places.now }
    ensures { IfOk result (λ inner. inner.items ≡ inner_places areas.now places.now) }
{
    let mut inner = Vec::new(alloc);
    for place in places {
        if area_at(areas, *place) < 0 {
            inner.push(*place)?;
        }
    }
    Ok(inner)
}

/// For each of the outer rings at `outer`, the places among `inner` of the inner ones that belong to it.
fn held_by(
    alloc: Global,
    edges: &[Edge],
    rings: &Measured,
    outer: &[u32],
    inner: &[u32],
) -> Result<Vec<List<u32>>, Memory>
    requires rings { AreRings edges.now rings.now }
    requires outer { All (λ p. p < length rings.now.rings) outer.now }
    requires few { length outer.now < 2 ^ 32 - 1 }
    requires inner { All (λ p. p < length rings.now.rings) inner.now }
    requires small { length inner.now < 2 ^ 32 }
    ensures { IfOk result (λ held. AreHeld (lines_of edges.now) rings.now.rings outer.now inner.now held.items) }
{
    let all = rings.rings.as_slice();
    let areas = rings.areas.as_slice();
    let homes = homes_of(alloc, edges, all, areas, outer, inner)?;
    // Without an outer ring each inner one still has the place 0.
    let held = grouped(alloc, &homes, outer.len().max(1))?;
    Ok(held)
}

/// A part of its outer ring, and of those of the inner ones that it holds.
fn part_with(
    alloc: Global,
    row: FaceRow,
    inner: &[u32],
    outer: u32,
    held: &[u32],
) -> Result<Part, Memory>
    requires { All (λ k. k < length inner.now) held.now }
    ensures { IfOk result (λ part. part ≡ part_with row inner.now outer held.now) }
{
    let mut rings = List::with_capacity(alloc, 1 + held.len())?;
    rings.push(outer)?;
    for place in held {
        rings.push(inner[*place as usize])?;
    }
    Ok(Part { row, rings })
}

/// Appends a part for each outer ring of a face, with those of the inner ones that it holds.
fn push_parts(
    alloc: Global,
    parts: &mut Vec<Part>,
    row: FaceRow,
    outer: &[u32],
    inner: &[u32],
    held: &[List<u32>],
) -> Result<(), Memory>
    requires each { length outer.now ≤ length held.now }
    requires within { All (All (λ k. k < length inner.now)) held.now }
    ensures { OnOk result (parts.new.items ≡ parts.old.items ++ map (part_at row outer.now inner.now held.now) (range_with_len 0 (length outer.now))) }
{
    for place in 0..outer.len() {
        parts.push(part_with(alloc, row, inner, outer[place], held[place].as_slice())?)?;
    }
    Ok(())
}

/// Appends the parts of a face with these outer and inner rings.
fn push_rings(
    alloc: Global,
    parts: &mut Vec<Part>,
    edges: &[Edge],
    rings: &Measured,
    row: FaceRow,
    outer: &[u32],
    inner: &[u32],
) -> Result<(), Memory>
    requires rings { AreRings edges.now rings.now }
    requires outer { All (λ p. p < length rings.now.rings) outer.now }
    requires few { length outer.now < 2 ^ 32 - 1 }
    requires inner { All (λ p. p < length rings.now.rings) inner.now }
    requires small { length inner.now < 2 ^ 32 }
    ensures told { OnOk result (map (told rings.now.rings) parts.new.items ≡ map (told rings.now.rings) parts.old.items ++ ring_polygons (lines_of edges.now) row (map (ring_at rings.now.rings) outer.now) (map (ring_at rings.now.rings) inner.now)) }
    ensures within { OnOk result (All (HasPlaces (length rings.now.rings)) parts.old.items → All (HasPlaces (length rings.now.rings)) parts.new.items) }
{
    let held = held_by(alloc, edges, rings, outer, inner)?;
    push_parts(alloc, parts, row, outer, inner, &held)?;
    Ok(())
}

/// Appends the parts of a face whose rings are at these places.
fn push_face(
    alloc: Global,
    parts: &mut Vec<Part>,
    edges: &[Edge],
    rings: &Measured,
    row: FaceRow,
    places: &[u32],
) -> Result<(), Memory>
    requires rings { AreRings edges.now rings.now }
    requires places { All (λ p. p < length rings.now.rings) places.now }
    requires few { length places.now < 2 ^ 32 - 1 }
    ensures told { OnOk result (map (told rings.now.rings) parts.new.items ≡ map (told rings.now.rings) parts.old.items ++ face_polygons (lines_of edges.now) row (map (ring_at rings.now.rings) places.now)) }
    ensures within { OnOk result (All (HasPlaces (length rings.now.rings)) parts.old.items → All (HasPlaces (length rings.now.rings)) parts.new.items) }
{
    let areas = rings.areas.as_slice();
    let outer = outer_places(alloc, areas, places)?;
    let inner = inner_places(alloc, areas, places)?;
    push_rings(alloc, parts, edges, rings, row, &outer, &inner)?;
    Ok(())
}

/// The places of the rings of a face.
pub fn places_of(groups: &[List<u32>], face: u32) -> &[u32]
    ensures { result.now ≡ get_or groups.now face [] }
{
    match groups.get(face as usize) {
        Some(places) => places.as_slice(),
        None => &[],
    }
}

/// The parts of the faces of these rows, in their order.
pub fn parts_of(
    alloc: Global,
    edges: &[Edge],
    rings: &Measured,
    rows: &[FaceRow],
) -> Result<Vec<Part>, Memory>
    requires { AreRings edges.now rings.now }
    ensures told { IfOk result (λ parts. map (told rings.now.rings) parts.items ≡ flat_map (λ row. face_polygons (lines_of edges.now) row (rings_in rings.now.rings rings.now.groups row.face)) rows.now) }
    ensures within { IfOk result (λ parts. All (HasPlaces (length rings.now.rings)) parts.items) }
{
    let mut parts = Vec::new(alloc);
    for row in rows {
        let places = places_of(rings.groups.as_slice(), row.face);
        push_face(alloc, &mut parts, edges, rings, *row, places)?;
    }
    Ok(parts)
}
