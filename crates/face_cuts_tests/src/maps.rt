//! Maps as rows of numbers, and edits of them.

ghost use Rattle.std.specs.Prelude.{◌≡◌, neg_ℤ};
ghost use Rattle.std.specs.List.{list_all};
ghost use Rattle.tgap_model.specs.declared.limits.TheConstants.{MAX_COORDINATE};
ghost use Rattle.tgap_model.specs.Base.{in_limits, within};

use face_cuts::{Cause, add_node, cut_face, fuse_faces};
use std::alloc::Global;
use tgap_model::{Base, BaseArc, List, MAX_COORDINATE, Memory, Or, Point, Rules, Transform};

/// A map of three classes: the class of each face, and each arc in one row, its left face, its right face, and the
/// coordinates of its points.
#[derive(Clone, Copy)]
pub struct Rows<'a> {
    pub classes: &'a [u32],
    pub arcs: &'a [&'a [i64]],
}

/// An edit of a map.
#[derive(Clone, Copy)]
pub enum Edit<'a> {
    /// The vertex with these coordinates becomes a node.
    Node(i64, i64),
    /// The face is cut, for a new one of the class, by the arc with these coordinates.
    Cut(u32, u32, &'a [i64]),
    /// The second face becomes a part of the first.
    Fuse(u32, u32),
}

/// What edits give.
#[derive(Clone, Copy)]
pub enum Outcome<'a> {
    Gives(Rows<'a>),
    Refused(u8),
}

/// The points with these coordinates.
fn points_of(alloc: Global, coordinates: &[i64]) -> Result<List<Point>, Memory> {
    let mut points = List::new(alloc);
    for place in 0..coordinates.len() / 2 {
        points.push(Point {
            x: coordinates[2 * place],
            y: coordinates[2 * place + 1],
        })?;
    }
    Ok(points)
}

/// A face from its number.
fn face_of(number: i64) -> Result<u32, Memory> {
    match u32::try_from(number) {
        Ok(face) => Ok(face),
        Err(_) => Err(Memory),
    }
}

/// An arc from its row.
fn arc_of(alloc: Global, row: &[i64]) -> Result<BaseArc, Memory> {
    match row {
        [left, right, coordinates @ ..] => Ok(BaseArc {
            left: face_of(*left)?,
            right: face_of(*right)?,
            points: points_of(alloc, coordinates)?,
        }),
        _ => Err(Memory),
    }
}

/// The arcs from their rows.
fn arcs_of(alloc: Global, rows: &[&[i64]]) -> Result<List<BaseArc>, Memory> {
    let mut arcs = List::new(alloc);
    for row in rows {
        arcs.push(arc_of(alloc, row)?)?;
    }
    Ok(arcs)
}

/// The rules of the maps.
fn rules(alloc: Global) -> Result<Rules, Memory> {
    let weights = Vec::from_slice(alloc, &[3, 2, 1])?;
    let compat = Vec::from_slice(alloc, &[1, 2, 3, 4, 5, 6, 7, 8, 9])?;
    Ok(Rules {
        ratio: 16,
        weights: List::from(weights),
        compat: List::from(compat),
    })
}

/// The transform of the maps.
fn transform() -> Transform {
    Transform {
        sx: 2,
        sy: 3,
        tx: 5,
        ty: 7,
    }
}

/// The map of such parts.
pub fn made_of(
    alloc: Global,
    classes: List<u32>,
    arcs: List<BaseArc>,
) -> Result<Box<Base>, Memory> {
    match Base::new(transform(), rules(alloc)?, classes, arcs) {
        Some(base) => boxed(alloc, base),
        None => Err(Memory),
    }
}

/// The map from its rows.
pub fn base_of(alloc: Global, rows: Rows<'_>) -> Result<Box<Base>, Memory> {
    let classes = List::from(Vec::from_slice(alloc, rows.classes)?);
    let arcs = arcs_of(alloc, rows.arcs)?;
    made_of(alloc, classes, arcs)
}

/// Whether the coordinate is within the limits of a map.
fn is_within(coordinate: i64) -> bool
    ensures { result ≡ within (neg_ℤ MAX_COORDINATE) MAX_COORDINATE coordinate }
{
    -MAX_COORDINATE <= coordinate && coordinate <= MAX_COORDINATE
}

/// Whether the point is.
fn is_near(point: &Point) -> bool
    ensures { result ≡ in_limits point.now }
{
    is_within(point.x) && is_within(point.y)
}

/// Whether all points are.
fn are_near(points: &[Point]) -> bool
    ensures { result ≡ list_all in_limits points.now }
{
    points.iter().all(|point| is_near(point))
}

/// The map after a cut along these points: two at least, within the limits.
fn cut(
    alloc: Global,
    base: &Base,
    face: u32,
    class: u32,
    points: &List<Point>,
) -> Result<Base, Or<Cause>> {
    if points.len() < 2 || !are_near(points.as_slice()) {
        return Err(Or::Memory);
    }
    cut_face(alloc, base, face, class, points)
}

/// The map after a cut along the points with these coordinates.
fn cut_along(
    alloc: Global,
    base: &Base,
    face: u32,
    class: u32,
    coordinates: &[i64],
) -> Result<Base, Or<Cause>> {
    let points = points_of(alloc, coordinates)?;
    cut(alloc, base, face, class, &points)
}

/// The map after an edit, by its call.
fn edited(alloc: Global, base: &Base, edit: Edit<'_>) -> Result<Base, Or<Cause>> {
    match edit {
        Edit::Node(x, y) => add_node(alloc, base, Point { x, y }),
        Edit::Cut(face, class, coordinates) => cut_along(alloc, base, face, class, coordinates),
        Edit::Fuse(kept, gone) => fuse_faces(alloc, base, kept, gone),
    }
}

/// The map in a box, so that who holds it holds one part: the proof of its moves is short then.
fn boxed(alloc: Global, base: Base) -> Result<Box<Base>, Memory> {
    Ok(Box::new(alloc, base)?)
}

/// The map after an edit.
fn after(alloc: Global, base: &Base, edit: Edit<'_>) -> Result<Box<Base>, Or<Cause>> {
    Ok(boxed(alloc, edited(alloc, base, edit)?)?)
}

/// The map after edits, one after the other, or the refusal of the first that is refused.
fn after_all(alloc: Global, rows: Rows<'_>, edits: &[Edit<'_>]) -> Result<Box<Base>, Or<Cause>> {
    let mut base = base_of(alloc, rows)?;
    for edit in edits {
        base = after(alloc, &base, *edit)?;
    }
    Ok(base)
}

/// Whether the arc is that of the row.
fn is_arc(arc: &BaseArc, row: &[i64]) -> bool {
    let [left, right, coordinates @ ..] = row else {
        return false;
    };
    let points = arc.points.as_slice();
    if i64::from(arc.left) != *left
        || i64::from(arc.right) != *right
        || coordinates.len() / 2 != points.len()
    {
        return false;
    }
    for place in 0..points.len() {
        if points[place].x != coordinates[2 * place]
            || points[place].y != coordinates[2 * place + 1]
        {
            return false;
        }
    }
    true
}

/// Whether the arcs are those of the rows.
fn are_arcs(arcs: &[BaseArc], rows: &[&[i64]]) -> bool {
    if arcs.len() != rows.len() {
        return false;
    }
    for number in 0..arcs.len() {
        if !is_arc(&arcs[number], rows[number]) {
            return false;
        }
    }
    true
}

/// Whether the map has the rules and the transform of the maps.
fn has_rules(base: &Base) -> bool {
    let rules = base.rules();
    rules.ratio == 16
        && rules.weights.as_slice() == [3, 2, 1].as_slice()
        && rules.compat.as_slice() == [1, 2, 3, 4, 5, 6, 7, 8, 9].as_slice()
        && *base.transform() == transform()
}

/// Whether the map is that of the rows.
fn is_map(base: &Base, rows: Rows<'_>) -> bool {
    has_rules(base)
        && base.classes().as_slice() == rows.classes
        && are_arcs(base.arcs().as_slice(), rows.arcs)
}

/// Whether edits of a map, one after the other, give the outcome.
pub fn gives(
    alloc: Global,
    rows: Rows<'_>,
    edits: &[Edit<'_>],
    outcome: Outcome<'_>,
) -> Result<bool, Memory> {
    match (after_all(alloc, rows, edits), outcome) {
        (Ok(base), Outcome::Gives(wanted)) => Ok(is_map(&base, wanted)),
        (Err(Or::Fault(cause)), Outcome::Refused(number)) => Ok(cause.number == number),
        (Err(Or::Memory), _) => Err(Memory),
        _ => Ok(false),
    }
}

/// How many faces, arcs and points a map has.
fn counts_of(base: &Base) -> (usize, usize, usize) {
    let mut points: usize = 0;
    for arc in base.arcs().as_slice() {
        points = points.saturating_add(arc.points.len());
    }
    (base.classes().len(), base.arcs().len(), points)
}

/// How many faces, arcs and points a map has after an edit, or the cause for which it is refused.
pub fn counts_after(
    alloc: Global,
    base: &Base,
    edit: Edit<'_>,
) -> Result<Result<(usize, usize, usize), u8>, Memory> {
    match after(alloc, base, edit) {
        Ok(base) => Ok(Ok(counts_of(&base))),
        Err(Or::Fault(cause)) => Ok(Err(cause.number)),
        Err(Or::Memory) => Err(Memory),
    }
}
