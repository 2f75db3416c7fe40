//! A topology and the rules of its classes, as they are read: before rings are followed and sides are taken.

use crate::base::{Rules, Transform};
use crate::geometry::Point;
use crate::list::List;
use crate::text::Text;

/// The rules of a rules file, with the names of the classes.
#[derive(Drop)]
pub struct NamedRules {
    /// The property of a geometry that names its class.
    pub property: Text,
    /// The name of each class, by its number.
    pub names: List<Text>,
    /// The class of a geometry that names none of them.
    pub default: u32,
    pub rules: Rules,
}

/// A polygon of a topology.
#[derive(Drop)]
pub struct RawPolygon {
    /// What its geometry has for the property that names classes: a text, or a whole number in decimals.
    pub kind: Option<Text>,
    /// How many rings the polygons before it have.
    pub first_ring: u32,
    /// The exterior ring and the holes. Each ring is a list of indexes: `i` names arc `i`, and a negative `i` names
    /// arc `-i - 1` from its last point to its first.
    pub rings: List<List<i64>>,
}

/// A topology as it is read: its arcs with absolute positions and without repeated ones, and its polygons.
#[derive(Drop)]
pub struct RawMap {
    pub transform: Transform,
    /// The points of each arc, in grid units.
    pub arcs: List<List<Point>>,
    /// The polygons in the order in which they are met.
    pub polygons: List<RawPolygon>,
}
