//! Which rules, classes and arcs keep the form and the limits of a base map.

ghost use Rattle.std.specs.Prelude.{◌≡◌, ◌&&◌, neg_ℤ, nat_le, nat_lt, length};
ghost use Rattle.std.specs.List.{list_all};
ghost use Rattle.tgap_model.specs.Parts.{are_parts};
ghost use Rattle.tgap_model.specs.Base.{is_rules, is_arc, within, in_limits, no_repeat, count_points};

use crate::base::{BaseArc, Rules};
use crate::geometry::Point;
use crate::limits::{
    MAX_ARCS, MAX_CLASSES, MAX_COMPATIBILITY, MAX_COORDINATE, MAX_FACES, MAX_POINTS, MAX_RATIO,
    MAX_WEIGHT,
};

/// Whether each weight is from 1 to the limit.
fn are_weights(weights: &[u32]) -> bool
    ensures { result ≡ list_all (λ w. nat_le 1 w && nat_le w MAX_WEIGHT) weights.now }
{
    weights.iter().all(|w| 1 <= *w && *w <= MAX_WEIGHT)
}

/// Whether each compatibility is within its limit.
fn are_compatibilities(compat: &[u32]) -> bool
    ensures { result ≡ list_all (λ v. nat_le v MAX_COMPATIBILITY) compat.now }
{
    compat.iter().all(|v| *v <= MAX_COMPATIBILITY)
}

/// Whether the rules have from 1 to 256 classes, a weight of each and a compatibility of each with each,
/// all of them within their limits.
#[tactic(auto, unfolding(crate::specs::Base::is_rules))]
fn are_rules(rules: &Rules) -> bool
    ensures { result ≡ is_rules rules.now }
{
    let classes = rules.weights.len();
    1 <= classes
        && classes <= MAX_CLASSES
        && are_weights(rules.weights.as_slice())
        && rules.compat.len() == classes * classes
        && are_compatibilities(rules.compat.as_slice())
        && rules.ratio <= MAX_RATIO
}

/// Whether each class is below the number of classes.
fn are_below(classes: &[u32], count: usize) -> bool
    ensures { result ≡ list_all (λ k. nat_lt k count) classes.now }
{
    classes.iter().all(|k| (*k as usize) < count)
}

/// Whether there are no more faces than the limit, and the class of each is below the number of classes.
fn are_classes(classes: &[u32], count: usize) -> bool
    ensures { result ≡ (nat_le (length classes.now) MAX_FACES && list_all (λ k. nat_lt k count) classes.now) }
{
    classes.len() <= MAX_FACES && are_below(classes, count)
}

/// Whether a coordinate is within the limits.
fn is_coordinate(z: i64) -> bool
    ensures { result ≡ within (neg_ℤ MAX_COORDINATE) MAX_COORDINATE z }
{
    -MAX_COORDINATE <= z && z <= MAX_COORDINATE
}

/// Whether both coordinates of each point are within the limits.
fn are_in_limits(points: &[Point]) -> bool
    ensures { result ≡ list_all in_limits points.now }
{
    points
        .iter()
        .all(|p| is_coordinate(p.x) && is_coordinate(p.y))
}

/// Whether no two points in a row are one.
pub fn are_without_repeat(points: &[Point]) -> bool
    ensures { result ≡ no_repeat points.now }
{
    for i in 1..points.len() {
        if points[i - 1] == points[i] {
            return false;
        }
    }
    true
}

/// Whether this is an arc of a map with so many faces: two different faces at its sides, and two or more points within
/// the limits, each other than the one before it.
#[tactic(auto, unfolding(crate::specs::Base::is_arc))]
fn is_valid_arc(faces: usize, arc: &BaseArc) -> bool
    ensures { result ≡ is_arc faces arc.now }
{
    let points = arc.points.as_slice();
    arc.left as usize <= faces
        && arc.right as usize <= faces
        && arc.left != arc.right
        && 2 <= points.len()
        && are_in_limits(points)
        && are_without_repeat(points)
}

/// Whether all arcs have no more points than the limit.
fn are_points_within_limit(arcs: &[BaseArc]) -> bool
    ensures { result ≡ nat_le (count_points arcs.now) MAX_POINTS }
{
    let mut remaining = MAX_POINTS;
    for arc in arcs {
        if arc.points.len() > remaining {
            return false;
        }
        remaining -= arc.points.len();
    }
    true
}

/// Whether each is an arc of a map with so many faces.
fn are_valid_arcs(faces: usize, arcs: &[BaseArc]) -> bool
    ensures { result ≡ list_all (is_arc faces) arcs.now }
{
    arcs.iter().all(|arc| is_valid_arc(faces, arc))
}

/// Whether arcs and points are no more than their limits, and each is an arc of a map with so many faces.
fn are_arcs(faces: usize, arcs: &[BaseArc]) -> bool
    ensures { result ≡ (nat_le (length arcs.now) MAX_ARCS && nat_le (count_points arcs.now) MAX_POINTS && list_all (is_arc faces) arcs.now) }
{
    arcs.len() <= MAX_ARCS && are_points_within_limit(arcs) && are_valid_arcs(faces, arcs)
}

/// Whether the rules, classes and arcs have their form and keep to the limits.
#[tactic(auto, unfolding(crate::specs::Parts::are_parts))]
pub fn are_parts(rules: &Rules, classes: &[u32], arcs: &[BaseArc]) -> bool
    ensures { result ≡ are_parts rules.now classes.now arcs.now }
{
    are_rules(rules) && are_classes(classes, rules.weights.len()) && are_arcs(classes.len(), arcs)
}
