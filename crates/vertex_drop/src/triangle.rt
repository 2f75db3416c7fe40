//! Whether a triangle is clear of segments.

ghost use Rattle.std.specs.Prelude.{◌≡◌, All};
ghost use Rattle.std.specs.List.{list_all};
ghost use Rattle.tgap_model.specs.Clear.{is_clear};
ghost use Rattle.tgap_model.specs.Removals.{path};
ghost use Rattle.point_rope.specs.Held.{IsNearPoint};
ghost use Rattle.vertex_drop.specs.Held.{IsNearSegment};
ghost use Rattle.vertex_drop.specs.Outside.{IsTriangle};

use crate::bounds::is_outside;
use grid_geo::clear_of;
use tgap_model::{Point, Seg, Window};

/// Three points that are not on one line, and a box that holds them.
#[derive(Clone, Copy)]
pub struct Triangle {
    pub a: Point,
    pub b: Point,
    pub c: Point,
    pub bounds: Window,
}

/// Whether the triangle is clear of the segment.
fn is_segment_clear(t: &Triangle, s: Seg) -> bool
    requires triangle { IsTriangle t.now }
    requires segment { IsNearSegment s }
    ensures { result ≡ is_clear t.now.a t.now.b t.now.c s }
{
    is_outside(&s, &t.bounds) || clear_of(t.a, t.b, t.c, s)
}

/// Whether the triangle is clear of each of some segments.
pub fn are_segments_clear(t: &Triangle, segments: &[Seg]) -> bool
    requires triangle { IsTriangle t.now }
    requires segments { All IsNearSegment segments.now }
    ensures { result ≡ list_all (is_clear t.now.a t.now.b t.now.c) segments.now }
{
    for s in segments {
        if !is_segment_clear(t, *s) {
            return false;
        }
    }
    true
}

/// Whether the triangle is clear of each segment of a row of points.
pub fn is_path_clear(t: &Triangle, points: &[Point]) -> bool
    requires triangle { IsTriangle t.now }
    requires points { All IsNearPoint points.now }
    ensures { result ≡ list_all (is_clear t.now.a t.now.b t.now.c) (path points.now) }
{
    for i in 1..points.len() {
        let s = Seg {
            a: points[i - 1],
            b: points[i],
        };
        if !is_segment_clear(t, s) {
            return false;
        }
    }
    true
}
