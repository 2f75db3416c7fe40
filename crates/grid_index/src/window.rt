//! Boxes: which meet, and which one holds others.

ghost use Rattle.std.specs.Prelude.{◌≡◌, ◌<◌, length, All};
ghost use Rattle.grid_index.specs.Boxes.{overlap, meets, Covers, segment_box};

use tgap_model::{Point, Window};

/// Whether two closed boxes have an abscissa in common.
fn overlap_in_x(a: &Window, b: &Window) -> bool
    ensures { result ≡ overlap a.now.x0 a.now.x1 b.now.x0 b.now.x1 }
{
    a.x0 <= b.x1 && b.x0 <= a.x1
}

/// Whether two closed boxes have an ordinate in common.
fn overlap_in_y(a: &Window, b: &Window) -> bool
    ensures { result ≡ overlap a.now.y0 a.now.y1 b.now.y0 b.now.y1 }
{
    a.y0 <= b.y1 && b.y0 <= a.y1
}

/// Whether two closed boxes have a point in common.
pub fn meets(a: &Window, b: &Window) -> bool
    ensures { result ≡ meets a.now b.now }
{
    overlap_in_x(a, b) && overlap_in_y(a, b)
}

/// The bounding box of a segment.
pub fn segment_box(a: &Point, b: &Point) -> Window
    ensures { result ≡ segment_box a.now b.now }
{
    Window {
        x0: a.x.min(b.x),
        y0: a.y.min(b.y),
        x1: a.x.max(b.x),
        y1: a.y.max(b.y),
    }
}

/// The least box that holds two boxes.
fn hull_of_two(a: &Window, b: &Window) -> Window
    ensures first { Covers result a.now }
    ensures second { Covers result b.now }
{
    Window {
        x0: a.x0.min(b.x0),
        y0: a.y0.min(b.y0),
        x1: a.x1.max(b.x1),
        y1: a.y1.max(b.y1),
    }
}

/// The least box that holds these boxes, of which there is one at least.
pub fn hull(boxes: &[Window]) -> Window
    requires { 0 < length boxes.now }
    ensures { All (Covers result) boxes.now }
{
    let mut all = boxes[0];
    for b in boxes {
        all = hull_of_two(&all, b);
    }
    all
}
