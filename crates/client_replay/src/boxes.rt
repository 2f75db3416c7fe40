//! Whether the bounding box of an edge meets a window of the plane.

ghost use Rattle.std.specs.Prelude.{◌≡◌, ◌&&◌, int_le};
ghost use Rattle.std.specs.List.{list_any};
ghost use Rattle.tgap_model.specs.Slice.{meets_window};

use tgap_model::{Edge, Point, Window};

/// Whether some point has an abscissa of the window or a lower one.
fn reaches_left(area: Window, points: &[Point]) -> bool
    ensures { result ≡ list_any (λ p. int_le p.x area.x1) points.now }
{
    points.iter().any(|point| point.x <= area.x1)
}

/// Whether some point has an abscissa of the window or a higher one.
fn reaches_right(area: Window, points: &[Point]) -> bool
    ensures { result ≡ list_any (λ p. int_le area.x0 p.x) points.now }
{
    points.iter().any(|point| area.x0 <= point.x)
}

/// Whether some point has an ordinate of the window or a lower one.
fn reaches_down(area: Window, points: &[Point]) -> bool
    ensures { result ≡ list_any (λ p. int_le p.y area.y1) points.now }
{
    points.iter().any(|point| point.y <= area.y1)
}

/// Whether some point has an ordinate of the window or a higher one.
fn reaches_up(area: Window, points: &[Point]) -> bool
    ensures { result ≡ list_any (λ p. int_le area.y0 p.y) points.now }
{
    points.iter().any(|point| area.y0 <= point.y)
}

/// Whether the abscissas of the points reach into those of the window.
fn meets_across(area: Window, points: &[Point]) -> bool
    ensures { result ≡ (list_any (λ p. int_le p.x area.x1) points.now && list_any (λ p. int_le area.x0 p.x) points.now) }
{
    reaches_left(area, points) && reaches_right(area, points)
}

/// Whether the ordinates of the points reach into those of the window.
fn meets_upright(area: Window, points: &[Point]) -> bool
    ensures { result ≡ (list_any (λ p. int_le p.y area.y1) points.now && list_any (λ p. int_le area.y0 p.y) points.now) }
{
    reaches_down(area, points) && reaches_up(area, points)
}

/// Whether the bounding box of the edge meets the window.
pub fn meets_window(area: Window, edge: &Edge) -> bool
    ensures { result ≡ meets_window area edge.now }
{
    let points = edge.points.as_slice();
    meets_across(area, points) && meets_upright(area, points)
}
