//! The outer ring in which an inner one lies.

ghost use Rattle.std.specs.Prelude.{◌≡◌};
ghost use Rattle.topo_write.specs.Polygons.{nearer};

/// An outer ring of a face, by its place among these, with twice its area.
#[derive(Clone, Copy)]
pub struct Home {
    pub place: u32,
    pub area: i128,
}

/// Of an outer ring that was found and one that is found later, the one of less area, or else the first.
pub fn nearer(found: Option<Home>, home: Home) -> Home
    ensures { result ≡ nearer found home }
{
    match found {
        Some(first) if home.area >= first.area => first,
        _ => home,
    }
}
