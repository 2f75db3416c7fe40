//! Laws of what a client draws: which face lies at a point, told by the edges of a window alone; what the windows of several areas make
//! together; the areas of the faces of a slice, and the points that their rings enclose, or the polygons that they are exported as;
//! and how the areas of rings follow which points they go round. The functions do nothing: the contract of
//! each is a law, which is proved with the crate. It stands on `tgap_model`, whose definitions the laws are about, on the laws of
//! slices, of their windows and of the vertex removal, and on the rings that an export writes and their laws.
#![tactic(auto)]

mod areas;
mod joining;
mod places;
mod polygons;
mod rings;

pub use areas::{
    areas_less_triangles, base_areas_add, faces_stay_near, removal_moves_triangle,
    sweep_moves_triangles,
};
pub use joining::{refined_windows_join, windows_join};
pub use places::{
    lowest_edge_tells_face, lowest_edge_tells_face_beside, window_has_edges_within,
    window_has_lowest_edge, window_tells_face,
};
pub use polygons::{one_polygon_is_its_face, polygons_cover_faces, polygons_wind_once};
pub use rings::{
    ring_areas_add, ring_areas_follow_winding, ring_areas_grow, rings_apart_pass, rings_are_closed,
    rings_cover_faces, rings_of_face_pass, rings_pass_edges, rings_wind_alike, rings_wind_once,
};
