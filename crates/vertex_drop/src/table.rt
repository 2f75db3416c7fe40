//! The edges that a sweep reads, by key, with a look-up of their segments.

ghost use Rattle.std.specs.Prelude.{◌≡◌, ◌≢◌, ◌<◌, ℕ, List as Sequence, Some, None, length, get_or, All, AllPairs, IfSome, IfNone, IfOk};
ghost use Rattle.tgap_model.specs.declared.slice.Edge.{Edge as Line};
ghost use Rattle.grid_index.specs.Live.{near_segments, AreLive};
ghost use Rattle.grid_index.specs.Slots.{edge_at};

use grid_index::{Live, SegmentPlace};
use point_rope::EdgeRow;
use std::alloc::Global;
use tgap_model::{Edge, List, Memory, Window};

/// Edges that are live, by key, with a look-up of their segments.
pub trait LiveTable {
    /// The edges, in order of key.
    ghost edges: { Self → Sequence Line };

    /// The edge with this key, if there is one.
    fn row(&self, key: u32) -> Option<EdgeRow<'_>>
        ensures some { (j : ℕ) (d : Line) → j < length (edges self.now) → (get_or (edges self.now) j d).key ≡ key
            → result ≡ Some (get_or (edges self.now) j d) }
        ensures none { All (λ e. e.key ≢ key) (edges self.now) → result ≡ None }
        ensures live { AreLive (edges self.now) };

    /// The segments whose boxes meet a closed window, each once, in order of key and place.
    fn near(&self, alloc: Global, area: Window) -> Result<List<SegmentPlace>, Memory>
        ensures near { IfOk result (λ places. places ≡ near_segments area (edges self.now)) }
        ensures live { AreLive (edges self.now) };
}

/// The place of the edge with this key among edges whose keys ascend.
fn place_of(edges: &[Edge], key: u32) -> Option<usize>
    requires { AllPairs (λ e f. e.key < f.key) edges.now }
    ensures some { IfSome result (λ i. (i < length edges.now) × ((edge_at edges.now i).key ≡ key)) }
    ensures none { IfNone result (All (λ e. e.key ≢ key) edges.now) }
{
    match edges.binary_search_by_key(&key, |edge| edge.key) {
        Ok(place) => Some(place),
        Err(_) => None,
    }
}

impl LiveTable for Live {
    ghost edges = { λ live. live };

    fn row(&self, key: u32) -> Option<EdgeRow<'_>> {
        let edges = self.edges().as_slice();
        match place_of(edges, key) {
            Some(place) => Some(EdgeRow::of_edge(&edges[place])),
            None => None,
        }
    }

    fn near(&self, alloc: Global, area: Window) -> Result<List<SegmentPlace>, Memory> {
        // The look at the edges, which costs nothing, tells that they are live.
        let _ = self.edges();
        self.near(alloc, area)
    }
}
