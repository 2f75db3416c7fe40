//! Refinement of what stands in a window of the plane: what leads from the window of a slice to that of the slice a step before.

use crate::geometry::Window;
use crate::list::List;
use crate::record::Mend;
use crate::slice::{Edge, FaceRow};

/// How a window of a slice is refined by one step: the new face becomes loser and winner again, edges that stand in the window
/// are mended, and edges and faces come that were not in it.
#[derive(Drop)]
pub struct WindowStep {
    pub step: u32,
    pub loser: u32,
    pub winner: u32,
    pub made: u32,
    pub faces: List<FaceRow>,
    pub mends: List<Mend>,
    pub comes: List<Edge>,
}

/// The records of a window for the steps from `from` down to `to + 1`.
#[derive(Drop)]
pub struct WindowPacket {
    pub from: u32,
    pub to: u32,
    pub area: Window,
    pub steps: List<WindowStep>,
}
