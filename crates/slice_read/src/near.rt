//! Which edges of the forest a window of a slice may have.

ghost use Rattle.std.specs.Prelude.{◌≡◌, ◌<◌, ◌≤◌, true, filter, length, All, IsPermutation, IfOk};
ghost use Rattle.grid_index.specs.Boxes.{meets};
ghost use Rattle.grid_index.specs.Near.{near_boxes};
ghost use Rattle.grid_index.specs.Picked.{box_at};
ghost use Rattle.edge_forest.specs.Edges.{edge_at, is_alive};
ghost use Rattle.edge_forest.specs.Forest.{last_step};
ghost use Rattle.tgap_build.specs.Boxes.{boxes_of};

use crate::ends::ids_at;
use edge_forest::Forest;
use grid_index::EdgeBoxes;
use std::alloc::Global;
use std::marker::Brand;
use std::sync::ledger::Blank;
use tgap_build::BoxedForest;
use tgap_model::{List, Memory, Window};

/// Those of these edges of the forest whose range holds k.
fn alive_of(alloc: Global, forest: &Forest, ids: &[u32], k: u32) -> Result<List<u32>, Memory>
    requires { All (λ id. id < length forest.now.edges) ids.now }
    ensures { IfOk result (λ alive. alive ≡ filter (λ i. is_alive k (edge_at forest.now.edges i)) ids.now) }
{
    let mut alive = List::new(alloc);
    for id in ids {
        if forest.is_alive(*id, k) {
            alive.push(*id)?;
        }
    }
    Ok(alive)
}

/// Those of these edges whose box meets the window.
fn met_of(alloc: Global, boxes: &EdgeBoxes, ids: &[u32], area: &Window) -> Result<List<u32>, Memory>
    requires { All (λ id. id < length boxes.now) ids.now }
    ensures { IfOk result (λ met. met ≡ filter (λ i. meets area.now (box_at boxes.now i)) ids.now) }
{
    let mut met = List::new(alloc);
    for id in ids {
        if boxes.is_near(*id, area) {
            met.push(*id)?;
        }
    }
    Ok(met)
}

/// The edges that are there after k steps and of which the box of all points meets the window, in no told order. They
/// are looked up by their boxes among the edges of all steps; where more than `most` of those meet the window, they are
/// looked up by their ranges. Where `most` is as many as the faces after k steps, the time is at most a few times that of
/// the fewer of both.
pub fn ids_near(
    alloc: Global,
    boxed: &BoxedForest,
    area: &Window,
    k: u32,
    most: usize,
) -> Result<List<u32>, Memory>
    requires closed { boxed.now.closed ≡ true }
    requires step { k ≤ last_step boxed.now }
    ensures { IfOk result (λ ids. IsPermutation (filter (λ i. is_alive k (edge_at boxed.now.edges i)) (near_boxes area.now (boxes_of boxed.now))) ids) }
{
    let forest = boxed.forest();
    let boxes = boxed.boxes();
    let found = boxes.meeting(alloc, *area, most)?;
    match found {
        Some(near) => alive_of(alloc, forest, near.as_slice(), k),
        None => {
            let there = ids_at::<Brand>(alloc, forest, k, Blank::new(1))?;
            met_of(alloc, boxes, there.as_slice(), area)
        }
    }
}
