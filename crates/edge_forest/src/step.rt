//! A step of the history.

ghost use Rattle.std.specs.Prelude.{◌≡◌, ◌<◌, ◌≤◌, ◌-◌, [], length, IfOk, OnOk, OnErr};
ghost use Rattle.std.specs.List.{All};
ghost use Rattle.std.specs.Vec.{vec_capacity};
ghost use Rattle.tgap_model.specs.History.{history_of};
ghost use Rattle.tgap_model.specs.Merged.{merged, step_number};
ghost use Rattle.edge_forest.specs.Continued.{AreContinued, AreJoined};
ghost use Rattle.edge_forest.specs.Growth.{IsAtRest, IsFew, IsKeptAs};

use crate::edge::Part;
use crate::growth::Growth;
use crate::joints::{join_all, joints_of};
use crate::keys::{keys_with, list_keys};
use crate::settle::{count_ending, settle};
use crate::start::start;
use std::alloc::Global;
use tgap_model::{Checked, Memory, MergeStep};

/// So many lists of parts that have room for two.
fn rooms_for(alloc: Global, count: usize) -> Result<Vec<Vec<Part>>, Memory>
    ensures count { IfOk result (λ rooms. length rooms.items ≡ count) }
    ensures empty { IfOk result (λ rooms. All (λ room. room.items ≡ []) rooms.items) }
    ensures room { IfOk result (λ rooms. All (λ room. 2 ≤ vec_capacity room) rooms.items) }
{
    let mut rooms = Vec::with_capacity(alloc, count)?;
    for _ in 0..count {
        rooms.push(Vec::with_capacity(alloc, 2)?)?;
    }
    Ok(rooms)
}

/// Makes step number `low`. Nothing is changed until all memory is at hand.
pub fn make_step(
    alloc: Global,
    growth: &mut Growth,
    step: &MergeStep,
    low: u32,
) -> Result<(), Memory>
    requires step { (0 < low) × (low ≤ length (history_of growth.old.base)) }
    requires next { step.now ≡ step_number (merged growth.old.base) low }
    requires rest { IsAtRest (low - 1) growth.old }
    requires few { IsFew growth.old }
    ensures rest { OnOk result (IsAtRest low growth.new) }
    ensures few { OnOk result (IsFew growth.new) }
    ensures base { OnOk result (growth.new.base ≡ growth.old.base) }
    ensures continued { OnOk result (AreContinued growth.old.edges.items growth.new.edges.items) }
    ensures parts { OnOk result (AreJoined low (length growth.old.edges.items) growth.new.edges.items) }
    ensures err { OnErr result (IsKeptAs growth.old growth.new) }
{
    let sides = growth.labels.sides(step);
    let keys = keys_with(alloc, growth, sides.loser)?;
    let ending = count_ending(&growth.net, sides, keys.as_slice());
    let mut touched = Vec::with_capacity(alloc, 2 * ending)?;
    let rooms = rooms_for(alloc, 2 * ending)?;
    growth.edges.reserve(2 * ending)?;
    list_keys(&mut growth.keys, sides.winner, keys.as_slice())?;
    settle(growth, step, low, keys.as_slice(), &mut touched);
    let joints = joints_of(growth.net.counts.as_slice(), touched);
    join_all(growth, joints.as_slice(), low, rooms);
    Ok(())
}

/// The forest of a base map before its first step.
pub fn grown(alloc: Global, checked: Checked) -> Result<Growth, Memory>
    ensures base { IfOk result (λ growth. growth.base ≡ checked) }
    ensures rest { IfOk result (λ growth. IsAtRest 0 growth) }
    ensures few { IfOk result (λ growth. IsFew growth) }
{
    let mut growth = start(alloc, checked)?;
    let nodes = Vec::from_slice(alloc, growth.nodes.node_of.as_slice())?;
    let joints = joints_of(growth.net.counts.as_slice(), nodes);
    let rooms = rooms_for(alloc, joints.len())?;
    growth.edges.reserve(joints.len())?;
    join_all(&mut growth, joints.as_slice(), 0, rooms);
    Ok(growth)
}
