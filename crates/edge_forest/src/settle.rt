//! The first part of a step: the edges between its loser and its winner end.

ghost use Rattle.std.specs.Prelude.{◌≡◌, ◌≢◌, ◌<◌, ◌≤◌, ◌+◌, ◌-◌, ◌*◌, ◌++◌, ℕ, [], Some, None, get_or, set, length, count_by, Contains};
ghost use Rattle.std.specs.Vec.{vec_capacity, vec_len};
ghost use Rattle.tgap_model.specs.History.{history_of};
ghost use Rattle.tgap_model.specs.Merged.{merged, step_number};
ghost use Rattle.edge_forest.specs.declared.net.Current.{Current};
ghost use Rattle.edge_forest.specs.FaceLabels.{label_of, sides_of};
ghost use Rattle.edge_forest.specs.Forest.{never};
ghost use Rattle.edge_forest.specs.Net.{IsNet, row_at};
ghost use Rattle.edge_forest.specs.Growth.{IsAtRest, IsStored, IsSettled, keys_at, keys_with, is_row_between, relabel_row, row_after};
ghost use Rattle.edge_forest.specs.Continued.{AreContinued};
ghost use Rattle.edge_forest.specs.Settle.{edges_after, nodes_after, is_ending, IsSettling};

use crate::face_labels::Sides;
use crate::growth::Growth;
use crate::keys::drop_keys;
use crate::net::{Current, Net};
use tgap_model::MergeStep;

/// The edge with this key that has not ended, if there is one.
fn row_at(net: &Net, key: u32) -> Option<Current>
    ensures { result ≡ row_at net.now.rows.items key }
{
    *net.rows.get(key as usize)?
}

/// Whether the edge is one between the loser and the winner.
fn is_between(sides: Sides, row: Current) -> bool
    ensures { result ≡ is_row_between sides row }
{
    (row.left == sides.loser && row.right == sides.winner)
        || (row.left == sides.winner && row.right == sides.loser)
}

/// How many of these keys are those of edges between the loser and the winner.
pub fn count_ending(net: &Net, sides: Sides, keys: &[u32]) -> usize
    ensures { result ≡ count_by (is_ending sides net.now.rows.items) keys.now }
{
    let mut count = 0;
    for key in keys {
        if is_ending(net, sides, *key) {
            count += 1;
        }
    }
    count
}

/// Whether the key is that of an edge between the loser and the winner.
fn is_ending(net: &Net, sides: Sides, key: u32) -> bool
    ensures { result ≡ is_ending sides net.now.rows.items key }
{
    match row_at(net, key) {
        Some(row) => is_between(sides, row),
        None => false,
    }
}

/// Gives the edge with this key its labels after the step.
fn relabel(net: &mut Net, sides: Sides, key: u32, row: Current)
    requires { get_or net.old.rows.items key None ≡ Some row }
    ensures rows { net.new.rows.items ≡ set net.old.rows.items key (Some (relabel_row sides row)) }
    ensures ends { net.new.ends ≡ net.old.ends }
    ensures counts { net.new.counts ≡ net.old.counts }
{
    net.rows[key as usize] = Some(Current {
        left: sides.moved(row.left),
        right: sides.moved(row.right),
        ..row
    });
}

/// Visits one key: its edge ends where it is between the loser and the winner, and the nodes at its ends are collected;
/// otherwise it gets its labels after the step. Where no edge has the key any more nothing changes.
fn settle_key(growth: &mut Growth, sides: Sides, low: u32, key: u32, touched: &mut Vec<u32>)
    requires net { IsNet growth.old.nodes growth.old.net }
    requires edge { (r : Current) → row_at growth.old.net.rows.items key ≡ Some r → r.id < length growth.old.edges.items }
    requires room { length touched.old.items + length (nodes_after sides growth.old.nodes (row_at growth.old.net.rows.items key)) ≤ vec_capacity touched.old }
    ensures base { growth.new.base ≡ growth.old.base }
    ensures nodes { growth.new.nodes ≡ growth.old.nodes }
    ensures labels { growth.new.labels ≡ growth.old.labels }
    ensures keys { growth.new.keys ≡ growth.old.keys }
    ensures net { IsNet growth.new.nodes growth.new.net }
    ensures rows { growth.new.net.rows.items ≡ set growth.old.net.rows.items key (row_after sides (row_at growth.old.net.rows.items key)) }
    ensures edges { growth.new.edges.items ≡ edges_after sides low (row_at growth.old.net.rows.items key) growth.old.edges.items }
    ensures touched { touched.new.items ≡ touched.old.items ++ nodes_after sides growth.old.nodes (row_at growth.old.net.rows.items key) }
    ensures capacity { vec_capacity touched.new ≡ vec_capacity touched.old }
    ensures edges_capacity { vec_capacity growth.new.edges ≡ vec_capacity growth.old.edges }
    ensures edges_count { vec_len growth.new.edges ≡ vec_len growth.old.edges }
{
    let Some(row) = row_at(&growth.net, key) else {
        return;
    };
    if is_between(sides, row) {
        growth.net.take_out(&growth.nodes, key, row);
        growth.edges[row.id as usize].high = low;
        touched.push_reserved(growth.nodes.at(row.first));
        touched.push_reserved(growth.nodes.at(row.last));
    } else {
        relabel(&mut growth.net, sides, key, row);
    }
}

/// Visits each key of a list.
fn settle_keys(growth: &mut Growth, sides: Sides, low: u32, keys: &[u32], touched: &mut Vec<u32>)
    requires stored { IsStored (low - 1) growth.old }
    requires low { low < never }
    requires apart { sides.winner ≢ sides.loser }
    requires room { (touched.old.items ≡ []) × (2 * count_by (is_ending sides growth.old.net.rows.items) keys.now ≤ vec_capacity touched.old) }
    ensures base { growth.new.base ≡ growth.old.base }
    ensures nodes { growth.new.nodes ≡ growth.old.nodes }
    ensures labels { growth.new.labels ≡ growth.old.labels }
    ensures keys { growth.new.keys ≡ growth.old.keys }
    ensures net { IsNet growth.new.nodes growth.new.net }
    ensures settling { IsSettling sides low keys.now growth.old growth.new.net.rows.items growth.new.edges.items touched.new.items }
    ensures count { length touched.new.items ≤ 2 * count_by (is_ending sides growth.old.net.rows.items) keys.now }
    ensures edges_capacity { vec_capacity growth.new.edges ≡ vec_capacity growth.old.edges }
    ensures edges_count { vec_len growth.new.edges ≡ vec_len growth.old.edges }
{
    for key in keys {
        settle_key(growth, sides, low, *key, touched);
    }
}

/// Ends the edges between the loser and the winner at step number `low`, gives the loser's other edges the label of the winner,
/// which stands for the new face then, and collects the nodes at the ends of those that ended. The keys are those that are listed
/// for the loser, and the winner has them in its list already.
pub fn settle(growth: &mut Growth, step: &MergeStep, low: u32, keys: &[u32], touched: &mut Vec<u32>)
    requires step { (0 < low) × (low ≤ length (history_of growth.old.base)) }
    requires next { step.now ≡ step_number (merged growth.old.base) low }
    requires rest { IsAtRest (low - 1) growth.old }
    requires keys { keys.now ≡ keys_with growth.old (label_of growth.old.labels step.now.loser) }
    requires listed { (i : ℕ) → Contains keys.now i → Contains (keys_at growth.old.keys.items (label_of growth.old.labels step.now.winner)) i }
    requires room { (touched.old.items ≡ [])
        × (2 * count_by (is_ending (sides_of growth.old.labels step.now) growth.old.net.rows.items) keys.now ≤ vec_capacity touched.old) }
    ensures stored { IsStored low growth.new }
    ensures settled { IsSettled step.now growth.old growth.new touched.new.items }
    ensures continued { AreContinued growth.old.edges.items growth.new.edges.items }
    ensures count { length touched.new.items ≤ 2 * count_by (is_ending (sides_of growth.old.labels step.now) growth.old.net.rows.items) keys.now }
    ensures edges_capacity { vec_capacity growth.new.edges ≡ vec_capacity growth.old.edges }
    ensures edges_count { vec_len growth.new.edges ≡ vec_len growth.old.edges }
{
    let sides = growth.labels.sides(step);
    settle_keys(growth, sides, low, keys, touched);
    growth.labels.merge(step);
    drop_keys(&mut growth.keys, sides.loser);
}
