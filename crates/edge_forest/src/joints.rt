//! The joints of a step, and the joins there.

ghost use Rattle.std.specs.Prelude.{◌≡◌, ◌<◌, ◌≤◌, ◌↔◌, ◌+◌, ◌-◌, ◌^◌, ◌==◌, ℕ, [], length, get_or, Contains};
ghost use Rattle.std.specs.List.{All};
ghost use Rattle.std.specs.Vec.{vec_capacity, vec_len};
ghost use Rattle.std.specs.List.Sorted.{IsStrictlyIncreasing};
ghost use Rattle.edge_forest.specs.Forest.{never};
ghost use Rattle.edge_forest.specs.Continued.{AreContinued, AreJoined};
ghost use Rattle.edge_forest.specs.Growth.{IsStored, IsJoinedInTurn, IsFew};

use crate::edge::Part;
use crate::growth::Growth;
use crate::join::join;

/// Whether two arc ends are left at a node.
fn has_two(counts: &[u32], node: u32) -> bool
    ensures { result ≡ (get_or counts.now node 0 == 2) }
{
    counts.get(node as usize) == Some(&2)
}

/// Those of the touched nodes at which two arc ends are left, in ascending order, each once.
pub fn joints_of(counts: &[u32], mut touched: Vec<u32>) -> Vec<u32>
    ensures ascend { IsStrictlyIncreasing result.items }
    ensures members { (n : ℕ) → Contains result.items n ↔ (Contains touched.items n × (get_or counts.now n 0 ≡ 2)) }
    ensures count { length result.items ≤ length touched.items }
{
    touched.sort_unstable();
    touched.dedup();
    touched.retain(|n| has_two(counts, *n));
    touched
}

/// Joins at one node after the other, while step `low` is made. There is a room for the parts of each new edge.
pub fn join_all(growth: &mut Growth, joints: &[u32], low: u32, mut rooms: Vec<Vec<Part>>)
    requires stored { IsStored low growth.old }
    requires low { low < never }
    requires nodes { All (λ n. n < length growth.old.nodes.places.items) joints.now }
    requires rooms { length joints.now ≤ length rooms.items }
    requires empty { All (λ room. room.items ≡ []) rooms.items }
    requires room { All (λ room. 2 ≤ vec_capacity room) rooms.items }
    requires edges { vec_len growth.old.edges + length joints.now ≤ vec_capacity growth.old.edges }
    requires few { IsFew growth.old }
    ensures stored { IsStored low growth.new }
    ensures joined { IsJoinedInTurn low growth.old joints.now growth.new }
    ensures continued { AreContinued growth.old.edges.items growth.new.edges.items }
    ensures parts { AreJoined low (length growth.old.edges.items) growth.new.edges.items }
    ensures few { IsFew growth.new }
{
    for node in joints {
        let Some(room) = rooms.pop() else {
            return;
        };
        join(growth, *node, low, room);
    }
}
