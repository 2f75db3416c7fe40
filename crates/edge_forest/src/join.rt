//! A join at a node of degree two: two edges become one.

ghost use Rattle.std.specs.Prelude.{◌≡◌, ℕ, false, ◌<◌, ◌≤◌, ◌+◌, ◌-◌, ◌^◌, [], length, set};
ghost use Rattle.std.specs.Vec.{vec_capacity, vec_len};
ghost use Rattle.edge_forest.specs.Edges.{edge_at};
ghost use Rattle.edge_forest.specs.Forest.{never};
ghost use Rattle.edge_forest.specs.Continued.{AreContinued, AreJoined};
ghost use Rattle.edge_forest.specs.Growth.{IsStored, IsJoinedAt, meeting_parts, ended};

use crate::edge::{ForestEdge, Part};
use crate::growth::{Growth, NEVER};
use crate::net::{Current, Meeting};
use tgap_model::List;

/// An edge as a part of another.
fn edge_part(row: Current, turned: bool) -> Part
    ensures { result ≡ record { leaf = false; id = row.id; turned = turned } }
{
    Part {
        leaf: false,
        id: row.id,
        turned,
    }
}

/// The parts of the edge that two become, in the direction of the first. There is room for two.
fn joined_parts(meeting: Meeting, mut room: Vec<Part>) -> List<Part>
    requires empty { room.items ≡ [] }
    requires room { 2 ≤ vec_capacity room }
    ensures { result ≡ meeting_parts meeting }
{
    if meeting.one_ends {
        room.push_reserved(edge_part(meeting.one, false));
        room.push_reserved(edge_part(meeting.other, meeting.other_ends));
    } else {
        room.push_reserved(edge_part(meeting.other, !meeting.other_ends));
        room.push_reserved(edge_part(meeting.one, false));
    }
    List::from(room)
}

/// Ends an edge at a step.
pub fn end_edge(edges: &mut Vec<ForestEdge>, id: u32, high: u32)
    requires { id < length edges.old.items }
    ensures edges { edges.new.items ≡ set edges.old.items id (ended high (edge_at edges.old.items id)) }
    ensures len { vec_len edges.new ≡ vec_len edges.old }
    ensures capacity { vec_capacity edges.new ≡ vec_capacity edges.old }
{
    edges[id as usize].high = high;
}

/// Joins the two edges that end at a node into one, while step `low` is made; does nothing where all that end there are
/// one.
pub fn join(growth: &mut Growth, node: u32, low: u32, room: Vec<Part>)
    requires stored { IsStored low growth.old }
    requires low { low < never }
    requires node { node < length growth.old.nodes.places.items }
    requires empty { room.items ≡ [] }
    requires room { 2 ≤ vec_capacity room }
    requires edges { vec_len growth.old.edges < vec_capacity growth.old.edges }
    requires few { length growth.old.edges.items < 2 ^ 32 - 1 }
    ensures stored { IsStored low growth.new }
    ensures joined { IsJoinedAt growth.old node growth.new }
    ensures continued { AreContinued growth.old.edges.items growth.new.edges.items }
    ensures parts { (first : ℕ) → first ≤ length growth.old.edges.items → AreJoined low first growth.old.edges.items → AreJoined low first growth.new.edges.items }
    ensures capacity { vec_capacity growth.new.edges ≡ vec_capacity growth.old.edges }
    ensures count { vec_len growth.new.edges ≤ vec_len growth.old.edges + 1 }
{
    let Some(meeting) = growth.net.meeting(&growth.nodes, node) else {
        return;
    };
    let id = growth.edges.len() as u32;
    growth.net.join(&growth.nodes, meeting, id);
    end_edge(&mut growth.edges, meeting.one.id, low);
    end_edge(&mut growth.edges, meeting.other.id, low);
    growth.edges.push_reserved(ForestEdge {
        key: meeting.key,
        low,
        high: NEVER,
        left: growth.labels.face(meeting.one.left),
        right: growth.labels.face(meeting.one.right),
        parts: joined_parts(meeting, room),
    });
}
