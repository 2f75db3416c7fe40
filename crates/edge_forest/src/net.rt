//! The edges that have not ended, by their keys, and where they end.

ghost use Rattle.std.specs.Prelude.{◌≡◌, ◌≢◌, ◌<◌, ◌≤◌, ◌+◌, ◌-◌, ◌^◌, length, get_or, set, None, Some, ℕ, IfSome, MatchOption};
ghost use Rattle.edge_forest.specs.declared.nodes.Nodes as NodeTable;
ghost use Rattle.edge_forest.specs.Net.{IsNet, IsAlone, IsMeeting, IsBesides, NoneBesides};
ghost use Rattle.edge_forest.specs.Nodes.{places_at};
ghost use Rattle.edge_forest.specs.Rows.{joined_row};
ghost use Rattle.std.specs.List.{All};

use crate::nodes::Nodes;

/// An edge that has not ended: its number, the arc ends at which it starts and ends, and the labels of the faces at its left
/// and right.
#[derive(Clone, Copy)]
pub struct Current {
    pub id: u32,
    pub first: u32,
    pub last: u32,
    pub left: u32,
    pub right: u32,
}

/// The edges that have not ended: each by its key, the key of the edge that ends there by arc end, and the number of such
/// arc ends by node.
#[derive(Drop)]
pub struct Net {
    pub rows: Vec<Option<Current>>,
    pub ends: Vec<Option<u32>>,
    pub counts: Vec<u32>,
}

/// Two edges that end at one node, the one with the lesser key first, and of each whether it ends or starts there.
#[derive(Clone, Copy)]
pub struct Meeting {
    pub key: u32,
    pub one: Current,
    pub one_ends: bool,
    pub other_key: u32,
    pub other: Current,
    pub other_ends: bool,
}

/// The key that an arc end tells, where it is another than one.
fn another(key: Option<u32>, besides: Option<u32>) -> Option<u32>
    ensures some { IfSome result (λ i. (key ≡ Some i) × (besides ≢ Some i)) }
    ensures none { result ≡ None → (i : ℕ) → key ≡ Some i → besides ≡ Some i }
{
    if key == besides {
        return None;
    }
    key
}

/// The first of these places at which an edge ends, but for the edge with a key, and the key of the edge.
fn other_end(ends: &[Option<u32>], places: &[u32], besides: Option<u32>) -> Option<(u32, u32)>
    requires { All (λ x. x < length ends.now) places.now }
    ensures { MatchOption result (NoneBesides ends.now places.now besides) (λ found. IsBesides ends.now places.now besides found.0 found.1) }
{
    for place in places {
        if let Some(key) = another(ends[*place as usize], besides) {
            return Some((*place, key));
        }
    }
    None
}

/// One less at a node.
fn lower(counts: &mut Vec<u32>, node: u32)
    requires { 1 ≤ get_or counts.old.items node 0 }
    ensures { counts.new.items ≡ set counts.old.items node (get_or counts.old.items node 0 - 1) }
{
    counts[node as usize] -= 1;
}

/// One more at a node.
fn raise(counts: &mut Vec<u32>, node: u32)
    requires node { node < length counts.old.items }
    requires small { get_or counts.old.items node 0 < 2 ^ 32 - 1 }
    ensures { counts.new.items ≡ set counts.old.items node (get_or counts.old.items node 0 + 1) }
{
    counts[node as usize] += 1;
}

impl Meeting {
    /// This meeting with the other edge first.
    fn exchanged(self) -> Meeting
        ensures { result ≡ record { key = self.other_key; one = self.other; one_ends = self.other_ends; other_key = self.key; other = self.one; other_ends = self.one_ends } }
    {
        Meeting {
            key: self.other_key,
            one: self.other,
            one_ends: self.other_ends,
            other_key: self.key,
            other: self.one,
            other_ends: self.one_ends,
        }
    }

    /// The two edges as one with a new number, in the direction of the first.
    fn joined(self, id: u32) -> Current
        ensures { result ≡ joined_row self.one_ends self.other_ends id self.one self.other }
    {
        let outer = if self.other_ends {
            self.other.first
        } else {
            self.other.last
        };
        if self.one_ends {
            Current {
                id,
                last: outer,
                ..self.one
            }
        } else {
            Current {
                id,
                first: outer,
                ..self.one
            }
        }
    }
}

impl Net {
    /// Takes out the edge with this key.
    pub fn take_out(&mut self, nodes: &Nodes, key: u32, row: Current)
        requires net { IsNet nodes.now self.old }
        requires row { get_or self.old.rows.items key None ≡ Some row }
        ensures rows { self.new.rows.items ≡ set self.old.rows.items key None }
        ensures ends { self.new.ends.items ≡ set (set self.old.ends.items row.first None) row.last None }
        ensures net { IsNet nodes.now self.new }
    {
        self.rows[key as usize] = None;
        self.ends[row.first as usize] = None;
        self.ends[row.last as usize] = None;
        lower(&mut self.counts, nodes.at(row.first));
        lower(&mut self.counts, nodes.at(row.last));
    }

    /// Two edges that end at a node, the one with the lesser key first; none where all that end there are one.
    pub fn meeting(&self, nodes: &Nodes, node: u32) -> Option<Meeting>
        requires net { IsNet nodes.now self.now }
        requires node { node < length nodes.now.places.items }
        requires places { All (λ x. x < length self.now.ends.items) (places_at nodes.now node) }
        ensures { MatchOption result (IsAlone self.now (places_at nodes.now node)) (IsMeeting self.now (places_at nodes.now node)) }
    {
        self.meeting_at(nodes.places[node as usize].as_slice())
    }

    /// Two edges that end at these places, the one with the lesser key first; none where all that end there are one.
    fn meeting_at(&self, places: &[u32]) -> Option<Meeting>
        requires net { (nodes : NodeTable.Nodes) × IsNet nodes self.now }
        requires places { All (λ x. x < length self.now.ends.items) places.now }
        ensures { MatchOption result (IsAlone self.now places.now) (IsMeeting self.now places.now) }
    {
        let (x, i) = other_end(self.ends.as_slice(), places, None)?;
        let (y, j) = other_end(self.ends.as_slice(), places, Some(i))?;
        let one = self.rows[i as usize]?;
        let other = self.rows[j as usize]?;
        let meeting = Meeting {
            key: i,
            one,
            one_ends: one.last == x,
            other_key: j,
            other,
            other_ends: other.last == y,
        };
        Some(if i < j { meeting } else { meeting.exchanged() })
    }

    /// Puts in an edge with this key, which ends where no other does.
    pub fn put(&mut self, nodes: &Nodes, key: u32, row: Current)
        requires net { IsNet nodes.now self.old }
        requires small { length self.old.rows.items < 2 ^ 30 }
        requires key { key < length self.old.rows.items }
        requires free { get_or self.old.rows.items key None ≡ None }
        requires first { (row.first < length self.old.ends.items) × (get_or self.old.ends.items row.first None ≡ None) }
        requires last { (row.last < length self.old.ends.items) × (get_or self.old.ends.items row.last None ≡ None) }
        requires apart { row.first ≢ row.last }
        ensures rows { self.new.rows.items ≡ set self.old.rows.items key (Some row) }
        ensures net { IsNet nodes.now self.new }
    {
        self.rows[key as usize] = Some(row);
        self.ends[row.first as usize] = Some(key);
        self.ends[row.last as usize] = Some(key);
        raise(&mut self.counts, nodes.at(row.first));
        raise(&mut self.counts, nodes.at(row.last));
    }

    /// Puts one edge with a new number in the place of two that meet.
    pub fn join(&mut self, nodes: &Nodes, meeting: Meeting, id: u32)
        requires net { IsNet nodes.now self.old }
        requires small { length self.old.rows.items < 2 ^ 30 }
        requires less { meeting.key < meeting.other_key }
        requires one { get_or self.old.rows.items meeting.key None ≡ Some meeting.one }
        requires other { get_or self.old.rows.items meeting.other_key None ≡ Some meeting.other }
        ensures rows { self.new.rows.items ≡ set (set (set self.old.rows.items meeting.key None) meeting.other_key None) meeting.key (Some (joined_row meeting.one_ends meeting.other_ends id meeting.one meeting.other)) }
        ensures net { IsNet nodes.now self.new }
    {
        self.take_out(nodes, meeting.key, meeting.one);
        self.take_out(nodes, meeting.other_key, meeting.other);
        self.put(nodes, meeting.key, meeting.joined(id));
    }
}
