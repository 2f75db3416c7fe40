//! The corners of the edges, by their labels, while the history is run. By them a step finds the edges of which it
//! may remove a vertex, and looks at no other one that borders its new face.

ghost use Rattle.std.specs.Prelude.{◌≡◌, ◌<◌, ◌≤◌, ◌++◌, ◌∷◌, [], ℕ, Some, true, List as Sequence, filter, length, replicate, All, AllPairs, Contains, IfOk, OnOk};
ghost use Rattle.tgap_model.specs.declared.slice.Edge.{Edge as Line};
ghost use Rattle.tgap_model.specs.Removals.{has_side};
ghost use Rattle.vertex_drop.specs.Corners.{has_small_corner, least_corner, small_area};
ghost use Rattle.tgap_build.specs.Table.{labelled_edges, IsTable};
ghost use Rattle.tgap_build.specs.Queue.{is_queued};
ghost use Rattle.tgap_build.specs.Queues.{queue_at, TellAsMuch, IsQueued, IsQueuedAt, IsQueuedBeside, IsCornered, AreKeptBut, corner_at, is_candidate, IsBeside};

use crate::corner_queue::{CornerQueue, Entry};
use crate::edge_table::EdgeTable;
use point_rope::RopeEdge;
use std::alloc::Global;
use tgap_model::Memory;
use vertex_drop::least_corner;

/// For each label a queue of corners, in which each edge that has the label, and three points in a row, has an entry
/// whose area is at most that of its least corner. A queue may have entries of other edges, of edges that ended, and
/// others that are too small.
#[derive(Drop)]
pub struct CornerQueues {
    queues: Vec<CornerQueue>,
}

/// So many empty queues.
fn empty_queues(alloc: Global, count: usize) -> Result<Vec<CornerQueue>, Memory>
    ensures { IfOk result (λ queues. queues.items ≡ replicate count []) }
{
    let mut queues = Vec::with_capacity(alloc, count)?;
    for _ in 0..count {
        queues.push(CornerQueue::new(alloc))?;
    }
    Ok(queues)
}

/// An area that no corner exceeds of which a step may remove the vertex, where twice the area of its loser is given.
fn largest_small(loser_area: i128, ratio: u32) -> u128
    requires { 0 < ratio }
    ensures { (n : ℕ) → small_area ratio loser_area n ≡ true → n ≤ result }
{
    loser_area.unsigned_abs() / u128::from(ratio)
}

/// Twice the area of the least corner of the edge with a key, where there is one that has the label.
fn corner_beside(edges: &EdgeTable, label: u32, key: u32) -> Option<u128>
    ensures { result ≡ corner_at edges.now.places.items label key }
{
    match edges.edge(key) {
        Some(edge) if edge.has_side(label) => least_corner(edge.row()),
        _ => None,
    }
}

impl CornerQueues {
    /// The queues of all edges of a table, in the time of the runs of their points.
    pub fn of(alloc: Global, edges: &EdgeTable) -> Result<CornerQueues, Memory>
        requires table { IsTable edges.now }
        ensures room { IfOk result (λ made. length made.queues.items ≡ length edges.now.beside.items) }
        ensures each { IfOk result (λ made. All (IsQueued made.queues.items) (labelled_edges edges.now)) }
    {
        let keys = edges.keys(alloc)?;
        let mut made = CornerQueues {
            queues: empty_queues(alloc, edges.label_count())?,
        };
        made.put_all(edges, keys.as_slice())?;
        Ok(made)
    }

    /// Puts an entry into the queue of a label.
    fn put_entry(&mut self, label: u32, entry: Entry) -> Result<(), Memory>
        requires { label < length self.old.queues.items }
        ensures entry { OnOk result ((n : ℕ) → entry.area ≤ n → is_queued (queue_at self.new.queues.items label) entry.key n ≡ true) }
        ensures others { OnOk result (TellAsMuch self.old.queues.items self.new.queues.items) }
        ensures room { OnOk result (length self.new.queues.items ≡ length self.old.queues.items) }
    {
        self.queues[label as usize].push(entry)?;
        Ok(())
    }

    /// Puts the least corner of an edge in at both its labels.
    fn put_edge(&mut self, edge: &RopeEdge) -> Result<(), Memory>
        requires left { edge.now.left < length self.old.queues.items }
        requires right { edge.now.right < length self.old.queues.items }
        ensures edge { OnOk result (IsQueued self.new.queues.items edge.now) }
        ensures others { OnOk result (TellAsMuch self.old.queues.items self.new.queues.items) }
        ensures room { OnOk result (length self.new.queues.items ≡ length self.old.queues.items) }
    {
        let Some(area) = least_corner(edge.row()) else {
            return Ok(());
        };
        let entry = Entry {
            area,
            key: edge.key(),
        };
        self.put_entry(edge.left(), entry)?;
        self.put_entry(edge.right(), entry)?;
        Ok(())
    }

    /// Puts the least corner of the edge with a key in, if there is one.
    fn put(&mut self, edges: &EdgeTable, key: u32) -> Result<(), Memory>
        requires table { IsTable edges.now }
        requires room { length self.old.queues.items ≡ length edges.now.beside.items }
        ensures edge { OnOk result (IsQueuedAt edges.now.places.items self.new.queues.items key) }
        ensures others { OnOk result (TellAsMuch self.old.queues.items self.new.queues.items) }
        ensures room { OnOk result (length self.new.queues.items ≡ length self.old.queues.items) }
    {
        if let Some(edge) = edges.edge(key) {
            self.put_edge(edge)?;
        }
        Ok(())
    }

    /// Puts the least corners of the edges with these keys in, in the time of the runs of their points.
    fn put_all(&mut self, edges: &EdgeTable, keys: &[u32]) -> Result<(), Memory>
        requires table { IsTable edges.now }
        requires room { length self.old.queues.items ≡ length edges.now.beside.items }
        ensures edges { OnOk result (All (IsQueuedAt edges.now.places.items self.new.queues.items) keys.now) }
        ensures others { OnOk result (TellAsMuch self.old.queues.items self.new.queues.items) }
        ensures room { OnOk result (length self.new.queues.items ≡ length self.old.queues.items) }
    {
        for key in keys {
            self.put(edges, *key)?;
        }
        Ok(())
    }

    /// Puts an entry back that was taken out of the queue of a label, where an edge with its key and the label still
    /// has a corner, and tells the key where that corner has at most this area.
    fn put_back(
        &mut self,
        edges: &EdgeTable,
        label: u32,
        limit: u128,
        key: u32,
        found: &mut Vec<u32>,
    ) -> Result<(), Memory>
        requires label { label < length self.old.queues.items }
        ensures edge { OnOk result ((n : ℕ) → corner_at edges.now.places.items label key ≡ Some n → is_queued (queue_at self.new.queues.items label) key n ≡ true) }
        ensures others { OnOk result (TellAsMuch self.old.queues.items self.new.queues.items) }
        ensures found { OnOk result (found.new.items ≡ found.old.items ++ filter (is_candidate edges.now.places.items label limit) (key ∷ [])) }
        ensures room { OnOk result (length self.new.queues.items ≡ length self.old.queues.items) }
    {
        let Some(area) = corner_beside(edges, label, key) else {
            return Ok(());
        };
        self.put_entry(label, Entry { area, key })?;
        if area <= limit {
            found.push(key)?;
        }
        Ok(())
    }

    /// Puts the entries back that have these keys, and tells those that may lose a vertex.
    fn put_all_back(
        &mut self,
        alloc: Global,
        edges: &EdgeTable,
        label: u32,
        limit: u128,
        keys: &[u32],
    ) -> Result<Vec<u32>, Memory>
        requires label { label < length self.old.queues.items }
        ensures edges { OnOk result (All (IsQueuedBeside edges.now.places.items self.new.queues.items label) keys.now) }
        ensures others { OnOk result (TellAsMuch self.old.queues.items self.new.queues.items) }
        ensures found { IfOk result (λ found. found.items ≡ filter (is_candidate edges.now.places.items label limit) keys.now) }
        ensures room { OnOk result (length self.new.queues.items ≡ length self.old.queues.items) }
    {
        let mut found = Vec::new(alloc);
        for key in keys {
            self.put_back(edges, label, limit, *key, &mut found)?;
        }
        Ok(found)
    }

    /// The keys of the edges with a label that have a corner of at most this area, in ascending order. Each entry of
    /// at most that area is taken out and put back once for its edge, with the corner that the edge has now.
    fn small_beside(
        &mut self,
        alloc: Global,
        edges: &EdgeTable,
        label: u32,
        limit: u128,
    ) -> Result<Vec<u32>, Memory>
        requires table { IsTable edges.now }
        requires label { label < length self.old.queues.items }
        requires each { All (IsQueued self.old.queues.items) (labelled_edges edges.now) }
        ensures each { OnOk result (All (IsQueued self.new.queues.items) (labelled_edges edges.now)) }
        ensures room { OnOk result (length self.new.queues.items ≡ length self.old.queues.items) }
        ensures ascending { IfOk result (λ keys. AllPairs (λ j k. j < k) keys.items) }
        ensures there { IfOk result (λ keys. All (IsBeside (labelled_edges edges.now) label) keys.items) }
        ensures small { IfOk result (λ keys. (e : Line) (n : ℕ) → Contains (labelled_edges edges.now) e → has_side label e ≡ true
            → least_corner e.points ≡ Some n → n ≤ limit → Contains keys.items e.key) }
    {
        let taken = self.queues[label as usize].take_small(alloc, limit)?;
        let found = self.put_all_back(alloc, edges, label, limit, &taken)?;
        Ok(found)
    }
}

/// The queues of all edges, which are made where there are none yet.
fn queues_of(
    alloc: Global,
    corners: Option<CornerQueues>,
    edges: &EdgeTable,
) -> Result<CornerQueues, Memory>
    requires table { IsTable edges.now }
    requires corners { IsCornered (length edges.now.beside.items) (labelled_edges edges.now) corners }
    ensures { IfOk result (λ made. IsCornered (length edges.now.beside.items) (labelled_edges edges.now) (Some made)) }
{
    match corners {
        Some(queues) => Ok(queues),
        None => CornerQueues::of(alloc, edges),
    }
}

/// The keys of the edges with the label of the new face of a step that may lose a vertex, in ascending order, where
/// twice the area of the loser is given. No other edge with the label is looked at, but where this is asked for the
/// first time.
pub fn candidates(
    alloc: Global,
    edges: &EdgeTable,
    corners: &mut Option<CornerQueues>,
    label: u32,
    loser_area: i128,
    ratio: u32,
) -> Result<Vec<u32>, Memory>
    requires table { IsTable edges.now }
    requires corners { IsCornered (length edges.now.beside.items) (labelled_edges edges.now) corners.old }
    requires label { label < length edges.now.beside.items }
    requires ratio { 0 < ratio }
    ensures corners { OnOk result (IsCornered (length edges.now.beside.items) (labelled_edges edges.now) corners.new) }
    ensures ascending { IfOk result (λ keys. AllPairs (λ j k. j < k) keys.items) }
    ensures there { IfOk result (λ keys. All (IsBeside (labelled_edges edges.now) label) keys.items) }
    ensures small { IfOk result (λ keys. (e : Line) → Contains (labelled_edges edges.now) e → has_side label e ≡ true
        → has_small_corner ratio loser_area e.points ≡ true → Contains keys.items e.key) }
{
    let mut queues = queues_of(alloc, corners.take(), edges)?;
    let keys = queues.small_beside(alloc, edges, label, largest_small(loser_area, ratio))?;
    *corners = Some(queues);
    Ok(keys)
}

/// Brings the queues up to the edges of a table, where there are some, in the time of the runs of each edge with one of
/// these keys, which are new, have another label or lost points.
pub fn requeue(
    edges: &EdgeTable,
    corners: &mut Option<CornerQueues>,
    keys: &[u32],
) -> Result<(), Memory>
    requires table { IsTable edges.now }
    requires corners { (before : Sequence Line) × IsCornered (length edges.now.beside.items) before corners.old }
    ensures { (before : Sequence Line) → IsCornered (length edges.now.beside.items) before corners.old
        → AreKeptBut keys.now before (labelled_edges edges.now)
        → OnOk result (IsCornered (length edges.now.beside.items) (labelled_edges edges.now) corners.new) }
{
    let Some(mut queues) = corners.take() else {
        return Ok(());
    };
    queues.put_all(edges, keys)?;
    *corners = Some(queues);
    Ok(())
}
