//! The edges of the last step, which are kept while the history is run.

ghost use Rattle.std.specs.Prelude.{◌≡◌, ◌<◌, ◌≤◌, ℕ, ◌+◌, ◌-◌, ◌^◌, ◌==◌, ◌++◌, ◌∷◌, [], true, false, not, List as Sequence, map, filter, flat_map, sum_by, length, All, Contains, IfOk, OnOk, if◌then◌else◌};
ghost use Rattle.std.specs.List.{list_any};
ghost use Rattle.std.specs.List.Sorted.{IsNonDecreasing};
ghost use Rattle.tgap_model.specs.declared.slice.Edge.{Edge as Line};
ghost use Rattle.tgap_model.specs.Merged.{merged, step_number};
ghost use Rattle.tgap_model.specs.Chains.{chains_at};
ghost use Rattle.tgap_model.specs.Removals.{edges_of, removals_to};
ghost use Rattle.tgap_model.specs.Records.{is_edge_between};
ghost use Rattle.grid_index.specs.Live.{keys};
ghost use Rattle.face_tree.specs.Tree.{face_history};
ghost use Rattle.edge_forest.specs.Continued.{AreJoined};
ghost use Rattle.edge_forest.specs.Edges.{edge_at, chain_of, is_alive};
ghost use Rattle.edge_forest.specs.Forest.{IsForest};
ghost use Rattle.tgap_build.specs.Built.{HasRemoved};
ghost use Rattle.tgap_build.specs.Queues.{IsCornered};
ghost use Rattle.tgap_build.specs.Running.{AreRunning};
ghost use Rattle.tgap_build.specs.Sought.{IsSought};
ghost use Rattle.tgap_build.specs.Table.{labelled_edges, IsTable, HaveSameRoom, old_keys};
ghost use Rattle.tgap_build.specs.Changes.{HasGrown, born_chains, part_pieces, count_at, side_with, losing_keys, made_of, is_changed, HasJoined, whole_of, part_keys, less_at};

use crate::corner_queues::{CornerQueues, requeue};
use crate::edge_table::{EdgeTable, Merging};
use crate::edges::edges_of;
use crate::joined::{OldEdge, old_edges};
use crate::point_set::PointSet;
use crate::sought::sought_after;
use edge_forest::Forest;
use face_tree::FaceTree;
use grid_index::EdgeBoxes;
use std::alloc::Global;
use tgap_model::{Edge, List, Memory, MergeStep, Piece};

/// The edges after some steps of the history, with a look-up of them by boxes and the queues of their corners, where
/// these were asked for.
#[derive(Drop)]
pub struct LiveEdges {
    pub edges: EdgeTable,
    pub sought: Option<EdgeBoxes>,
    pub corners: Option<CornerQueues>,
}

/// An edge by its key, and the pieces of which it is made: the edges before the step.
#[derive(Drop)]
pub struct Made {
    pub key: u32,
    pub pieces: List<Piece>,
}

/// What a step changed, but for the points that it takes out: the edges that ended, and those that are new or had the
/// loser at a side, in order of key.
#[derive(Drop)]
pub struct Changed {
    pub ended: List<Edge>,
    pub made: Vec<Made>,
}

/// Whether a key is one of these, which ascend.
pub fn holds(keys: &[u32], key: u32) -> bool
    requires { IsNonDecreasing keys.now }
    ensures { result ≡ list_any (λ k. k == key) keys.now }
{
    keys.binary_search(&key).is_ok()
}

/// How many points the edge with this key has behind its first one.
fn points_behind(edges: &EdgeTable, key: u32) -> u32
    requires room { key < length edges.now.places.items }
    requires few { count_at edges.now.places.items key - 1 < 2 ^ 32 }
    ensures { result ≡ count_at edges.now.places.items key - 1 }
{
    match edges.points(key) {
        Some(points) => points.len().saturating_sub(1) as u32,
        None => 0,
    }
}

/// The face that an edge before the step had at the side of the new face. The edges of the loser have the keys of
/// `losing`, and the other ones of which edges of the new face are made are those of the winner.
fn side_of(step: &MergeStep, losing: &[u32], key: u32) -> u32
    requires { IsNonDecreasing losing.now }
    ensures { result ≡ side_with step.now losing.now key }
{
    if holds(losing, key) {
        step.loser
    } else {
        step.winner
    }
}

/// The pieces of an edge with these parts, in the time of their number.
fn pieces_of(
    alloc: Global,
    edges: &EdgeTable,
    step: &MergeStep,
    losing: &[u32],
    parts: &[OldEdge],
) -> Result<List<Piece>, Memory>
    requires room { All (λ p. p.key < length edges.now.places.items) parts.now }
    requires few { sum_by (λ p. count_at edges.now.places.items p.key - 1) parts.now < 2 ^ 32 }
    requires losing { IsNonDecreasing losing.now }
    ensures { IfOk result (λ pieces. pieces ≡ part_pieces (count_at edges.now.places.items) (side_with step.now losing.now) 0 parts.now) }
{
    let mut pieces = List::with_capacity(alloc, parts.len())?;
    let mut last = 0;
    for i in 0..parts.len() {
        let part = parts[i];
        last += points_behind(edges, part.key);
        pieces.push(Piece {
            key: part.key,
            last,
            side: side_of(step, losing, part.key),
            turned: part.turned,
        })?;
    }
    Ok(pieces)
}

/// An edge that is one piece.
fn whole(
    alloc: Global,
    step: &MergeStep,
    losing: &[u32],
    edges: &EdgeTable,
    key: u32,
) -> Result<Made, Memory>
    requires room { key < length edges.now.places.items }
    requires few { count_at edges.now.places.items key - 1 < 2 ^ 32 }
    requires losing { IsNonDecreasing losing.now }
    ensures { IfOk result (λ made. made ≡ whole_of edges.now.places.items step.now losing.now key) }
{
    let mut parts = Vec::new(alloc);
    parts.push(OldEdge { key, turned: false })?;
    Ok(Made {
        key,
        pieces: pieces_of(alloc, edges, step, losing, &parts)?,
    })
}

/// Appends the keys of these parts.
fn push_keys(keys: &mut Vec<u32>, parts: &[OldEdge]) -> Result<(), Memory>
    ensures { OnOk result (keys.new.items ≡ keys.old.items ++ old_keys parts.now) }
{
    for part in parts {
        keys.push(part.key)?;
    }
    Ok(())
}

/// Appends edges that are one piece: of those with these keys, the ones whose keys are not among `others`, which
/// ascend.
pub fn push_whole(
    alloc: Global,
    edges: &EdgeTable,
    step: &MergeStep,
    losing: &[u32],
    keys: &[u32],
    others: &[u32],
    made: &mut Vec<Made>,
) -> Result<(), Memory>
    requires room { All (λ i. i < length edges.now.places.items) keys.now }
    requires few { (i : ℕ) → count_at edges.now.places.items i < 2 ^ 32 }
    requires losing { IsNonDecreasing losing.now }
    requires others { IsNonDecreasing others.now }
    ensures { OnOk result (made.new.items
        ≡ made.old.items ++ map (whole_of edges.now.places.items step.now losing.now) (filter (λ i. not (list_any (λ j. j == i) others.now)) keys.now)) }
{
    for i in 0..keys.len() {
        let key = keys[i];
        if !holds(others, key) {
            made.push(whole(alloc, step, losing, edges, key)?)?;
        }
    }
    Ok(())
}

/// The keys of these edges.
pub fn made_keys(alloc: Global, made: &[Made]) -> Result<Vec<u32>, Memory>
    ensures { IfOk result (λ found. found.items ≡ map (λ one. one.key) made.now) }
{
    let mut found = Vec::with_capacity(alloc, made.len())?;
    for one in made {
        found.push(one.key)?;
    }
    Ok(found)
}

impl LiveEdges {
    /// The edges of a forest before its first step.
    pub fn of(alloc: Global, tree: &FaceTree, forest: &Forest) -> Result<LiveEdges, Memory>
        requires forest { IsForest forest.now }
        requires open { forest.now.closed ≡ false }
        requires made { forest.now.made ≡ 0 }
        requires history { tree.now ≡ face_history (merged forest.now.base) }
        requires removed { HasRemoved forest.now 0 }
        ensures running { IfOk result (λ live. AreRunning forest.now 0 (removals_to (merged forest.now.base) 0) live.edges) }
        ensures sought { IfOk result (λ live. IsSought live.edges.places.items live.sought) }
        ensures corners { IfOk result (λ live. IsCornered (length live.edges.beside.items) (labelled_edges live.edges) live.corners) }
    {
        let ids = forest.present(alloc)?;
        let edges = edges_of(alloc, tree, forest, ids.as_slice(), 0)?;
        let arcs = forest.base().arcs().len();
        let classes = forest.base().classes().len() as u32;
        let faces = classes + tree.steps() + 1;
        Ok(LiveEdges {
            edges: EdgeTable::of(alloc, arcs, faces, edges)?,
            sought: None,
            corners: None,
        })
    }

    /// Puts a new edge of the forest in place of those of which it is made, where the forest had the first `old`
    /// edges before, and tells the keys of those.
    fn join(
        &mut self,
        alloc: Global,
        forest: &Forest,
        step: &MergeStep,
        losing: &[u32],
        old: u32,
        id: u32,
        k: u32,
        joined: &mut Vec<u32>,
    ) -> Result<Made, Memory>
        requires grown { HasGrown forest.now k old }
        requires some { 0 < k }
        requires parts { AreJoined k old forest.now.edges }
        requires step { step.now ≡ step_number (merged forest.now.base) k }
        requires losing { losing.now ≡ losing_keys (merged forest.now.base) k }
        requires new { old ≤ id }
        requires within { id < length forest.now.edges }
        requires alive { is_alive k (edge_at forest.now.edges id) ≡ true }
        requires table { (left : Sequence Line) × HasJoined (merged forest.now.base) k left (born_chains forest.now k old id) self.old.edges }
        ensures made { IfOk result (λ made. made ≡ made_of (merged forest.now.base) k (chain_of forest.now.edges id)) }
        ensures table { (left : Sequence Line) → HasJoined (merged forest.now.base) k left (born_chains forest.now k old id) self.old.edges
            → OnOk result (HasJoined (merged forest.now.base) k left (born_chains forest.now k old id ++ chain_of forest.now.edges id ∷ []) self.new.edges) }
        ensures joined { OnOk result (joined.new.items ≡ joined.old.items ++ part_keys (merged forest.now.base) k (chain_of forest.now.edges id)) }
        ensures labels { OnOk result (self.new.edges.labels ≡ self.old.edges.labels) }
        ensures room { OnOk result (HaveSameRoom self.old.edges self.new.edges) }
        ensures sought { self.new.sought ≡ self.old.sought }
        ensures corners { self.new.corners ≡ self.old.corners }
    {
        let key = forest.edge(id).key;
        let parts = old_edges(alloc, forest, old, id, k)?;
        let pieces = pieces_of(alloc, &self.edges, step, losing, &parts)?;
        self.edges.join(alloc, key, &parts)?;
        push_keys(joined, &parts)?;
        Ok(Made { key, pieces })
    }

    /// Puts each new edge of the forest in place of those of which it is made, and tells the keys of those.
    fn join_new(
        &mut self,
        alloc: Global,
        forest: &Forest,
        step: &MergeStep,
        losing: &[u32],
        old: u32,
        k: u32,
        joined: &mut Vec<u32>,
    ) -> Result<Vec<Made>, Memory>
        requires grown { HasGrown forest.now k old }
        requires some { 0 < k }
        requires parts { AreJoined k old forest.now.edges }
        requires step { step.now ≡ step_number (merged forest.now.base) k }
        requires losing { losing.now ≡ losing_keys (merged forest.now.base) k }
        requires table { (left : Sequence Line) × HasJoined (merged forest.now.base) k left [] self.old.edges }
        ensures made { IfOk result (λ made. made.items ≡ map (made_of (merged forest.now.base) k) (born_chains forest.now k old (length forest.now.edges))) }
        ensures table { (left : Sequence Line) → HasJoined (merged forest.now.base) k left [] self.old.edges
            → OnOk result (HasJoined (merged forest.now.base) k left (born_chains forest.now k old (length forest.now.edges)) self.new.edges) }
        ensures joined { OnOk result (joined.new.items ≡ joined.old.items ++ flat_map (part_keys (merged forest.now.base) k) (born_chains forest.now k old (length forest.now.edges))) }
        ensures labels { OnOk result (self.new.edges.labels ≡ self.old.edges.labels) }
        ensures room { OnOk result (HaveSameRoom self.old.edges self.new.edges) }
        ensures sought { self.new.sought ≡ self.old.sought }
        ensures corners { self.new.corners ≡ self.old.corners }
    {
        let mut made = Vec::new(alloc);
        for id in old..forest.count() {
            if forest.is_alive(id, k) {
                made.push(self.join(alloc, forest, step, losing, old, id, k, joined)?)?;
            }
        }
        Ok(made)
    }

    /// Brings the edges up to step number k, which the forest has made. The forest had the first `old` edges before.
    /// The time is that of the loser's edges, and of the points of the new ones but for the first part of each. The look-up,
    /// where there is one, takes a box for each edge that ended, was joined, had the loser at a side or is new.
    pub fn merge(
        &mut self,
        alloc: Global,
        forest: &Forest,
        step: &MergeStep,
        old: u32,
        k: u32,
    ) -> Result<Changed, Memory>
        requires grown { HasGrown forest.now k old }
        requires some { 0 < k }
        requires parts { AreJoined k old forest.now.edges }
        requires step { step.now ≡ step_number (merged forest.now.base) k }
        requires running { AreRunning forest.now (k - 1) (removals_to (merged forest.now.base) (k - 1)) self.old.edges }
        requires sought { IsSought self.old.edges.places.items self.old.sought }
        requires corners { IsCornered (length self.old.edges.beside.items) (labelled_edges self.old.edges) self.old.corners }
        ensures running { OnOk result (AreRunning forest.now k (removals_to (merged forest.now.base) (k - 1)) self.new.edges) }
        ensures sought { OnOk result (IsSought self.new.edges.places.items self.new.sought) }
        ensures corners { OnOk result (IsCornered (length self.new.edges.beside.items) (labelled_edges self.new.edges) self.new.corners) }
        ensures ended { IfOk result (λ changed. changed.ended
            ≡ filter (is_edge_between step.now.loser step.now.winner) (edges_of (merged forest.now.base) (k - 1) (removals_to (merged forest.now.base) (k - 1)) (chains_at (merged forest.now.base) (k - 1)))) }
        ensures made { IfOk result (λ changed. changed.made.items
            ≡ map (made_of (merged forest.now.base) k) (filter (is_changed (merged forest.now.base) k) (chains_at (merged forest.now.base) k))) }
    {
        let Merging { ended, losing } = self.edges.merge(alloc, step)?;
        let mut joined = Vec::new(alloc);
        let mut made = self.join_new(alloc, forest, step, &losing, old, k, &mut joined)?;
        joined.sort_unstable();
        push_whole(
            alloc,
            &self.edges,
            step,
            &losing,
            &losing,
            &joined,
            &mut made,
        )?;
        made.sort_unstable_by_key(|one| one.key);
        let keys = made_keys(alloc, &made)?;
        sought_after(
            alloc,
            &mut self.sought,
            &self.edges,
            &joined,
            ended.as_slice(),
            &keys,
        );
        requeue(&self.edges, &mut self.corners, &keys)?;
        Ok(Changed { ended, made })
    }

    /// Takes points of a set out of the edges with these keys, in the time of their points.
    pub fn remove(&mut self, alloc: Global, losing: &[u32], gone: &PointSet) -> Result<(), Memory>
        requires table { IsTable self.old.edges }
        requires there { All (Contains (keys (labelled_edges self.old.edges))) losing.now }
        requires sought { IsSought self.old.edges.places.items self.old.sought }
        requires corners { IsCornered (length self.old.edges.beside.items) (labelled_edges self.old.edges) self.old.corners }
        ensures edges { OnOk result (labelled_edges self.new.edges ≡ map (less_at gone.now losing.now) (labelled_edges self.old.edges)) }
        ensures table { OnOk result (IsTable self.new.edges) }
        ensures labels { OnOk result (self.new.edges.labels ≡ self.old.edges.labels) }
        ensures room { OnOk result (HaveSameRoom self.old.edges self.new.edges) }
        ensures sought { OnOk result (IsSought self.new.edges.places.items self.new.sought) }
        ensures corners { OnOk result (IsCornered (length self.new.edges.beside.items) (labelled_edges self.new.edges) self.new.corners) }
    {
        self.edges.remove_points(losing, gone);
        requeue(&self.edges, &mut self.corners, losing)?;
        Ok(())
    }
}
