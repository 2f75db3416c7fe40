//! Edges by their keys, while the history is run.

ghost use Rattle.std.specs.Prelude.{◌≡◌, ◌≢◌, ◌<◌, ◌↔◌, ◌++◌, ◌∷◌, [], ℕ, None, filter, map, length, replicate, set, option_map, option_to_list, All, AllPairs, Contains, IsPermutation, IfOk, IsTrue, OnOk, not};
ghost use Rattle.tgap_model.specs.Base.{in_limits};
ghost use Rattle.tgap_model.specs.Removals.{has_side};
ghost use Rattle.tgap_model.specs.Records.{is_edge_between};
ghost use Rattle.grid_index.specs.Keyed.{edge_in, edges_in, AreAtKeys};
ghost use Rattle.grid_index.specs.Live.{keys, without_keys};
ghost use Rattle.edge_forest.specs.FaceLabels.{label_of, HasLabel, IsCurrent};
ghost use Rattle.tgap_build.specs.Running.{relabelled};
ghost use Rattle.tgap_build.specs.Table.{faced, labelled_edges, table_edges, IsTable, HaveSameRoom, left_by, moved_label, moved_edge, has_both, has_first, place_after, lists_after, edge_with, joined_row, joined_edge, old_keys};
ghost use Rattle.tgap_build.specs.Changes.{less_at};

use crate::joined::OldEdge;
use crate::point_set::PointSet;
use crate::room::trimmed;
use edge_forest::FaceLabels;
use point_rope::{Rope, RopeEdge};
use std::alloc::Global;
use std::mem;
use tgap_model::{Edge, List, Memory, MergeStep};

/// Edges, each at the place of its key, and for each label the keys of the edges that have it at a side, and maybe of others. An
/// edge has labels where it would have faces, and its points stand in a rope.
#[derive(Drop)]
pub struct EdgeTable {
    places: Vec<Option<RopeEdge>>,
    beside: Vec<List<u32>>,
    labels: FaceLabels,
}

/// What a step changes in the table: the edges between its loser and its winner, which are out, and the keys of those that had the
/// loser at a side and stay, in ascending order.
#[derive(Drop)]
pub struct Merging {
    pub ended: List<Edge>,
    pub losing: Vec<u32>,
}

/// So many empty lists.
fn empty_lists(alloc: Global, count: u32) -> Result<Vec<List<u32>>, Memory>
    ensures { IfOk result (λ lists. lists.items ≡ replicate count []) }
{
    let mut lists = Vec::with_capacity(alloc, count as usize)?;
    for _ in 0..count {
        lists.push(List::new(alloc))?;
    }
    Ok(lists)
}

/// So many empty places.
fn empty_places(alloc: Global, count: usize) -> Result<Vec<Option<RopeEdge>>, Memory>
    ensures { IfOk result (λ places. places.items ≡ replicate count None) }
{
    let mut places = Vec::with_capacity(alloc, count)?;
    for _ in 0..count {
        places.push(None)?;
    }
    Ok(places)
}

/// These keys, in ascending order, each once.
pub fn in_order(keys: List<u32>) -> Vec<u32>
    ensures ascending { AllPairs (λ j k. j < k) result.items }
    ensures same { (k : ℕ) → Contains result.items k ↔ Contains keys k }
{
    let mut keys = keys.into_vec();
    keys.sort_unstable();
    keys.dedup();
    keys
}

/// A label after one has taken the place of another.
fn moved_label(from: u32, to: u32, label: u32) -> u32
    ensures { result ≡ moved_label from to label }
{
    if label == from { to } else { label }
}

/// The edge with its faces in place of their labels, without room for more points.
fn faced(alloc: Global, labels: &FaceLabels, edge: RopeEdge) -> Result<Edge, Memory>
    requires left { edge.left < length labels.now.faces.items }
    requires right { edge.right < length labels.now.faces.items }
    ensures { IfOk result (λ made. made ≡ faced labels.now edge) }
{
    let key = edge.key();
    let left = labels.face(edge.left());
    let right = labels.face(edge.right());
    let points = edge.into_row().into_list(alloc)?;
    Ok(Edge {
        key,
        left,
        right,
        points: trimmed(points),
    })
}

/// Takes the edges out of which another one is made, and gives the points of that one.
fn take_row(
    alloc: Global,
    places: &mut Vec<Option<RopeEdge>>,
    parts: &[OldEdge],
) -> Result<Rope, Memory>
    requires keyed { AreAtKeys places.old.items }
    requires there { All (λ p. Contains (keys (edges_in places.old.items)) p.key) parts.now }
    requires apart { AllPairs (λ p q. p.key ≢ q.key) parts.now }
    ensures row { IfOk result (λ row. row ≡ joined_row places.old.items parts.now) }
    ensures keyed { OnOk result (AreAtKeys places.new.items) }
    ensures left { OnOk result (edges_in places.new.items ≡ without_keys (old_keys parts.now) (edges_in places.old.items)) }
    ensures room { OnOk result (length places.new.items ≡ length places.old.items) }
{
    let mut row = Rope::new(alloc);
    for part in parts {
        if let Some(edge) = places[part.key as usize].take() {
            row.append(alloc, edge.into_row(), part.turned)?;
        }
    }
    Ok(row)
}

impl EdgeTable {
    /// The table of these edges of a map before its first step, whose keys are below `keys`. Faces are numbered below `faces` in
    /// the end.
    pub fn of(
        alloc: Global,
        keys: usize,
        faces: u32,
        edges: List<Edge>,
    ) -> Result<EdgeTable, Memory>
        requires ascending { AllPairs (λ e f. e.key < f.key) edges }
        requires keys { All (λ e. e.key < keys) edges }
        requires sides { All (λ e. (e.left < faces) × (e.right < faces)) edges }
        requires near { All (λ e. All (λ p. IsTrue (in_limits p)) e.points) edges }
        ensures table { IfOk result (λ table. IsTable table) }
        ensures edges { IfOk result (λ table. table_edges table ≡ edges) }
        ensures places { IfOk result (λ table. length table.places.items ≡ keys) }
        ensures lists { IfOk result (λ table. length table.beside.items ≡ faces) }
        ensures labels { IfOk result (λ table. (f : ℕ) → f < faces → HasLabel table.labels f) }
    {
        let mut table = EdgeTable {
            places: empty_places(alloc, keys)?,
            beside: empty_lists(alloc, faces)?,
            labels: FaceLabels::of(alloc, faces)?,
        };
        for edge in edges.into_vec() {
            let edge = RopeEdge::of(alloc, edge)?;
            table.put(edge)?;
        }
        Ok(table)
    }

    /// Puts an edge that has labels at the place of its key, which is empty.
    fn put(&mut self, edge: RopeEdge) -> Result<(), Memory>
        requires table { IsTable self.old }
        requires key { edge.key < length self.old.places.items }
        requires left { (edge.left < length self.old.beside.items) × IsCurrent self.old.labels edge.left }
        requires right { (edge.right < length self.old.beside.items) × IsCurrent self.old.labels edge.right }
        ensures table { OnOk result (IsTable self.new) }
        ensures moved { OnOk result (IsPermutation (without_keys (edge.key ∷ []) (labelled_edges self.old) ++ edge ∷ []) (labelled_edges self.new)) }
        ensures labels { self.new.labels ≡ self.old.labels }
        ensures room { OnOk result (HaveSameRoom self.old self.new) }
    {
        let key = edge.key();
        self.beside[edge.left() as usize].push(key)?;
        self.beside[edge.right() as usize].push(key)?;
        self.places[key as usize] = Some(edge);
        Ok(())
    }

    /// Merges the loser of a step with its winner, whose labels these are, on the edge with this key, if it is there and has
    /// the loser's label.
    fn merge_edge(
        &mut self,
        alloc: Global,
        loser: u32,
        winner: u32,
        key: u32,
        merging: &mut Merging,
    ) -> Result<(), Memory>
        requires key { key < length self.old.places.items }
        requires winner { winner < length self.old.beside.items }
        requires labels { All (λ e. (e.left < length self.old.labels.faces.items) × (e.right < length self.old.labels.faces.items)) (option_to_list (edge_in self.old.places.items key)) }
        ensures places { OnOk result (self.new.places.items ≡ set self.old.places.items key (place_after loser winner (edge_in self.old.places.items key))) }
        ensures lists { OnOk result (self.new.beside.items ≡ lists_after loser winner key (edge_in self.old.places.items key) self.old.beside.items) }
        ensures labels { self.new.labels ≡ self.old.labels }
        ensures ended { OnOk result (merging.new.ended
            ≡ merging.old.ended ++ map (faced self.old.labels) (filter (has_both loser winner) (option_to_list (edge_in self.old.places.items key)))) }
        ensures losing { OnOk result (merging.new.losing.items
            ≡ merging.old.losing.items ++ map (λ e. key) (filter (has_first loser winner) (option_to_list (edge_in self.old.places.items key)))) }
    {
        let place = key as usize;
        let Some(edge) = self.places[place].take() else {
            return Ok(());
        };
        if !edge.has_side(loser) {
            self.places[place] = Some(edge);
        } else if edge.has_side(winner) {
            let edge = faced(alloc, &self.labels, edge)?;
            merging.ended.push(edge)?;
        } else {
            let left = moved_label(loser, winner, edge.left());
            let right = moved_label(loser, winner, edge.right());
            let edge = RopeEdge::new(edge.key(), left, right, edge.into_row());
            self.places[place] = Some(edge);
            self.beside[winner as usize].push(key)?;
            merging.losing.push(key)?;
        }
        Ok(())
    }

    /// Takes out the edges between the loser of a step and its winner, and gives all others the new face where they had one of the
    /// two. The time is that of the loser's edges, and of the points of those that it takes out.
    pub fn merge(&mut self, alloc: Global, step: &MergeStep) -> Result<Merging, Memory>
        requires table { IsTable self.old }
        requires loser { (step.now.loser < length self.old.beside.items) × HasLabel self.old.labels step.now.loser }
        requires winner { (step.now.winner < length self.old.beside.items) × HasLabel self.old.labels step.now.winner }
        requires apart { step.now.loser ≢ step.now.winner }
        requires made { step.now.made < length self.old.beside.items }
        requires fresh { All (λ e. (e.left ≢ step.now.made) × (e.right ≢ step.now.made)) (table_edges self.old) }
        ensures table { OnOk result (IsTable self.new) }
        ensures edges { OnOk result (table_edges self.new ≡ map (relabelled step.now) (left_by step.now (table_edges self.old))) }
        ensures labelled { OnOk result (labelled_edges self.new
            ≡ map (moved_edge (label_of self.old.labels step.now.loser) (label_of self.old.labels step.now.winner))
            (filter (λ e. not (is_edge_between step.now.loser step.now.winner (faced self.old.labels e))) (labelled_edges self.old))) }
        ensures ended { IfOk result (λ m. m.ended ≡ filter (is_edge_between step.now.loser step.now.winner) (table_edges self.old)) }
        ensures losing { IfOk result (λ m. m.losing.items ≡ keys (filter (has_side step.now.loser) (left_by step.now (table_edges self.old)))) }
        ensures label { OnOk result (label_of self.new.labels step.now.made ≡ label_of self.old.labels step.now.winner) }
        ensures made { OnOk result (HasLabel self.new.labels step.now.made) }
        ensures others { OnOk result ((f : ℕ) → f ≢ step.now.loser → f ≢ step.now.winner → f ≢ step.now.made → HasLabel self.old.labels f → HasLabel self.new.labels f) }
        ensures room { OnOk result (HaveSameRoom self.old self.new) }
    {
        let loser = self.labels.label(step.loser);
        let winner = self.labels.label(step.winner);
        let listed = mem::replace(&mut self.beside[loser as usize], List::new(alloc));
        let mut merging = Merging {
            ended: List::new(alloc),
            losing: Vec::new(alloc),
        };
        let keys = in_order(listed);
        for key in &keys {
            self.merge_edge(alloc, loser, winner, *key, &mut merging)?;
        }
        self.labels.merge(step);
        let Merging { ended, losing } = merging;
        Ok(Merging {
            ended: trimmed(ended),
            losing,
        })
    }

    /// The labels at the left and at the right of the edge with this key.
    fn sides(&self, key: u32) -> (u32, u32)
        requires { key < length self.now.places.items }
        ensures left { result.0 ≡ (edge_with self.now.places.items key).left }
        ensures right { result.1 ≡ (edge_with self.now.places.items key).right }
    {
        match &self.places[key as usize] {
            Some(edge) => (edge.left(), edge.right()),
            None => (0, 0),
        }
    }

    /// Puts one edge, with this key, in place of those of which it is made, one of which has the key. The points of the first one are
    /// not copied, if it is not turned.
    pub fn join(&mut self, alloc: Global, key: u32, parts: &[OldEdge]) -> Result<(), Memory>
        requires table { IsTable self.old }
        requires there { All (λ p. Contains (keys (labelled_edges self.old)) p.key) parts.now }
        requires apart { AllPairs (λ p q. p.key ≢ q.key) parts.now }
        requires key { Contains (old_keys parts.now) key }
        ensures table { OnOk result (IsTable self.new) }
        ensures edges { OnOk result (IsPermutation (without_keys (old_keys parts.now) (labelled_edges self.old) ++ joined_edge self.old.places.items key parts.now ∷ []) (labelled_edges self.new)) }
        ensures labels { self.new.labels ≡ self.old.labels }
        ensures room { OnOk result (HaveSameRoom self.old self.new) }
    {
        let (left, right) = self.sides(key);
        let row = take_row(alloc, &mut self.places, parts)?;
        self.places[key as usize] = Some(RopeEdge::new(key, left, right, row));
        Ok(())
    }

    /// Takes the points of a set out of the edge with this key, if there is one.
    fn take_points(&mut self, key: u32, gone: &PointSet)
        requires table { IsTable self.old }
        requires key { key < length self.old.places.items }
        ensures table { IsTable self.new }
        ensures edges { labelled_edges self.new ≡ map (less_at gone.now (key ∷ [])) (labelled_edges self.old) }
        ensures labels { self.new.labels ≡ self.old.labels }
        ensures room { HaveSameRoom self.old self.new }
    {
        if let Some(mut edge) = self.places[key as usize].take() {
            edge.remove(gone);
            self.places[key as usize] = Some(edge);
        }
    }

    /// Takes the points of a set out of the edges with these keys.
    pub fn remove_points(&mut self, losing: &[u32], gone: &PointSet)
        requires table { IsTable self.old }
        requires room { All (λ k. k < length self.old.places.items) losing.now }
        ensures table { IsTable self.new }
        ensures edges { labelled_edges self.new ≡ map (less_at gone.now losing.now) (labelled_edges self.old) }
        ensures labels { self.new.labels ≡ self.old.labels }
        ensures room { HaveSameRoom self.old self.new }
    {
        for key in losing {
            self.take_points(*key, gone);
        }
    }

    /// The points of the edge with this key, if there is one.
    pub fn points(&self, key: u32) -> Option<&Rope>
        requires { key < length self.now.places.items }
        ensures { option_map (λ points. points.now) result ≡ option_map (λ e. e.points) (edge_in self.now.places.items key) }
    {
        match &self.places[key as usize] {
            Some(edge) => Some(edge.row()),
            None => None,
        }
    }

    /// The edges with their labels, each at the place of its key.
    pub fn places(&self) -> &[Option<RopeEdge>]
        ensures { result.now ≡ self.now.places.items }
    {
        self.places.as_slice()
    }

    /// The edge with this key, if there is one, with its labels.
    pub fn edge(&self, key: u32) -> Option<&RopeEdge>
        ensures { option_map (λ e. e.now) result ≡ edge_in self.now.places.items key }
    {
        match self.places.get(key as usize) {
            Some(Some(edge)) => Some(edge),
            _ => None,
        }
    }

    /// The keys of all edges, in ascending order.
    pub fn keys(&self, alloc: Global) -> Result<List<u32>, Memory>
        ensures { IfOk result (λ found. found ≡ keys (labelled_edges self.now)) }
    {
        let mut found = List::new(alloc);
        for place in &self.places {
            if let Some(edge) = place {
                found.push(edge.key())?;
            }
        }
        Ok(found)
    }

    /// How many labels have lists of keys.
    pub fn label_count(&self) -> usize
        ensures { result ≡ length self.now.beside.items }
    {
        self.beside.len()
    }

    /// The label of a face.
    pub fn label(&self, face: u32) -> u32
        requires { face < length self.now.labels.labels.items }
        ensures { result ≡ label_of self.now.labels face }
    {
        self.labels.label(face)
    }
}
