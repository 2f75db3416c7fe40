//! A slice while records are undone on it.

ghost use Rattle.std.specs.Prelude.{◌≡◌, ◌==◌, map, find, IfOk, IsTrue};
ghost use Rattle.std.specs.Option.{option_map};
ghost use Rattle.std.specs.List.{list_any};
ghost use Rattle.slice_forms.specs.SliceForms.{is_slice_row};
ghost use Rattle.client_replay.specs.Working.{edge_of, edges_of, slice_of, IsSound};

use crate::coming::add_copies;
use crate::faces::{faces_of, rows_in_order};
use crate::labels::Labels;
use crate::lines::{Line, put_all};
use std::alloc::Global;
use std::collections::BTreeMap;
use tgap_model::{Edge, List, Memory, Slice};

/// A slice, where faces and edges are found by their numbers and keys, and a face takes the place of another at all its edges
/// at once.
#[derive(Drop)]
pub struct Working {
    pub step: u32,
    pub faces: BTreeMap<u32, u32>,
    pub lines: BTreeMap<u32, Line>,
    pub labels: Labels,
}

/// The edge of a line.
fn edge_of(labels: &Labels, key: u32, line: Line) -> Edge
    ensures { result ≡ edge_of labels.now (key, line) }
{
    Edge {
        key,
        left: labels.face(line.left),
        right: labels.face(line.right),
        points: line.points,
    }
}

/// The edges in the order of their keys.
fn edges_in_order(
    alloc: Global,
    lines: BTreeMap<u32, Line>,
    labels: &Labels,
) -> Result<List<Edge>, Memory>
    ensures { IfOk result (λ edges. edges ≡ edges_of labels.now lines.entries) }
{
    let mut edges = Vec::with_capacity(alloc, lines.len())?;
    for (key, line) in lines {
        edges.push(edge_of(labels, key, line))?;
    }
    Ok(List::from(edges))
}

impl Working {
    /// A slice to work on. Its points are copied.
    pub fn of(alloc: Global, slice: &Slice) -> Result<Working, Memory>
        requires { IsTrue (is_slice_row slice.now) }
        ensures sound { IfOk result (λ working. IsSound working) }
        ensures same { IfOk result (λ working. slice_of working ≡ slice.now) }
    {
        let faces = faces_of(alloc, slice.faces.as_slice())?;
        let mut lines = BTreeMap::new(alloc);
        let mut labels = Labels::new(alloc);
        let mut edges = Vec::new(alloc);
        add_copies(alloc, slice.edges.as_slice(), &mut edges)?;
        put_all(&mut lines, &mut labels, edges)?;
        Ok(Working {
            step: slice.step,
            faces,
            lines,
            labels,
        })
    }

    /// The slice that it is. No point is copied.
    pub fn into_slice(self, alloc: Global) -> Result<Slice, Memory>
        ensures { IfOk result (λ slice. slice ≡ slice_of self) }
    {
        let Working {
            step,
            faces,
            lines,
            labels,
        } = self;
        Ok(Slice {
            step,
            faces: rows_in_order(alloc, faces)?,
            edges: edges_in_order(alloc, lines, &labels)?,
        })
    }

    /// The line of the edge with this key, where there is one.
    pub fn line(&self, key: u32) -> Option<&Line>
        ensures { option_map (λ l. edge_of self.now.labels (key, l.now)) result ≡ find (λ e. e.key == key) (edges_of self.now.labels self.now.lines.entries) }
    {
        self.lines.get(&key)
    }

    /// Whether there is an edge with this key.
    pub fn has_edge(&self, key: u32) -> bool
        ensures { result ≡ list_any (λ e. e.key == key) (edges_of self.now.labels self.now.lines.entries) }
    {
        self.lines.contains_key(&key)
    }
}
