//! The edges of a slice by their keys, with labels in place of faces.

ghost use Rattle.std.specs.Prelude.{◌≡◌, ◌++◌, ◌==◌, false, not, map, filter, AllPairs, IsPermutation, OnOk};
ghost use Rattle.std.specs.List.{list_any};
ghost use Rattle.std.specs.BTreeMap.{IsOrdered};
ghost use Rattle.std.specs.Ordering.{nat_cmp};
ghost use Rattle.lemmas.specs.Sorting.{insert_by};
ghost use Rattle.tgap_model.specs.Records.{edge_before, in_place_of};
ghost use Rattle.client_replay.specs.Coming.{lowered, staying};
ghost use Rattle.client_replay.specs.Labels.{AreExact};
ghost use Rattle.client_replay.specs.Working.{edges_of, AreLabelled, DifferInKey, moved};

use crate::labels::Labels;
use crate::pieces::in_place_of;
use std::collections::BTreeMap;
use tgap_model::{Edge, List, Memory, Mend, Point, StepRecord};

/// An edge without its key, and with labels in place of its faces.
#[derive(Drop)]
pub struct Line {
    pub left: usize,
    pub right: usize,
    pub points: List<Point>,
}

/// Puts an edge in, whose key is new.
fn put(lines: &mut BTreeMap<u32, Line>, labels: &mut Labels, edge: Edge) -> Result<(), Memory>
    requires ordered { IsOrdered nat_cmp lines.old }
    requires exact { AreExact labels.old }
    requires labelled { AreLabelled labels.old lines.old.entries }
    requires new { list_any (λ e. e.key == edge.key) (edges_of labels.old lines.old.entries) ≡ false }
    ensures ordered { OnOk result (IsOrdered nat_cmp lines.new) }
    ensures exact { OnOk result (AreExact labels.new) }
    ensures labelled { OnOk result (AreLabelled labels.new lines.new.entries) }
    ensures put { OnOk result (edges_of labels.new lines.new.entries ≡ insert_by edge_before edge (edges_of labels.old lines.old.entries)) }
{
    let Edge {
        key,
        left,
        right,
        points,
    } = edge;
    let left = labels.label_for(left)?;
    let right = labels.label_for(right)?;
    lines.insert(
        key,
        Line {
            left,
            right,
            points,
        },
    )?;
    Ok(())
}

/// Puts edges in, whose keys are new and differ.
pub fn put_all(
    lines: &mut BTreeMap<u32, Line>,
    labels: &mut Labels,
    edges: Vec<Edge>,
) -> Result<(), Memory>
    requires ordered { IsOrdered nat_cmp lines.old }
    requires exact { AreExact labels.old }
    requires labelled { AreLabelled labels.old lines.old.entries }
    requires apart { AllPairs DifferInKey (edges_of labels.old lines.old.entries ++ edges.items) }
    ensures ordered { OnOk result (IsOrdered nat_cmp lines.new) }
    ensures exact { OnOk result (AreExact labels.new) }
    ensures labelled { OnOk result (AreLabelled labels.new lines.new.entries) }
    ensures put { OnOk result (IsPermutation (edges_of labels.old lines.old.entries ++ edges.items) (edges_of labels.new lines.new.entries)) }
{
    for edge in edges {
        put(lines, labels, edge)?;
    }
    Ok(())
}

/// Takes out the edges that these mends name.
pub fn take_mended(lines: &mut BTreeMap<u32, Line>, mends: &[Mend])
    requires { IsOrdered nat_cmp lines.old }
    ensures ordered { IsOrdered nat_cmp lines.new }
    ensures left { lines.new.entries ≡ filter (λ p. not (list_any (λ m. m.key == p.0) mends.now)) lines.old.entries }
{
    for mend in mends {
        lines.remove(&mend.key);
    }
}

/// One label in place of another.
fn moved_label(from: usize, to: usize, label: usize) -> usize
    ensures { result ≡ in_place_of from to label }
{
    if label == from { to } else { label }
}

/// Sets one label in place of another in all lines.
fn move_label(lines: &mut BTreeMap<u32, Line>, from: usize, to: usize)
    ensures ordered { IsOrdered nat_cmp lines.new }
    ensures moved { lines.new.entries ≡ map (λ p. (p.0, moved from to p.1)) lines.old.entries }
{
    lines.retain(|_key, line| {
        line.left = moved_label(from, to, line.left);
        line.right = moved_label(from, to, line.right);
        true
    });
}

/// Lets the winner take the place of the new face at all edges. It takes over its label, so that no edge is visited. Only
/// where the winner has a label already, which is so in no packet of a map, all edges are.
pub fn lower(
    lines: &mut BTreeMap<u32, Line>,
    labels: &mut Labels,
    step_record: &StepRecord,
) -> Result<(), Memory>
    requires ordered { IsOrdered nat_cmp lines.old }
    requires exact { AreExact labels.old }
    requires labelled { AreLabelled labels.old lines.old.entries }
    ensures ordered { OnOk result (IsOrdered nat_cmp lines.new) }
    ensures exact { OnOk result (AreExact labels.new) }
    ensures labelled { OnOk result (AreLabelled labels.new lines.new.entries) }
    ensures lowered { OnOk result (edges_of labels.new lines.new.entries ≡ map (lowered step_record.now) (edges_of labels.old lines.old.entries)) }
{
    let made = step_record.made;
    let winner = step_record.winner;
    let Some(label) = labels.label(made) else {
        return Ok(());
    };
    match labels.label(winner) {
        None => labels.pass_on(label, made, winner),
        Some(other) => {
            move_label(lines, label, other);
            Ok(())
        }
    }
}

/// Takes out the edges that mends name, lets the winner take the place of the new face at the others, and puts in edges whose keys
/// are new then and differ.
pub fn change_edges(
    lines: &mut BTreeMap<u32, Line>,
    labels: &mut Labels,
    step_record: &StepRecord,
    edges: Vec<Edge>,
) -> Result<(), Memory>
    requires ordered { IsOrdered nat_cmp lines.old }
    requires exact { AreExact labels.old }
    requires labelled { AreLabelled labels.old lines.old.entries }
    requires apart { AllPairs DifferInKey (staying step_record.now (edges_of labels.old lines.old.entries) ++ edges.items) }
    ensures ordered { OnOk result (IsOrdered nat_cmp lines.new) }
    ensures exact { OnOk result (AreExact labels.new) }
    ensures labelled { OnOk result (AreLabelled labels.new lines.new.entries) }
    ensures put { OnOk result (IsPermutation (staying step_record.now (edges_of labels.old lines.old.entries) ++ edges.items) (edges_of labels.new lines.new.entries)) }
{
    take_mended(lines, step_record.mends.as_slice());
    lower(lines, labels, step_record)?;
    put_all(lines, labels, edges)
}
