//! The text of a slice.

ghost use Rattle.std.specs.Prelude.{◌≡◌, ◌<◌, ◌≤◌, ◌+◌, ◌++◌, ◌∷◌, ◌↔◌, ℕ, List, codes, length, map, All, IfOk, OnOk, Err, IsTrue, true};
ghost use Rattle.tgap_model.specs.declared.slice.Removal.{Removal};
ghost use Rattle.tgap_model.specs.Base.{is_base};
ghost use Rattle.tgap_model.specs.History.{history_of};
ghost use Rattle.tgap_model.specs.Merged.{merged};
ghost use Rattle.tgap_model.specs.Chains.{chains_at};
ghost use Rattle.tgap_model.specs.Removals.{edge_of, edges_of};
ghost use Rattle.tgap_model.specs.Slice.{slice};
ghost use Rattle.line_forms.specs.Texts.{line, lines};
ghost use Rattle.map_forms.specs.Listing.{count_words};
ghost use Rattle.wire_text.specs.SliceTexts.{face_words, edge_words, slice_text};
ghost use Rattle.face_tree.specs.Tree.{IsFace, face_history};
ghost use Rattle.edge_forest.specs.Edges.{edge_at, chain_of};
ghost use Rattle.edge_forest.specs.Forest.{last_step};
ghost use Rattle.tgap_build.specs.Built.{AreGone};
ghost use Rattle.slice_read.specs.declared.fail.ReadFail.TheVariants.{StepTooHigh};
ghost use Rattle.slice_read.specs.Reading.{live_rows};
ghost use Rattle.slice_read.specs.Windows.{row_of};

use edge_forest::{Forest, PointRoom};
use face_tree::FaceTree;
use slice_read::ReadFail;
use std::alloc::Global;
use std::marker::Brand;
use std::sync::ledger::{Blank, Ledger};
use tgap_build::Built;
use tgap_model::{FaceRow, List, Memory, Steps, Text};
use wire_text::{RowRoom, put_count_line, put_edge, put_face};

/// The text of the slice after k steps, as `wire_text::slice_text` of `slice_read::slice_at`, written without making the
/// slice. There is none after more steps than the history has. The time is that of the faces, of the edges and of their
/// points, with a sort of each.
pub fn slice_text_at(alloc: Global, built: &Built, k: u32) -> Result<Text, ReadFail>
    // It is the text of the slice by the definition.
    ensures exact { IfOk result (λ text. text ≡ slice_text (slice built.now k)) }
    // It is refused exactly where k is above the number of the last step, which the refusal tells.
    ensures high { (steps : ℕ) → (result ≡ Err (StepTooHigh steps)) ↔ ((length (history_of built.now) < k) × (steps ≡ length (history_of built.now))) }
{
    let made = built.steps();
    if k > made {
        return Err(ReadFail::StepTooHigh { steps: made });
    }
    // The look at the base, which costs nothing, tells that it is a base map.
    let _ = built.base();
    let tree = built.tree();
    let forest = built.forest();
    let ids = ids_at::<Brand>(alloc, forest, k, Blank::new(1))?;
    let mut text = Text::new(alloc);
    put_count_line(&mut text, b"slice", k as usize)?;
    put_faces_at(alloc, &mut text, tree, k)?;
    put_count_line(&mut text, b"edges", ids.len())?;
    put_edges_at(alloc, &mut text, tree, forest, ids.as_slice(), k)?;
    text.push_slice(b"end\n")?;
    Ok(text)
}

/// The numbers of the edges that are there after k steps, where nobody counts the looks that it takes.
fn ids_at<L: Ledger>(
    alloc: Global,
    forest: &Forest,
    k: u32,
    blank: Blank,
) -> Result<List<u32>, Memory>
    requires closed { forest.now.closed ≡ true }
    requires step { k ≤ last_step forest.now }
    requires name { blank.name ≡ L.name }
    requires parts { blank.parts ≡ L.parts }
    requires some { 0 < blank.parts }
    ensures within { IfOk result (λ ids. All (λ id. id < length forest.now.edges) ids) }
    ensures low { IfOk result (λ ids. All (λ id. (edge_at forest.now.edges id).low ≤ k) ids) }
    ensures chains { IfOk result (λ ids. map (chain_of forest.now.edges) ids ≡ chains_at (merged forest.now.base) k) }
{
    let mut steps = Steps::<L>::new(blank);
    forest.alive(alloc, k, &mut steps)
}

/// Appends the line of the number of the faces that are live after k steps, and a line for each of them, by number.
fn put_faces_at(alloc: Global, out: &mut Text, tree: &FaceTree, k: u32) -> Result<(), Memory>
    requires { k ≤ length tree.now.steps }
    ensures { OnOk result (out.new ≡ out.old ++ lines (count_words (codes "faces") (length (live_rows tree.now k (tree.now.faces + k)))
        ∷ map face_words (live_rows tree.now k (tree.now.faces + k)))) }
{
    let faces = tree.live_at(alloc, k)?;
    put_faces(out, tree, &faces)
}

/// Appends the line of the number of these faces, and a line for each of them.
fn put_faces(out: &mut Text, tree: &FaceTree, faces: &[u32]) -> Result<(), Memory>
    requires { All (IsFace tree.now) faces.now }
    ensures { OnOk result
        (out.new ≡ out.old ++ lines (count_words (codes "faces") (length faces.now) ∷ map face_words (map (row_of tree.now) faces.now))) }
{
    put_count_line(out, b"faces", faces.len())?;
    for face in faces {
        let class = tree.class(*face);
        put_face(out, &FaceRow { face: *face, class })?;
    }
    Ok(())
}

/// Room for one edge after the other: for its points, and for its row.
#[derive(Drop)]
struct EdgeRoom {
    points: PointRoom,
    row: RowRoom,
}

/// Appends a line for each of these edges, as they are after k steps, less the vertices that were removed by then.
fn put_edges_at(
    alloc: Global,
    out: &mut Text,
    tree: &FaceTree,
    forest: &Forest,
    ids: &[u32],
    k: u32,
) -> Result<(), Memory>
    requires base { IsTrue (is_base forest.now.base) }
    requires history { tree.now ≡ face_history (merged forest.now.base) }
    requires within { All (λ id. id < length forest.now.edges) ids.now }
    requires low { All (λ id. (edge_at forest.now.edges id).low ≤ k) ids.now }
    requires step { k ≤ length (history_of forest.now.base) }
    ensures { (removals : List Removal) → AreGone forest.now k removals
        → OnOk result (out.new ≡ out.old ++ lines (map edge_words (edges_of (merged forest.now.base) k removals (map (chain_of forest.now.edges) ids.now)))) }
{
    let mut room = EdgeRoom {
        points: PointRoom::new(alloc),
        row: RowRoom::new(),
    };
    for id in ids {
        put_edge_at(alloc, out, &mut room, tree, forest, *id, k)?;
    }
    Ok(())
}

/// Appends the line of an edge of the forest, as it is after k steps: the faces at its sides are those that its first ones
/// have become, and the vertices that were removed by then are left out.
fn put_edge_at(
    alloc: Global,
    out: &mut Text,
    room: &mut EdgeRoom,
    tree: &FaceTree,
    forest: &Forest,
    id: u32,
    k: u32,
) -> Result<(), Memory>
    requires base { IsTrue (is_base forest.now.base) }
    requires history { tree.now ≡ face_history (merged forest.now.base) }
    requires edge { id < length forest.now.edges }
    requires low { (edge_at forest.now.edges id).low ≤ k }
    requires step { k ≤ length (history_of forest.now.base) }
    ensures { (removals : List Removal) → AreGone forest.now k removals
        → OnOk result (out.new ≡ out.old ++ line (edge_words (edge_of (merged forest.now.base) k removals (chain_of forest.now.edges id)))) }
{
    let edge = forest.edge(id);
    let left = tree.ancestor(edge.left, k);
    let right = tree.ancestor(edge.right, k);
    forest.read_points(alloc, id, k, &mut room.points)?;
    let points = room.points.as_slice();
    put_edge(out, &mut room.row, edge.key, left, right, points)
}
