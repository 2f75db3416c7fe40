//! The faces of a slice by their numbers, each with its class.

ghost use Rattle.std.specs.Prelude.{◌≡◌, ◌≢◌, ◌&&◌, ◌==◌, ℕ, false, None, IfOk, OnOk, IsTrue, ◌++◌, map, filter, AllPairs, nat_lt};
ghost use Rattle.std.specs.List.{list_all, list_any};
ghost use Rattle.std.specs.BTreeMap.{IsOrdered, get};
ghost use Rattle.std.specs.BTreeSet.{contains};
ghost use Rattle.std.specs.Ordering.{nat_cmp};
ghost use Rattle.lemmas.specs.Sorting.{is_sorted_by, insert_by, sort_by};
ghost use Rattle.tgap_model.specs.Records.{face_before};
ghost use Rattle.client_replay.specs.Coming.{faces_before};
ghost use Rattle.client_replay.specs.Windows.{is_known};
ghost use Rattle.client_replay.specs.Working.{row_of, rows_of, DifferBy};

use std::alloc::Global;
use std::collections::{BTreeMap, BTreeSet};
use tgap_model::{FaceRow, List, Memory, StepRecord};

/// Whether there is this face.
pub fn has_face(faces: &BTreeMap<u32, u32>, face: u32) -> bool
    ensures { result ≡ list_any (λ f. f.face == face) (rows_of faces.now.entries) }
{
    faces.contains_key(&face)
}

/// Whether there is this face, with this class.
pub fn has_row(faces: &BTreeMap<u32, u32>, face: u32, class: u32) -> bool
    requires { IsOrdered nat_cmp faces.now }
    ensures { result ≡ list_any (λ f. (f.face == face) && (f.class == class)) (rows_of faces.now.entries) }
{
    match faces.get(&face) {
        Some(found) => *found == class,
        None => false,
    }
}

/// Puts a face in, whose number is new.
fn put(faces: &mut BTreeMap<u32, u32>, row: FaceRow) -> Result<(), Memory>
    requires { get nat_cmp faces.old row.face ≡ None }
    ensures put { OnOk result (rows_of faces.new.entries ≡ insert_by face_before row (rows_of faces.old.entries)) }
    ensures others { OnOk result ((q : ℕ) → q ≢ row.face → get nat_cmp faces.new q ≡ get nat_cmp faces.old q) }
    ensures ordered { IsOrdered nat_cmp faces.new }
{
    faces.insert(row.face, row.class)?;
    Ok(())
}

/// These faces, whose numbers ascend, by their numbers.
pub fn faces_of(alloc: Global, rows: &[FaceRow]) -> Result<BTreeMap<u32, u32>, Memory>
    requires { IsTrue (is_sorted_by nat_lt (map (λ f. f.face) rows.now)) }
    ensures rows { IfOk result (λ faces. rows_of faces.entries ≡ rows.now) }
    ensures ordered { IfOk result (λ faces. IsOrdered nat_cmp faces) }
{
    let mut faces = BTreeMap::new(alloc);
    for row in rows {
        put(&mut faces, *row)?;
    }
    Ok(faces)
}

/// The faces in the order of their numbers.
pub fn rows_in_order(alloc: Global, faces: BTreeMap<u32, u32>) -> Result<List<FaceRow>, Memory>
    ensures { IfOk result (λ rows. rows ≡ rows_of faces.entries) }
{
    let mut rows = Vec::with_capacity(alloc, faces.len())?;
    for (face, class) in faces {
        rows.push(FaceRow { face, class })?;
    }
    Ok(List::from(rows))
}

/// Puts loser and winner in place of the new face.
pub fn part(faces: &mut BTreeMap<u32, u32>, step_record: &StepRecord) -> Result<(), Memory>
    requires loser { get nat_cmp faces.old step_record.now.loser ≡ None }
    requires winner { get nat_cmp faces.old step_record.now.winner ≡ None }
    requires apart { (step_record.now.loser == step_record.now.winner) ≡ false }
    requires ordered { IsOrdered nat_cmp faces.old }
    ensures parted { OnOk result (rows_of faces.new.entries ≡ faces_before (rows_of faces.old.entries) step_record.now) }
    ensures ordered { IsOrdered nat_cmp faces.new }
{
    faces.remove(&step_record.made);
    put(
        faces,
        FaceRow {
            face: step_record.winner,
            class: step_record.winner_class,
        },
    )?;
    put(
        faces,
        FaceRow {
            face: step_record.loser,
            class: step_record.loser_class,
        },
    )
}

/// Puts faces in, whose numbers are new and differ.
pub fn put_rows(faces: &mut BTreeMap<u32, u32>, rows: &[FaceRow]) -> Result<(), Memory>
    requires ordered { IsOrdered nat_cmp faces.old }
    requires apart { AllPairs (DifferBy (λ (f : FaceRow). f.face)) (rows_of faces.old.entries ++ rows.now) }
    ensures put { OnOk result (rows_of faces.new.entries ≡ sort_by face_before (rows_of faces.old.entries ++ rows.now)) }
    ensures ordered { OnOk result (IsOrdered nat_cmp faces.new) }
{
    for row in rows {
        put(faces, *row)?;
    }
    Ok(())
}

/// Takes out the faces that are not among these.
pub fn keep_faces(faces: &mut BTreeMap<u32, u32>, kept: &BTreeSet<u32>)
    ensures kept { rows_of faces.new.entries ≡ filter (λ f. contains nat_cmp kept.now f.face) (rows_of faces.old.entries) }
    ensures ordered { IsOrdered nat_cmp faces.new }
{
    faces.retain(|face, _class| kept.contains(face));
}

/// Whether one of these rows, whose numbers ascend, is that of the face.
fn has_row_of(rows: &[FaceRow], face: u32) -> bool
    requires { IsTrue (is_sorted_by nat_lt (map (λ f. f.face) rows.now)) }
    ensures { result ≡ list_any (λ f. f.face == face) rows.now }
{
    rows.binary_search_by_key(&face, |row| row.face).is_ok()
}

/// Whether the face is the outside or has a row, one of these or of those beside them, whose numbers ascend.
fn is_known(faces: &BTreeMap<u32, u32>, rows: &[FaceRow], face: u32) -> bool
    requires { IsTrue (is_sorted_by nat_lt (map (λ f. f.face) rows.now)) }
    ensures { result ≡ is_known (rows_of faces.now.entries ++ rows.now) face }
{
    face == 0 || has_face(faces, face) || has_row_of(rows, face)
}

/// Whether each of some faces is the outside or has a row, one of these or of those beside them, whose numbers ascend.
pub fn are_known(faces: &BTreeMap<u32, u32>, rows: &[FaceRow], asked: &BTreeSet<u32>) -> bool
    requires { IsTrue (is_sorted_by nat_lt (map (λ f. f.face) rows.now)) }
    ensures { result ≡ list_all (is_known (rows_of faces.now.entries ++ rows.now)) asked.now.keys }
{
    for face in asked.iter() {
        if !is_known(faces, rows, *face) {
            return false;
        }
    }
    true
}
