//! Whether each face has a border. The faces with one are marked in the list of classes itself, so it takes no memory.

ghost use Rattle.std.specs.Prelude.{◌≡◌, ◌≤◌, ◌%◌, IsTrue, Some, None, length, map, nat_le, nat_lt, if◌then◌else◌};
ghost use Rattle.std.specs.List.{list_all, list_any};
ghost use Rattle.tgap_model.specs.Base.{is_arc, borders_face, all_faces_bordered};
ghost use Rattle.tgap_model.specs.Marks.{marked, mark_on};

use crate::base::BaseArc;
use crate::limits::MAX_CLASSES;
use crate::list::List;

/// What a mark adds to an entry. Each class is below it.
const MARK: u32 = MAX_CLASSES as u32;

/// Marks the entry of a face, once. The outside has no entry.
fn mark_face(entries: &mut [u32], face: u32)
    requires face_in { face ≤ length entries.old }
    ensures { entries.new ≡ mark_on face entries.old }
{
    if face > 0 {
        let entry = &mut entries[face as usize - 1];
        if *entry < MARK {
            *entry += MARK;
        }
    }
}

/// Marks the entry of each face that some arc has at its side.
fn mark_bordered(classes: &mut [u32], arcs: &[BaseArc])
    requires classes { IsTrue (list_all (λ k. nat_lt k MARK) classes.old) }
    requires arcs { IsTrue (list_all (is_arc (length classes.old)) arcs.now) }
    ensures { classes.new ≡ marked (λ f. list_any (borders_face f) arcs.now) 1 classes.old }
{
    for arc in arcs {
        mark_face(classes, arc.left);
        mark_face(classes, arc.right);
    }
}

/// Whether each entry has a mark.
fn are_marked(entries: &[u32]) -> bool
    ensures { result ≡ list_all (λ k. nat_le MARK k) entries.now }
{
    entries.iter().all(|k| *k >= MARK)
}

/// Takes the mark off each entry.
fn take_marks_off(entries: &mut [u32])
    ensures { entries.new ≡ map (λ k. k % MARK) entries.old }
{
    for entry in entries.iter_mut() {
        *entry %= MARK;
    }
}

/// Whether each face has a border. The classes are changed on the way, and are as before at the return.
fn are_bordered(classes: &mut [u32], arcs: &[BaseArc]) -> bool
    requires classes { IsTrue (list_all (λ k. nat_lt k MARK) classes.old) }
    requires arcs { IsTrue (list_all (is_arc (length classes.old)) arcs.now) }
    ensures value { result ≡ all_faces_bordered (length classes.old) arcs.now }
    ensures same { classes.new ≡ classes.old }
{
    mark_bordered(classes, arcs);
    let is_each_marked = are_marked(classes);
    take_marks_off(classes);
    is_each_marked
}

/// The classes again where each face has a border, otherwise None.
pub fn with_borders(classes: List<u32>, arcs: &[BaseArc]) -> Option<List<u32>>
    requires classes { IsTrue (list_all (λ k. nat_lt k MARK) classes) }
    requires arcs { IsTrue (list_all (is_arc (length classes)) arcs.now) }
    ensures { result ≡ (if all_faces_bordered (length classes) arcs.now then Some classes else None) }
{
    let mut entries = classes.into_vec();
    if are_bordered(entries.as_mut_slice(), arcs) {
        Some(List::from(entries))
    } else {
        None
    }
}
