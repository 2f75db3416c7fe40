//! The sections of a listing: its rules, its faces and its arcs, each with its count before it.

ghost use Rattle.std.specs.Prelude.{◌≡◌, ◌≤◌};
ghost use Rattle.map_forms.specs.Listing.{classes_at, faces_at, arcs_at, rules_at, all_faces_at, all_arcs_at};
ghost use Rattle.plain_io.specs.Taking.{Gives};

use crate::line::{count_line, read_arc, read_class, read_count, read_face};
use map_forms::Version;
use plain_io::{Lines, at_line};
use std::alloc::Global;
use tgap_model::{BaseArc, LimitKind, List, MAX_CLASSES, MAX_RATIO, MapFault, Or, Rules};

/// The line of the ratio, and the classes.
#[tactic(auto, unfolding(map_forms::specs::Listing::rules_at))]
pub fn read_rules(alloc: Global, lines: &mut Lines) -> Result<Rules, Or<MapFault>>
    ensures { Gives result lines.new (rules_at lines.old) }
{
    let ratio = at_line(lines.number(), read_count(lines, b"ratio", 0, MAX_RATIO))?;
    let count = count_line(lines, LimitKind::Classes, 1)?;
    let (weights, compat) = classes_at(alloc, lines, count)?;
    Ok(Rules {
        ratio,
        weights,
        compat,
    })
}

/// The number of the faces, and the class of each, where there are so many classes.
#[tactic(auto, unfolding(map_forms::specs::Listing::all_faces_at))]
pub fn read_faces(alloc: Global, lines: &mut Lines, classes: u32) -> Result<List<u32>, Or<MapFault>>
    ensures { Gives result lines.new (all_faces_at classes lines.old) }
{
    let count = count_line(lines, LimitKind::Faces, 0)?;
    faces_at(alloc, lines, classes, count)
}

/// The number of the arcs, and each arc, of a map with so many faces, within the limits of the version.
#[tactic(auto, unfolding(map_forms::specs::Listing::all_arcs_at))]
pub fn read_arcs(
    alloc: Global,
    lines: &mut Lines,
    version: Version,
    faces: u32,
) -> Result<List<BaseArc>, Or<MapFault>>
    ensures { Gives result lines.new (all_arcs_at version faces lines.old) }
{
    let count = count_line(lines, LimitKind::Arcs, 0)?;
    arcs_at(alloc, lines, version, faces, count)
}

/// The weights of the next `n` classes, from class 0 on, and their compatibilities, row after row.
fn classes_at(
    alloc: Global,
    lines: &mut Lines,
    n: u32,
) -> Result<(List<u32>, List<u32>), Or<MapFault>>
    requires { n ≤ MAX_CLASSES }
    ensures { Gives result lines.new (classes_at n 0 n lines.old) }
{
    let mut weights = List::with_capacity(alloc, n as usize)?;
    let mut compat = List::with_capacity(alloc, n as usize * n as usize)?;
    for class in 0..n {
        let weight = read_class(lines, n, class, &mut compat)?;
        weights.push(weight)?;
    }
    Ok((weights, compat))
}

/// The classes of the next `n` faces, from face 1 on, where there are so many classes.
fn faces_at(
    alloc: Global,
    lines: &mut Lines,
    classes: u32,
    n: u32,
) -> Result<List<u32>, Or<MapFault>>
    ensures { Gives result lines.new (faces_at classes 1 n lines.old) }
{
    let mut all = List::with_capacity(alloc, n as usize)?;
    for before in 0..n {
        let class = at_line(lines.number(), read_face(lines, classes, before + 1))?;
        all.push(class)?;
    }
    Ok(all)
}

/// The next `n` arcs of a map with so many faces.
fn arcs_at(
    alloc: Global,
    lines: &mut Lines,
    version: Version,
    faces: u32,
    n: u32,
) -> Result<List<BaseArc>, Or<MapFault>>
    ensures { Gives result lines.new (arcs_at version faces 0 n lines.old) }
{
    let mut arcs = List::with_capacity(alloc, n as usize)?;
    let mut points = 0;
    for _ in 0..n {
        let arc = read_arc(alloc, lines, version, faces, points)?;
        points += arc.points.len();
        arcs.push(arc)?;
    }
    Ok(arcs)
}
