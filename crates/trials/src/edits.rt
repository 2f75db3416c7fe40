//! Trials of nodes, cuts and fusions.

ghost use Rattle.std.specs.Prelude.{IfOk, IfSome, IsTrue};
ghost use Rattle.std.specs.List.{list_all};
ghost use Rattle.tgap_model.specs.Base.{in_limits};

use crate::map::load_map;
use crate::outcome::Outcome;
use area_listing::write_listing;
use face_cuts::{Cause, add_node, cut_face, fuse_faces};
use plain_io::{Files, Sink, put_count, read_number};
use std::alloc::Global;
use tgap_model::{Base, List, MAX_COORDINATE, Or, Point, Text};

/// Puts the listing of a map with a node where it has an inner vertex, or the cause for which there is none.
pub fn node<F: Files, S: Sink>(
    alloc: Global,
    map: &str,
    words: &[String],
    files: &mut F,
    out: &mut S,
) -> Result<(), Outcome> {
    let points = points_of(alloc, words)?;
    let [at] = points.as_slice() else {
        return Err(Outcome::Usage);
    };
    let base = load_map(alloc, map, files)?;
    tell(alloc, add_node(alloc, &base, *at), out)
}

/// Puts the listing of a map with a face that is cut in two, or the cause for which there is none.
pub fn cut<F: Files, S: Sink>(
    alloc: Global,
    map: &str,
    words: &[String],
    files: &mut F,
    out: &mut S,
) -> Result<(), Outcome> {
    let [face, class, points @ ..] = words else {
        return Err(Outcome::Usage);
    };
    let (face, class) = (natural(face)?, natural(class)?);
    let points = points_of(alloc, points)?;
    if points.len() < 2 {
        return Err(Outcome::Usage);
    }
    let base = load_map(alloc, map, files)?;
    tell(alloc, cut_face(alloc, &base, face, class, &points), out)
}

/// Puts the listing of a map with two faces that became one, or the cause for which there is none.
pub fn fuse<F: Files, S: Sink>(
    alloc: Global,
    map: &str,
    words: &[String],
    files: &mut F,
    out: &mut S,
) -> Result<(), Outcome> {
    let [kept, gone] = words else {
        return Err(Outcome::Usage);
    };
    let (kept, gone) = (natural(kept)?, natural(gone)?);
    let base = load_map(alloc, map, files)?;
    tell(alloc, fuse_faces(alloc, &base, kept, gone), out)
}

/// Puts the listing of what an edit made, or its cause.
fn tell<S: Sink>(alloc: Global, made: Result<Base, Or<Cause>>, out: &mut S) -> Result<(), Outcome> {
    match made {
        Ok(base) => {
            let text = write_listing(alloc, &base)?;
            Ok(out.put(text.as_slice())?)
        }
        Err(Or::Fault(cause)) => {
            let mut text = Text::from_slice(alloc, b"cause")?;
            put_count(alloc, &mut text, u32::from(cause.number))?;
            text.push_slice(b"\n")?;
            out.put(text.as_slice())?;
            Err(Outcome::Refused)
        }
        Err(Or::Memory) => Err(Outcome::Memory),
    }
}

/// The number that a word spells.
pub fn natural(word: &String) -> Result<u32, Outcome> {
    match read_number(word.as_bytes(), 0, i64::from(u32::MAX)) {
        Some(number) => Ok(number as u32),
        None => Err(Outcome::Usage),
    }
}

/// The point whose coordinates two words spell.
fn point_of(words: &[String]) -> Option<Point>
    ensures { IfSome result (λ p. IsTrue (in_limits p)) }
{
    let [x, y] = words else {
        return None;
    };
    let x = read_number(x.as_bytes(), -MAX_COORDINATE, MAX_COORDINATE)?;
    let y = read_number(y.as_bytes(), -MAX_COORDINATE, MAX_COORDINATE)?;
    Some(Point { x, y })
}

/// The points whose coordinates the words spell.
fn points_of(alloc: Global, words: &[String]) -> Result<List<Point>, Outcome>
    ensures { IfOk result (λ points. IsTrue (list_all in_limits points)) }
{
    let mut points = List::new(alloc);
    for pair in words.chunks(2) {
        match point_of(pair) {
            Some(point) => points.push(point)?,
            None => return Err(Outcome::Usage),
        }
    }
    Ok(points)
}
