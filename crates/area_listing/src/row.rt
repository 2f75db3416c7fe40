//! The words of a line of a listing, one after another.

ghost use Rattle.std.specs.Prelude.{◌≡◌};
ghost use Rattle.std.specs.Option.{ok_or};
ghost use Rattle.line_forms.specs.ListingLines.{word_at, coordinate_to, naturals_at, points_at, head_at, read_points};
ghost use Rattle.map_forms.specs.Version.{coordinate_of, version_at};
ghost use Rattle.tgap_model.specs.declared.fault.MapFault.TheVariants.{BadLine};
ghost use Rattle.plain_io.specs.Taking.{Takes, Reads, Gives, GivesOnto, GivesWhole};
ghost use Rattle.plain_io.specs.Fronts.{with_front};
ghost use Rattle.area_listing.specs.Reading.{point_at, ReadsHead};

use map_forms::Version;
use plain_io::{Pieces, after_word, at_line, ended, natural_at, number_at};
use std::alloc::Global;
use tgap_model::{List, MAX_COMPATIBILITY, MapFault, Or, Point, are_without_repeat};

/// The next word, a number of 32 bits with a sign.
pub fn word_at(words: &mut Pieces) -> Option<i32>
    ensures { Takes result words.old words.new (word_at words.old) }
{
    let number = number_at(words, i32::MIN as i64, i32::MAX as i64)?;
    Some(number as i32)
}

/// The next word, the number of a version.
pub fn version_at(words: &mut Pieces) -> Option<Version>
    ensures { Reads result words.new (version_at words.old) }
{
    let word = words.next_piece()?;
    if word == b"1".as_slice() {
        Some(Version::One)
    } else if word == b"2".as_slice() {
        Some(Version::Two)
    } else {
        None
    }
}

/// The next word, a coordinate within those of the version.
fn coordinate_at(words: &mut Pieces, version: Version) -> Option<i64>
    ensures { Takes result words.old words.new (coordinate_to (coordinate_of version) words.old) }
{
    let most = version.coordinate();
    number_at(words, -most, most)
}

/// The next two words, the coordinates of a point.
fn point_at(words: &mut Pieces, version: Version) -> Option<Point>
    ensures { Reads result words.new (point_at (coordinate_of version) words.old) }
{
    let x = coordinate_at(words, version)?;
    let y = coordinate_at(words, version)?;
    Some(Point { x, y })
}

/// What stands before the points of an arc: its left and right face, which differ, and how many points it has.
#[derive(Clone, Copy)]
pub struct ArcHead {
    pub left: u32,
    pub right: u32,
    pub count: u32,
}

/// The head of an arc of a map with so many faces.
#[tactic(auto, unfolding(line_forms::specs::ListingLines::head_at))]
pub fn head_at(words: &mut Pieces, faces: u32) -> Option<ArcHead>
    ensures { ReadsHead result words.new (head_at faces words.old) }
{
    after_word(words, b"arc")?;
    let left = natural_at(words, 0, faces)?;
    let right = natural_at(words, 0, faces)?;
    let count = natural_at(words, 2, u32::MAX)?;
    if left == right {
        None
    } else {
        Some(ArcHead { left, right, count })
    }
}

/// The next `n` words of the line with this number, each a compatibility, put after those of `compat`.
pub fn push_compatibilities(
    words: &mut Pieces,
    line: u32,
    n: u32,
    compat: &mut List<u32>,
) -> Result<(), Or<MapFault>>
    ensures { GivesOnto result compat.new words.new
        (ok_or (with_front compat.old (naturals_at 0 MAX_COMPATIBILITY n words.old)) (BadLine line)) }
{
    for _ in 0..n {
        let value = at_line(line, natural_at(words, 0, MAX_COMPATIBILITY))?;
        compat.push(value)?;
    }
    Ok(())
}

/// The next `n` points of the line with this number, of two words each.
fn points_at(
    alloc: Global,
    words: &mut Pieces,
    version: Version,
    line: u32,
    n: u32,
) -> Result<List<Point>, Or<MapFault>>
    ensures { Gives result words.new (ok_or (points_at (coordinate_of version) n words.old) (BadLine line)) }
{
    let mut points = List::with_capacity(alloc, n as usize)?;
    for _ in 0..n {
        let point = at_line(line, point_at(words, version))?;
        points.push(point)?;
    }
    Ok(points)
}

/// The `n` points to the end of the line with this number, no two in a row equal.
#[tactic(auto, unfolding(line_forms::specs::ListingLines::read_points))]
pub fn read_points(
    alloc: Global,
    words: &mut Pieces,
    version: Version,
    line: u32,
    n: u32,
) -> Result<List<Point>, Or<MapFault>>
    ensures { GivesWhole result (ok_or (read_points (coordinate_of version) n words.old) (BadLine line)) }
{
    let points = points_at(alloc, words, version, line, n)?;
    at_line(line, are_without_repeat(points.as_slice()).then_some(()))?;
    at_line(line, ended(words, points))
}
