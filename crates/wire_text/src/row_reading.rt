//! Reading the lines that slices and packets share: counts, faces, edges with their points, and the last line.

ghost use Rattle.std.specs.Prelude.{◌≡◌, ◌≤◌, ◌+◌, ◌-◌, ◌^◌, ◌∷◌, [], codes};
ghost use Rattle.std.specs.Option.{ok_or};
ghost use Rattle.line_forms.specs.Words.{natural_at, read_words};
ghost use Rattle.line_forms.specs.Lines.{read_row, read_line};
ghost use Rattle.line_forms.specs.ListingLines.{read_count, coordinate_at, points_at, read_points};
ghost use Rattle.wire_text.specs.SliceReading.{read_face_row, edge_head_at, edge_at, last_at};
ghost use Rattle.plain_io.specs.Taking.{Takes, Reads, Gives, GivesWhole};
ghost use Rattle.wire_text.specs.Reading.{bad_text, point_at, ReadsAs, edge_numbers};

use plain_io::{
    LineFault, Lines, Pieces, after_word, at_line, count_at, ended, natural_at, number_at,
};
use std::alloc::Global;
use tgap_model::{Edge, FaceRow, List, MAX_COORDINATE, Or, Point, are_without_repeat};

/// The fault of a text of a slice or of a packet: the number of the first line that is out of form. A line that is
/// missing, a last one without its line feed and what stands after the last one count as such a line.
#[derive(Clone, Copy, Debug, PartialEq, Eq)]
pub struct BadText {
    pub line: u32,
}

impl LineFault for BadText {
    ghost use Rattle.wire_text.specs.Reading.{bad_text};

    ghost bad = { bad_text };

    fn bad_line(line: u32) -> BadText {
        BadText { line }
    }
}

/// A line of this keyword and a count.
#[tactic(auto, unfolding(line_forms::specs::ListingLines::read_count))]
pub fn read_count(lines: &mut Lines, keyword: &[u8]) -> Option<u32>
    ensures { Reads result lines.new (read_row (read_count keyword.now 0 (2 ^ 32 - 1)) lines.old) }
{
    let mut words = lines.next_line()?;
    after_word(&mut words, keyword)?;
    let count = count_at(&mut words)?;
    ended(&words, count)
}

/// The next word, a number of 32 bits from `least` on.
fn number_from(words: &mut Pieces, least: u64) -> Option<u32>
    requires { least ≤ 2 ^ 32 }
    ensures { Takes result words.old words.new (natural_at least (2 ^ 32 - 1) words.old) }
{
    let number = number_at(words, least as i64, i64::from(u32::MAX))?;
    Some(number as u32)
}

/// A face with a number from `least` on, and its class.
#[tactic(auto, unfolding(crate::specs::SliceReading::read_face_row))]
pub fn read_face(lines: &mut Lines, least: u64) -> Option<FaceRow>
    requires { least ≤ 2 ^ 32 }
    ensures { Reads result lines.new (read_row (read_face_row least) lines.old) }
{
    let mut words = lines.next_line()?;
    after_word(&mut words, b"face")?;
    let face = number_from(&mut words, least)?;
    let class = count_at(&mut words)?;
    ended(&words, FaceRow { face, class })
}

/// An edge with a key from `least` on.
#[tactic(auto, unfolding(crate::specs::SliceReading::edge_at))]
pub fn read_edge(alloc: Global, lines: &mut Lines, least: u64) -> Result<Edge, Or<BadText>>
    requires { least ≤ 2 ^ 32 }
    ensures { Gives result lines.new (edge_at bad_text least lines.old) }
{
    let line = lines.number();
    let mut words = at_line(line, lines.next_line())?;
    let head = at_line(line, edge_head_at(&mut words, least))?;
    let points = read_points(alloc, &mut words, line, head.count)?;
    Ok(Edge {
        key: head.key,
        left: head.left,
        right: head.right,
        points,
    })
}

/// What stands before the points of an edge: its key, its left and right face, and how many points it has.
#[derive(Clone, Copy)]
struct EdgeHead {
    key: u32,
    left: u32,
    right: u32,
    count: u32,
}

/// The head of an edge with a key from `least` on.
#[tactic(auto, unfolding(crate::specs::SliceReading::edge_head_at))]
fn edge_head_at(words: &mut Pieces, least: u64) -> Option<EdgeHead>
    requires { least ≤ 2 ^ 32 }
    ensures { ReadsAs edge_numbers result words.new (edge_head_at least words.old) }
{
    after_word(words, b"edge")?;
    let key = number_from(words, least)?;
    let left = count_at(words)?;
    let right = count_at(words)?;
    let count = natural_at(words, 2, u32::MAX)?;
    Some(EdgeHead {
        key,
        left,
        right,
        count,
    })
}

/// The `n` points to the end of the line with this number, no two in a row equal.
#[tactic(auto, unfolding(line_forms::specs::ListingLines::read_points))]
fn read_points(
    alloc: Global,
    words: &mut Pieces,
    line: u32,
    n: u32,
) -> Result<List<Point>, Or<BadText>>
    ensures { GivesWhole result (ok_or (read_points MAX_COORDINATE n words.old) (bad_text line)) }
{
    let points = points_at(alloc, words, line, n)?;
    at_line(line, are_without_repeat(points.as_slice()).then_some(()))?;
    at_line(line, ended(words, points))
}

/// The next `n` points of the line with this number, of two words each.
fn points_at(
    alloc: Global,
    words: &mut Pieces,
    line: u32,
    n: u32,
) -> Result<List<Point>, Or<BadText>>
    ensures { Gives result words.new (ok_or (points_at MAX_COORDINATE n words.old) (bad_text line)) }
{
    let mut points = List::new(alloc);
    for _ in 0..n {
        let point = at_line(line, point_at(words))?;
        points.push(point)?;
    }
    Ok(points)
}

/// The next two words, the coordinates of a point.
pub fn point_at(words: &mut Pieces) -> Option<Point>
    ensures { Reads result words.new (point_at words.old) }
{
    let x = coordinate_at(words)?;
    let y = coordinate_at(words)?;
    Some(Point { x, y })
}

/// The next word, a coordinate within the limits.
fn coordinate_at(words: &mut Pieces) -> Option<i64>
    ensures { Takes result words.old words.new (coordinate_at words.old) }
{
    number_at(words, -MAX_COORDINATE, MAX_COORDINATE)
}

/// The last line, and nothing after it.
#[tactic(auto, unfolding(crate::specs::SliceReading::last_at))]
pub fn read_last(lines: &mut Lines) -> Result<(), Or<BadText>>
    ensures { GivesWhole result (last_at bad_text lines.old) }
{
    at_line(lines.number(), read_end(lines))?;
    at_line(lines.number(), lines.is_over().then_some(()))
}

/// The last line.
fn read_end(lines: &mut Lines) -> Option<()>
    ensures { Reads result lines.new (read_row (read_words (codes "end" ∷ [])) lines.old) }
{
    let mut words = lines.next_line()?;
    after_word(&mut words, b"end")?;
    ended(&words, ())
}
