//! The lines of a batch.

ghost use Rattle.std.specs.Prelude.{◌≡◌, ℕ, List as Sequence, option_map, codes};
ghost use Rattle.std.specs.Char.{is_ascii_digit};
ghost use Rattle.std.specs.List.{list_all};
ghost use Rattle.std.specs.Option.{ok_or};
ghost use Rattle.line_forms.specs.ListingLines.{coordinate_at, points_at};
ghost use Rattle.edit_laws.specs.Edits.{is_numeral, is_decimal, decimal_at, point_at, arc_at, read_class, read_move, read_add, read_drop, read_node, read_cut, read_fuse, read_edit};
ghost use Rattle.plain_io.specs.Taking.{Gives, Takes, Reads};
ghost use Rattle.map_version.specs.Lines.{GivesTold, told};

use crate::cause::{NO_EDIT, found};
use plain_io::{Pieces, ended, natural_at, number_at};
use std::alloc::Global;
use tgap_model::{List, MAX_COORDINATE, Or, Point};

/// An edit, as a line tells it. Of faces and a class there are the words that name them.
#[derive(Drop)]
pub enum Edit<'a> {
    Class {
        face: &'a [u8],
        class: &'a [u8],
    },
    Move {
        old: Point,
        new: Point,
    },
    Add {
        a: Point,
        b: Point,
        new: Point,
    },
    Remove {
        old: Point,
    },
    Node {
        at: Point,
    },
    Cut {
        face: &'a [u8],
        class: &'a [u8],
        points: List<Point>,
    },
    Fuse {
        kept: &'a [u8],
        gone: &'a [u8],
    },
}

/// How many points a new arc may have.
const MAX_CUT: u32 = 65_535;

/// Whether each byte of a word is a digit.
fn are_digits(word: &[u8]) -> bool
    ensures { result ≡ list_all is_ascii_digit word.now }
{
    word.iter().all(|b| b.is_ascii_digit())
}

/// Whether a word is of digits, of which the first is 0 only where it stands alone.
fn is_numeral(word: &[u8]) -> bool
    ensures { result ≡ is_numeral word.now }
{
    !word.is_empty() && are_digits(word) && (word[0] != b'0' || word.len() == 1)
}

/// Whether a word is a number of any size in canonical decimal.
fn is_decimal(word: &[u8]) -> bool
    ensures { result ≡ is_decimal word.now }
{
    match word {
        [] => false,
        [b'-', rest @ ..] => is_numeral(rest) && rest != b"0".as_slice(),
        _ => is_numeral(word),
    }
}

/// The next word, a number of any size.
fn decimal_at<'a>(words: &mut Pieces<'a>) -> Option<&'a [u8]>
    ensures { Reads (option_map (λ word. word.now) result) words.new (decimal_at words.old) }
{
    let word = words.next_piece()?;
    if is_decimal(word) { Some(word) } else { None }
}

/// The next word, a coordinate within the limits.
fn coordinate_at(words: &mut Pieces) -> Option<i64>
    ensures { Takes result words.old words.new (coordinate_at words.old) }
{
    number_at(words, -MAX_COORDINATE, MAX_COORDINATE)
}

/// The next two words, the coordinates of a point.
fn point_at(words: &mut Pieces) -> Option<Point>
    ensures { Reads result words.new (point_at words.old) }
{
    let x = coordinate_at(words)?;
    let y = coordinate_at(words)?;
    Some(Point { x, y })
}

/// The rest of a line that sets the class of a face.
fn read_class<'a>(words: &mut Pieces<'a>) -> Option<Edit<'a>>
    ensures { option_map told result ≡ read_class words.old }
{
    let face = decimal_at(words)?;
    let class = decimal_at(words)?;
    ended(words, Edit::Class { face, class })
}

/// The rest of a line that moves a point.
fn read_move<'a>(words: &mut Pieces<'a>) -> Option<Edit<'a>>
    ensures { option_map told result ≡ read_move words.old }
{
    let old = point_at(words)?;
    let new = point_at(words)?;
    ended(words, Edit::Move { old, new })
}

/// The rest of a line that adds a point between two.
fn read_add<'a>(words: &mut Pieces<'a>) -> Option<Edit<'a>>
    ensures { option_map told result ≡ read_add words.old }
{
    let a = point_at(words)?;
    let b = point_at(words)?;
    let new = point_at(words)?;
    ended(words, Edit::Add { a, b, new })
}

/// The rest of a line that takes a point out.
fn read_drop<'a>(words: &mut Pieces<'a>) -> Option<Edit<'a>>
    ensures { option_map told result ≡ read_drop words.old }
{
    let old = point_at(words)?;
    ended(words, Edit::Remove { old })
}

/// The rest of a line that makes an inner vertex a node.
fn read_node<'a>(words: &mut Pieces<'a>) -> Option<Edit<'a>>
    ensures { option_map told result ≡ read_node words.old }
{
    let at = point_at(words)?;
    ended(words, Edit::Node { at })
}

/// The rest of a line that fuses two faces.
fn read_fuse<'a>(words: &mut Pieces<'a>) -> Option<Edit<'a>>
    ensures { option_map told result ≡ read_fuse words.old }
{
    let kept = decimal_at(words)?;
    let gone = decimal_at(words)?;
    ended(words, Edit::Fuse { kept, gone })
}

/// The next `n` points, of two words each.
fn points_at(alloc: Global, words: &mut Pieces, n: u32) -> Result<List<Point>, Or<u8>>
    ensures { Gives result words.new (ok_or (points_at MAX_COORDINATE n words.old) 1) }
{
    let mut points = List::new(alloc);
    for _ in 0..n {
        let point = found(point_at(words), NO_EDIT)?;
        points.push(point)?;
    }
    Ok(points)
}

/// The next words, how many points a new arc has and the points.
fn arc_at(alloc: Global, words: &mut Pieces) -> Result<List<Point>, Or<u8>>
    ensures { Gives result words.new (ok_or (arc_at words.old) 1) }
{
    let count = found(natural_at(words, 2, MAX_CUT), NO_EDIT)?;
    points_at(alloc, words, count)
}

/// The rest of a line that cuts a face.
fn read_cut<'a>(alloc: Global, words: &mut Pieces<'a>) -> Result<Edit<'a>, Or<u8>>
    ensures { GivesTold result (ok_or (read_cut words.old) 1) }
{
    let face = found(decimal_at(words), NO_EDIT)?;
    let class = found(decimal_at(words), NO_EDIT)?;
    let points = arc_at(alloc, words)?;
    edit_or(ended(
        words,
        Edit::Cut {
            face,
            class,
            points,
        },
    ))
}

/// The edit, where there is one.
fn edit_or<'a>(edit: Option<Edit<'a>>) -> Result<Edit<'a>, Or<u8>>
    ensures { GivesTold result (ok_or (option_map told edit.entry) 1) }
{
    found(edit, NO_EDIT)
}

/// The edit that a line tells, where it is of one of the seven forms. Memory may be wanting only for the points of a cut.
pub fn read_edit<'a>(alloc: Global, words: &mut Pieces<'a>) -> Result<Edit<'a>, Or<u8>>
    ensures { GivesTold result (ok_or (read_edit words.old) 1) }
{
    let word = found(words.next_piece(), NO_EDIT)?;
    if word == b"class".as_slice() {
        edit_or(read_class(words))
    } else if word == b"move".as_slice() {
        edit_or(read_move(words))
    } else if word == b"add".as_slice() {
        edit_or(read_add(words))
    } else if word == b"drop".as_slice() {
        edit_or(read_drop(words))
    } else if word == b"node".as_slice() {
        edit_or(read_node(words))
    } else if word == b"cut".as_slice() {
        read_cut(alloc, words)
    } else if word == b"fuse".as_slice() {
        edit_or(read_fuse(words))
    } else {
        Err(Or::Fault(NO_EDIT))
    }
}
