//! The lines of a listing, each read whole.

ghost use Rattle.std.specs.Prelude.{◌≡◌, ◌≤◌, ◌∷◌, [], codes, IfOk};
ghost use Rattle.std.specs.Option.{ok_or};
ghost use Rattle.tgap_model.specs.declared.fault.MapFault.TheVariants.{BadLine};
ghost use Rattle.tgap_model.specs.Limits.{limit_of};
ghost use Rattle.line_forms.specs.Words.{read_words};
ghost use Rattle.line_forms.specs.Lines.{read_row, read_line};
ghost use Rattle.line_forms.specs.ListingLines.{read_transform, read_count, read_class, read_face};
ghost use Rattle.map_forms.specs.Version.{read_heading};
ghost use Rattle.map_forms.specs.Listing.{count_line, arc_at, end_at};
ghost use Rattle.plain_io.specs.Taking.{Reads, Gives, GivesWith, GivesWhole};
ghost use Rattle.area_listing.specs.Reading.{class_onto};

use crate::limit::{at_most, within_limit};
use crate::row::{head_at, push_compatibilities, read_points, version_at, word_at};
use map_forms::Version;
use plain_io::{Lines, after_count, after_word, at_line, ended, natural_at};
use std::alloc::Global;
use tgap_model::{BaseArc, LimitKind, List, MAX_POINTS, MAX_WEIGHT, MapFault, Or, Transform};

/// The first line: the name of the format, and the version.
#[tactic(auto, unfolding(map_forms::specs::Version::read_heading))]
pub fn read_heading(lines: &mut Lines) -> Option<Version>
    ensures { Reads result lines.new (read_row read_heading lines.old) }
{
    let mut words = lines.next_line()?;
    after_word(&mut words, b"tgap")?;
    let version = version_at(&mut words)?;
    ended(&words, version)
}

/// The transform of the map.
#[tactic(auto, unfolding(line_forms::specs::ListingLines::read_transform))]
pub fn read_transform(lines: &mut Lines) -> Option<Transform>
    ensures { Reads result lines.new (read_row read_transform lines.old) }
{
    let mut words = lines.next_line()?;
    after_word(&mut words, b"transform")?;
    let sx = word_at(&mut words)?;
    let sy = word_at(&mut words)?;
    let tx = word_at(&mut words)?;
    let ty = word_at(&mut words)?;
    ended(&words, Transform { sx, sy, tx, ty })
}

/// A line of this keyword and a number from `least` to `most`.
#[tactic(auto, unfolding(line_forms::specs::ListingLines::read_count))]
pub fn read_count(lines: &mut Lines, keyword: &[u8], least: u32, most: u32) -> Option<u32>
    ensures { Reads result lines.new (read_row (read_count keyword.now least most) lines.old) }
{
    let mut words = lines.next_line()?;
    after_word(&mut words, keyword)?;
    let count = natural_at(&mut words, least, most)?;
    ended(&words, count)
}

/// A line of the name of what is counted, and the count, from `least` on and within its limit.
#[tactic(auto, unfolding(map_forms::specs::Listing::count_line))]
pub fn count_line(lines: &mut Lines, which: LimitKind, least: u32) -> Result<u32, Or<MapFault>>
    ensures read { Gives result lines.new (count_line which least lines.old) }
    ensures few { IfOk result (λ count. count ≤ limit_of which) }
{
    let keyword = which.word().as_bytes();
    let count = at_line(lines.number(), read_count(lines, keyword, least, u32::MAX))?;
    within_limit(which, u64::from(count))?;
    Ok(count)
}

/// The weight of this class, of so many in all. Its compatibilities are put after those of `compat`.
#[tactic(auto, unfolding(line_forms::specs::ListingLines::read_class))]
pub fn read_class(
    lines: &mut Lines,
    classes: u32,
    class: u32,
    compat: &mut List<u32>,
) -> Result<u32, Or<MapFault>>
    ensures { GivesWith result compat.new lines.new
        (class_onto compat.old (read_line BadLine (read_class classes class) lines.old)) }
{
    let line = lines.number();
    let mut words = at_line(line, lines.next_line())?;
    at_line(line, after_word(&mut words, b"class"))?;
    at_line(line, after_count(&mut words, class))?;
    let weight = at_line(line, natural_at(&mut words, 1, MAX_WEIGHT))?;
    push_compatibilities(&mut words, line, classes, compat)?;
    at_line(line, ended(&words, weight))
}

/// The class of this face, where there are so many classes.
#[tactic(auto, unfolding(line_forms::specs::ListingLines::read_face))]
pub fn read_face(lines: &mut Lines, classes: u32, face: u32) -> Option<u32>
    ensures { Reads result lines.new (read_row (read_face classes face) lines.old) }
{
    let mut words = lines.next_line()?;
    after_word(&mut words, b"face")?;
    after_count(&mut words, face)?;
    let class = natural_at(&mut words, 0, classes.saturating_sub(1))?;
    ended(&words, class)
}

/// An arc of a map with so many faces, after arcs with so many points, within the limits of the version.
#[tactic(auto, unfolding(map_forms::specs::Listing::arc_at))]
pub fn read_arc(
    alloc: Global,
    lines: &mut Lines,
    version: Version,
    faces: u32,
    before: usize,
) -> Result<BaseArc, Or<MapFault>>
    requires { before ≤ MAX_POINTS }
    ensures { Gives result lines.new (arc_at version faces before lines.old) }
{
    let line = lines.number();
    let mut words = at_line(line, lines.next_line())?;
    let head = at_line(line, head_at(&mut words, faces))?;
    let points_so_far = before as u64 + u64::from(head.count);
    at_most(LimitKind::Points, version.points(), points_so_far)?;
    let points = read_points(alloc, &mut words, version, line, head.count)?;
    Ok(BaseArc {
        left: head.left,
        right: head.right,
        points,
    })
}

/// The last line, and nothing after it.
#[tactic(auto, unfolding(map_forms::specs::Listing::end_at))]
pub fn read_end(lines: &mut Lines) -> Result<(), Or<MapFault>>
    ensures { GivesWhole result (end_at lines.old) }
{
    at_line(lines.number(), read_last(lines))?;
    at_line(lines.number(), lines.is_over().then_some(()))
}

/// The last line.
fn read_last(lines: &mut Lines) -> Option<()>
    ensures { Reads result lines.new (read_row (read_words (codes "end" ∷ [])) lines.old) }
{
    let mut words = lines.next_line()?;
    after_word(&mut words, b"end")?;
    ended(&words, ())
}
