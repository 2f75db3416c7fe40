//! The numbers of a row, written from the last to the first into room that was taken before.

ghost use Rattle.std.specs.Prelude.{◌≡◌, ◌+◌, ◌*◌, ◌≤◌, ◌++◌, ◌∷◌, map, flat_map, length, drop, decimal};
ghost use Rattle.std.specs.Fmt.{signed_decimal};
ghost use Rattle.map_forms.specs.Listing.{point_words};
ghost use Rattle.plain_io.specs.Fields.{fields};

use itoa::write_digits;
use tgap_model::Point;

/// Writes a byte before `end`, and returns its place.
pub fn write_byte(room: &mut [u8], end: usize, byte: u8) -> usize
    requires { (1 ≤ end) × (end ≤ length room.old) }
    ensures start { result + 1 ≡ end }
    ensures written { drop result room.new ≡ byte ∷ drop end room.old }
{
    room[end - 1] = byte;
    end - 1
}

/// Writes a space and a count so that they end before `end`, and returns where they start.
pub fn write_count(room: &mut [u8], end: usize, n: u64) -> usize
    requires { (21 ≤ end) × (end ≤ length room.old) }
    ensures start { (result ≤ end) × (end ≤ result + 21) }
    ensures written { drop result room.new ≡ 32 ∷ decimal n ++ drop end room.old }
{
    let start = write_digits(n, room, end);
    write_byte(room, start, b' ')
}

/// Writes a number so that it ends before `end`, and returns where it starts.
fn write_signed(room: &mut [u8], end: usize, n: i64) -> usize
    requires { (20 ≤ end) × (end ≤ length room.old) }
    ensures start { (result ≤ end) × (end ≤ result + 20) }
    ensures written { drop result room.new ≡ signed_decimal n ++ drop end room.old }
{
    let start = write_digits(n.unsigned_abs(), room, end);
    if n >= 0 {
        return start;
    }
    write_byte(room, start, b'-')
}

/// Writes a space and a coordinate so that they end before `end`, and returns where they start.
fn write_coordinate(room: &mut [u8], end: usize, n: i64) -> usize
    requires { (21 ≤ end) × (end ≤ length room.old) }
    ensures start { (result ≤ end) × (end ≤ result + 21) }
    ensures written { drop result room.new ≡ 32 ∷ signed_decimal n ++ drop end room.old }
{
    let start = write_signed(room, end, n);
    write_byte(room, start, b' ')
}

/// Writes counts, each with a space before it, so that they end before `end`, and returns where they start.
pub fn write_counts(room: &mut [u8], end: usize, counts: &[u64]) -> usize
    requires { (21 * length counts.now ≤ end) × (end ≤ length room.old) }
    ensures start { (result ≤ end) × (end ≤ result + 21 * length counts.now) }
    ensures written { drop result room.new ≡ fields (map decimal counts.now) ++ drop end room.old }
{
    let mut at = end;
    let mut i = counts.len();
    while i > 0 {
        i -= 1;
        at = write_count(room, at, counts[i]);
    }
    at
}

/// Writes the coordinates of a point, each with a space before it, so that they end before `end`, and returns where they start.
pub fn write_point(room: &mut [u8], end: usize, point: Point) -> usize
    requires { (42 ≤ end) × (end ≤ length room.old) }
    ensures start { (result ≤ end) × (end ≤ result + 42) }
    ensures written { drop result room.new ≡ fields (point_words point) ++ drop end room.old }
{
    let y = write_coordinate(room, end, point.y);
    write_coordinate(room, y, point.x)
}

/// Writes points so that they end before `end`, and returns where they start.
pub fn write_points(room: &mut [u8], end: usize, points: &[Point]) -> usize
    requires { (42 * length points.now ≤ end) × (end ≤ length room.old) }
    ensures start { (result ≤ end) × (end ≤ result + 42 * length points.now) }
    ensures written { drop result room.new ≡ fields (flat_map point_words points.now) ++ drop end room.old }
{
    let mut at = end;
    let mut i = points.len();
    while i > 0 {
        i -= 1;
        at = write_point(room, at, points[i]);
    }
    at
}
