//! The lines that slices, windows and packets share: faces, and edges with their points.

ghost use Rattle.std.specs.Prelude.{◌≡◌, ◌≤◌, ◌++◌, ◌∷◌, [], map, flat_map, length, drop, codes, decimal, OnOk};
ghost use Rattle.line_forms.specs.Texts.{line, lines};
ghost use Rattle.map_forms.specs.Listing.{point_words, count_words};
ghost use Rattle.wire_text.specs.SliceTexts.{face_words, edge_words, slice_rows};
ghost use Rattle.plain_io.specs.Fields.{fields};

use crate::number::{write_byte, write_counts, write_points};
use tgap_model::{Edge, FaceRow, Memory, Point, Slice, Text};

/// How many points are written at once.
const FEW: usize = 32;

/// The bytes of four counts, of a few points and of a line feed at most.
const ROOM: usize = 21 * 4 + 42 * FEW + 1;

/// Room in which the rows of edges are written before they are appended to a text. It takes no memory of the allocator.
#[derive(Drop)]
pub struct RowRoom {
    bytes: [u8; ROOM],
}

impl RowRoom {
    /// Room for rows.
    pub fn new() -> RowRoom {
        RowRoom { bytes: [0; ROOM] }
    }
}

/// Appends what a slice and a window have after their first line: the faces, the edges and the last line.
pub fn put_slice_rows(out: &mut Text, slice: &Slice) -> Result<(), Memory>
    ensures { OnOk result (out.new ≡ out.old ++ lines (slice_rows slice.now)) }
{
    put_faces(out, slice.faces.as_slice())?;
    put_count_line(out, b"edges", slice.edges.len())?;
    put_edges(out, slice.edges.as_slice())?;
    out.push_slice(b"end\n")
}

/// Appends the line of a keyword and counts, at most eight.
pub fn put_counts(out: &mut Text, keyword: &[u8], counts: &[u64]) -> Result<(), Memory>
    requires { length counts.now ≤ 8 }
    ensures { OnOk result (out.new ≡ out.old ++ line (keyword.now ∷ map decimal counts.now)) }
{
    let mut room = [0; 169];
    let end = write_byte(&mut room, 169, b'\n');
    let start = write_counts(&mut room, end, counts);
    out.push_slice(keyword)?;
    put_from(out, &room, start)
}

/// Appends the line of a keyword and a count.
pub fn put_count_line(out: &mut Text, keyword: &[u8], count: usize) -> Result<(), Memory>
    ensures { OnOk result (out.new ≡ out.old ++ line (count_words keyword.now count)) }
{
    put_counts(out, keyword, &[count as u64])
}

/// Appends the line of the number of these faces, and a line for each face.
fn put_faces(out: &mut Text, faces: &[FaceRow]) -> Result<(), Memory>
    ensures { OnOk result
        (out.new ≡ out.old ++ lines (count_words (codes "faces") (length faces.now) ∷ map face_words faces.now)) }
{
    put_count_line(out, b"faces", faces.len())?;
    put_face_rows(out, faces)
}

/// Appends a line for each face.
pub fn put_face_rows(out: &mut Text, faces: &[FaceRow]) -> Result<(), Memory>
    ensures { OnOk result (out.new ≡ out.old ++ lines (map face_words faces.now)) }
{
    for face in faces {
        put_face(out, face)?;
    }
    Ok(())
}

/// Appends the line of a face.
pub fn put_face(out: &mut Text, row: &FaceRow) -> Result<(), Memory>
    ensures { OnOk result (out.new ≡ out.old ++ line (face_words row.now)) }
{
    put_counts(out, b"face", &[u64::from(row.face), u64::from(row.class)])
}

/// Appends a line for each edge.
pub fn put_edges(out: &mut Text, edges: &[Edge]) -> Result<(), Memory>
    ensures { OnOk result (out.new ≡ out.old ++ lines (map edge_words edges.now)) }
{
    let mut room = RowRoom::new();
    for edge in edges {
        let points = edge.points.as_slice();
        put_edge(out, &mut room, edge.key, edge.left, edge.right, points)?;
    }
    Ok(())
}

/// Appends the line of an edge, given by its key, the faces at its left and right, and its points.
pub fn put_edge(
    out: &mut Text,
    room: &mut RowRoom,
    key: u32,
    left: u32,
    right: u32,
    points: &[Point],
) -> Result<(), Memory>
    ensures { OnOk result (out.new ≡ out.old
        ++ line (edge_words (record { key = key; left = left; right = right; points = points.now }))) }
{
    let count = points.len();
    let counts = [
        u64::from(key),
        u64::from(left),
        u64::from(right),
        count as u64,
    ];
    out.push_slice(b"edge")?;
    if count <= FEW {
        put_few(out, room, counts, points)
    } else {
        put_many(out, room, counts, points)
    }
}

/// Appends four counts and a few points, each number with a space before it, and a line feed.
fn put_few(
    out: &mut Text,
    room: &mut RowRoom,
    counts: [u64; 4],
    points: &[Point],
) -> Result<(), Memory>
    requires { length points.now ≤ FEW }
    ensures { OnOk result
        (out.new ≡ out.old ++ (fields (map decimal counts ++ flat_map point_words points.now) ++ 10 ∷ [])) }
{
    let end = write_byte(&mut room.bytes, ROOM, b'\n');
    let first = write_points(&mut room.bytes, end, points);
    let start = write_counts(&mut room.bytes, first, &counts);
    put_from(out, &room.bytes, start)
}

/// Appends four counts and points, each number with a space before it, and a line feed.
fn put_many(
    out: &mut Text,
    room: &mut RowRoom,
    counts: [u64; 4],
    points: &[Point],
) -> Result<(), Memory>
    ensures { OnOk result
        (out.new ≡ out.old ++ (fields (map decimal counts ++ flat_map point_words points.now) ++ 10 ∷ [])) }
{
    let start = write_counts(&mut room.bytes, ROOM, &counts);
    put_from(out, &room.bytes, start)?;
    let mut rest = points;
    while rest.len() > FEW {
        let (few, others) = rest.split_at(FEW);
        put_points(out, room, few)?;
        rest = others;
    }
    put_points(out, room, rest)?;
    out.push_slice(b"\n")
}

/// Appends a few points, each coordinate with a space before it.
fn put_points(out: &mut Text, room: &mut RowRoom, points: &[Point]) -> Result<(), Memory>
    requires { length points.now ≤ FEW }
    ensures { OnOk result (out.new ≡ out.old ++ fields (flat_map point_words points.now)) }
{
    let start = write_points(&mut room.bytes, ROOM, points);
    put_from(out, &room.bytes, start)
}

/// Appends the bytes of the room from this place on.
pub fn put_from(out: &mut Text, room: &[u8], start: usize) -> Result<(), Memory>
    requires { start ≤ length room.now }
    ensures { OnOk result (out.new ≡ out.old ++ drop start room.now) }
{
    out.push_slice(&room[start..])
}
