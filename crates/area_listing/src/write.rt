//! Writing a listing.

ghost use Rattle.std.specs.Prelude.{◌≡◌, ◌*◌, ◌∷◌, ◌++◌, [], map, flat_map, length, codes, decimal, IfOk, OnOk, IsTrue, Ok};
ghost use Rattle.std.specs.Fmt.{signed_decimal};
ghost use Rattle.tgap_model.specs.Base.{is_rules};
ghost use Rattle.line_forms.specs.Texts.{line, lines};
ghost use Rattle.map_forms.specs.Listing.{transform_words, count_words, class_rows, face_rows, point_words, arc_words, listing_text, listing};
ghost use Rattle.plain_io.specs.Fields.{fields};
ghost use Rattle.area_listing.specs.Written.{rules_rows, all_face_rows, all_arc_rows};

use plain_io::{put_count, put_field, put_size};
use std::alloc::Global;
use tgap_model::{Base, BaseArc, Memory, Point, Rules, Text, Transform};

/// The listing of a base map in version 2, by 'The area listing' of docs/formats.md. Its cost is that of the text.
pub fn write_listing(alloc: Global, base: &Base) -> Result<Text, Memory>
    // The text is the listing of the base map, each byte of it.
    ensures spelled { IfOk result (λ text. text ≡ listing_text base.now) }
    // Reading it gives the base map again.
    ensures read { IfOk result (λ text. listing text ≡ Ok base.now) }
{
    let mut text = Text::new(alloc);
    text.push_slice(b"tgap 2\n")?;
    put_transform(alloc, &mut text, base.transform())?;
    put_rules(alloc, &mut text, base.rules())?;
    put_faces(alloc, &mut text, base.classes().as_slice())?;
    put_arcs(alloc, &mut text, base.arcs().as_slice())?;
    text.push_slice(b"end\n")?;
    Ok(text)
}

/// Appends the line of the transform.
fn put_transform(alloc: Global, out: &mut Text, transform: &Transform) -> Result<(), Memory>
    ensures { OnOk result (out.new ≡ out.old ++ line (transform_words transform.now)) }
{
    out.push_slice(b"transform")?;
    put_word(alloc, out, transform.sx)?;
    put_word(alloc, out, transform.sy)?;
    put_word(alloc, out, transform.tx)?;
    put_word(alloc, out, transform.ty)?;
    out.push_slice(b"\n")
}

/// Appends a space and a number of 32 bits with a sign.
fn put_word(alloc: Global, out: &mut Text, word: i32) -> Result<(), Memory>
    ensures { OnOk result (out.new ≡ out.old ++ 32 ∷ signed_decimal word) }
{
    put_field(alloc, out, i128::from(word))
}

/// Appends the line of a keyword and a count.
fn put_count_line(alloc: Global, out: &mut Text, keyword: &[u8], count: usize) -> Result<(), Memory>
    ensures { OnOk result (out.new ≡ out.old ++ line (count_words keyword.now count)) }
{
    out.push_slice(keyword)?;
    put_size(alloc, out, count)?;
    out.push_slice(b"\n")
}

/// Appends the lines of the ratio and of the classes.
fn put_rules(alloc: Global, out: &mut Text, rules: &Rules) -> Result<(), Memory>
    requires { IsTrue (is_rules rules.now) }
    ensures { OnOk result (out.new ≡ out.old ++ lines (rules_rows rules.now)) }
{
    put_count_line(alloc, out, b"ratio", rules.ratio as usize)?;
    put_count_line(alloc, out, b"classes", rules.weights.len())?;
    put_classes(
        alloc,
        out,
        rules.weights.as_slice(),
        rules.compat.as_slice(),
    )
}

/// Appends the lines of the classes, each with its weight and its row of compatibilities.
fn put_classes(alloc: Global, out: &mut Text, weights: &[u32], compat: &[u32]) -> Result<(), Memory>
    requires { length compat.now ≡ length weights.now * length weights.now }
    ensures { OnOk result (out.new ≡ out.old ++ lines (class_rows (length weights.now) 0 weights.now compat.now)) }
{
    let mut rest = compat;
    for (class, weight) in weights.iter().enumerate() {
        let (row, more) = rest.split_at(weights.len());
        put_class(alloc, out, class, *weight, row)?;
        rest = more;
    }
    Ok(())
}

/// Appends the line of a class.
fn put_class(
    alloc: Global,
    out: &mut Text,
    class: usize,
    weight: u32,
    compat: &[u32],
) -> Result<(), Memory>
    ensures { OnOk result
        (out.new ≡ out.old ++ line (codes "class" ∷ decimal class ∷ decimal weight ∷ map decimal compat.now)) }
{
    out.push_slice(b"class")?;
    put_size(alloc, out, class)?;
    put_count(alloc, out, weight)?;
    put_counts(alloc, out, compat)?;
    out.push_slice(b"\n")
}

/// Appends counts, each with a space before it.
fn put_counts(alloc: Global, out: &mut Text, counts: &[u32]) -> Result<(), Memory>
    ensures { OnOk result (out.new ≡ out.old ++ fields (map decimal counts.now)) }
{
    for count in counts {
        put_count(alloc, out, *count)?;
    }
    Ok(())
}

/// Appends the line of the number of faces, and a line for each.
fn put_faces(alloc: Global, out: &mut Text, classes: &[u32]) -> Result<(), Memory>
    ensures { OnOk result (out.new ≡ out.old ++ lines (all_face_rows classes.now)) }
{
    put_count_line(alloc, out, b"faces", classes.len())?;
    for (before, class) in classes.iter().enumerate() {
        put_face(alloc, out, before + 1, *class)?;
    }
    Ok(())
}

/// Appends the line of a face.
fn put_face(alloc: Global, out: &mut Text, face: usize, class: u32) -> Result<(), Memory>
    ensures { OnOk result (out.new ≡ out.old ++ line (codes "face" ∷ decimal face ∷ decimal class ∷ [])) }
{
    out.push_slice(b"face")?;
    put_size(alloc, out, face)?;
    put_count(alloc, out, class)?;
    out.push_slice(b"\n")
}

/// Appends the line of the number of arcs, and a line for each.
fn put_arcs(alloc: Global, out: &mut Text, arcs: &[BaseArc]) -> Result<(), Memory>
    ensures { OnOk result (out.new ≡ out.old ++ lines (all_arc_rows arcs.now)) }
{
    put_count_line(alloc, out, b"arcs", arcs.len())?;
    for arc in arcs {
        put_arc(alloc, out, arc)?;
    }
    Ok(())
}

/// Appends the line of an arc.
fn put_arc(alloc: Global, out: &mut Text, arc: &BaseArc) -> Result<(), Memory>
    ensures { OnOk result (out.new ≡ out.old ++ line (arc_words arc.now)) }
{
    out.push_slice(b"arc")?;
    put_count(alloc, out, arc.left)?;
    put_count(alloc, out, arc.right)?;
    put_size(alloc, out, arc.points.len())?;
    put_points(alloc, out, arc.points.as_slice())?;
    out.push_slice(b"\n")
}

/// Appends points, each coordinate with a space before it.
fn put_points(alloc: Global, out: &mut Text, points: &[Point]) -> Result<(), Memory>
    ensures { OnOk result (out.new ≡ out.old ++ fields (flat_map point_words points.now)) }
{
    for point in points {
        put_field(alloc, out, i128::from(point.x))?;
        put_field(alloc, out, i128::from(point.y))?;
    }
    Ok(())
}
