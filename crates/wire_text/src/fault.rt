//! The text of a fault.

ghost use Rattle.std.specs.Prelude.{◌≡◌, ◌++◌, ◌∷◌, [], map, codes, IfOk, OnOk};
ghost use Rattle.std.specs.Fmt.{signed_decimal};
ghost use Rattle.tgap_model.specs.declared.fault.MapFault.TheVariants as variant;
ghost use Rattle.line_forms.specs.Texts.{line, refused_words, fault_text};
ghost use Rattle.plain_io.specs.Fields.{fields};

use plain_io::put_field;
use std::alloc::Global;
use tgap_model::{LimitKind, MapFault, Memory, Text};

/// The line that tells why a map is refused.
pub fn fault_text(alloc: Global, fault: &MapFault) -> Result<Text, Memory>
    ensures { IfOk result (λ text. text ≡ fault_text fault.now) }
{
    match *fault {
        MapFault::NotJson => refused(alloc, b"1", b"not-json", &[]),
        MapFault::Shape { place, at } => refused(alloc, b"2", b"shape", &[place.into(), at.into()]),
        MapFault::NoObject => refused(alloc, b"3", b"no-object", &[]),
        MapFault::ManyObjects { count } => refused(alloc, b"4", b"many-objects", &[count.into()]),
        MapFault::NotWhole { arc, position } => {
            refused(alloc, b"5", b"not-whole", &[arc.into(), position.into()])
        }
        MapFault::OutOfRange { arc, position } => {
            refused(alloc, b"6", b"out-of-range", &[arc.into(), position.into()])
        }
        MapFault::ArcShort { arc } => refused(alloc, b"7", b"arc-short", &[arc.into()]),
        MapFault::ArcIndex { ring, place, index } => refused(
            alloc,
            b"8",
            b"arc-index",
            &[ring.into(), place.into(), index.into()],
        ),
        MapFault::Limit { which, count } => limit_text(alloc, which, count),
        MapFault::RingOpen { ring, place } => {
            refused(alloc, b"11", b"ring-open", &[ring.into(), place.into()])
        }
        MapFault::RingFlat { ring } => refused(alloc, b"12", b"ring-flat", &[ring.into()]),
        MapFault::SideTaken {
            arc,
            side,
            first,
            second,
        } => refused(
            alloc,
            b"13",
            b"side-taken",
            &[arc.into(), side.into(), first.into(), second.into()],
        ),
        MapFault::SameSides { arc, face } => {
            refused(alloc, b"14", b"same-sides", &[arc.into(), face.into()])
        }
        MapFault::Meets { i, j, at } => refused(
            alloc,
            b"15",
            b"meets",
            &[i.into(), j.into(), at.nx, at.ny, at.d],
        ),
        MapFault::NodeDisagrees {
            node,
            spoke,
            next,
            left,
            right,
        } => refused(
            alloc,
            b"16",
            b"node",
            &[
                node.x.into(),
                node.y.into(),
                spoke.into(),
                next.into(),
                left.into(),
                right.into(),
            ],
        ),
        MapFault::StackDisagrees {
            line,
            place,
            upper,
            lower,
        } => refused(
            alloc,
            b"17",
            b"stack",
            &[line.into(), place.into(), upper.into(), lower.into()],
        ),
        MapFault::BadLine { line } => refused(alloc, b"18", b"bad-line", &[line.into()]),
        MapFault::BadRules { place } => refused(alloc, b"19", b"bad-rules", &[place.into()]),
        MapFault::InputLong { max } => refused(alloc, b"20", b"input-long", &[max.into()]),
    }
}

/// The line of a limit that is passed.
fn limit_text(alloc: Global, which: LimitKind, count: u64) -> Result<Text, Memory>
    ensures { IfOk result (λ text. text ≡ fault_text (variant.Limit which count)) }
{
    let mut text = named(alloc, b"9", b"limit")?;
    put_word(&mut text, which.word().as_bytes())?;
    shown(alloc, text, &[i128::from(count)])
}

/// The line of the fault of this number and name, with the numbers that show it.
fn refused(alloc: Global, number: &[u8], name: &[u8], values: &[i128]) -> Result<Text, Memory>
    ensures { IfOk result
        (λ text. text ≡ line (refused_words number.now name.now (map signed_decimal values.now))) }
{
    let text = named(alloc, number, name)?;
    shown(alloc, text, values)
}

/// The line of the fault of this number and name, before what shows it.
fn named(alloc: Global, number: &[u8], name: &[u8]) -> Result<Text, Memory>
    ensures { IfOk result (λ text. text ≡ codes "refused" ++ fields (number.now ∷ name.now ∷ [])) }
{
    let mut text = Text::from_slice(alloc, b"refused")?;
    put_word(&mut text, number)?;
    put_word(&mut text, name)?;
    Ok(text)
}

/// The line that is begun by this text, and ends with these numbers.
fn shown(alloc: Global, begun: Text, values: &[i128]) -> Result<Text, Memory>
    ensures { IfOk result (λ text. text ≡ begun ++ fields (map signed_decimal values.now) ++ 10 ∷ []) }
{
    let mut text = begun;
    put_fields(alloc, &mut text, values)?;
    text.push_slice(b"\n")?;
    Ok(text)
}

/// Appends a space and a word.
fn put_word(out: &mut Text, word: &[u8]) -> Result<(), Memory>
    ensures { OnOk result (out.new ≡ out.old ++ 32 ∷ word.now) }
{
    out.push_slice(b" ")?;
    out.push_slice(word)
}

/// Appends numbers, each with a space before it.
fn put_fields(alloc: Global, out: &mut Text, values: &[i128]) -> Result<(), Memory>
    ensures { OnOk result (out.new ≡ out.old ++ fields (map signed_decimal values.now)) }
{
    for value in values {
        put_field(alloc, out, *value)?;
    }
    Ok(())
}
