//! The text of a window.

ghost use Rattle.std.specs.Prelude.{◌≡◌, ◌++◌, ◌∷◌, [], OnOk, IfOk};
ghost use Rattle.std.specs.Fmt.{signed_decimal};
ghost use Rattle.line_forms.specs.Texts.{line};
ghost use Rattle.wire_text.specs.SliceTexts.{window_words, window_text};
ghost use Rattle.plain_io.specs.Fields.{fields};

use crate::rows::put_slice_rows;
use plain_io::{put_count, put_field};
use std::alloc::Global;
use tgap_model::{Memory, Slice, Text, Window};

/// A part of a slice in lines: the step and the window of the plane, and then the faces and edges as in a slice.
pub fn window_text(alloc: Global, slice: &Slice, area: Window) -> Result<Text, Memory>
    ensures { IfOk result (λ text. text ≡ window_text area slice.now) }
{
    let mut text = Text::new(alloc);
    put_window(alloc, &mut text, slice.step, area)?;
    put_slice_rows(&mut text, slice)?;
    Ok(text)
}

/// Appends the line of a step and a window.
fn put_window(alloc: Global, out: &mut Text, step: u32, area: Window) -> Result<(), Memory>
    ensures { OnOk result (out.new ≡ out.old ++ line (window_words step area)) }
{
    out.push_slice(b"window")?;
    put_count(alloc, out, step)?;
    put_area(alloc, out, area)?;
    out.push_slice(b"\n")
}

/// Appends the corners of a window, each coordinate with a space before it.
pub fn put_area(alloc: Global, out: &mut Text, area: Window) -> Result<(), Memory>
    ensures { OnOk result (out.new ≡ out.old
        ++ fields (signed_decimal area.x0 ∷ signed_decimal area.y0 ∷ signed_decimal area.x1 ∷ signed_decimal area.y1 ∷ [])) }
{
    put_coordinate(alloc, out, area.x0)?;
    put_coordinate(alloc, out, area.y0)?;
    put_coordinate(alloc, out, area.x1)?;
    put_coordinate(alloc, out, area.y1)
}

/// Appends a space and a coordinate.
fn put_coordinate(alloc: Global, out: &mut Text, coordinate: i64) -> Result<(), Memory>
    ensures { OnOk result (out.new ≡ out.old ++ 32 ∷ signed_decimal coordinate) }
{
    put_field(alloc, out, i128::from(coordinate))
}
