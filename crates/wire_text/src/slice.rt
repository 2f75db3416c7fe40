//! The text of a slice.

ghost use Rattle.std.specs.Prelude.{◌≡◌, IfOk};
ghost use Rattle.wire_text.specs.SliceTexts.{slice_text};

use crate::rows::{put_count_line, put_slice_rows};
use std::alloc::Global;
use tgap_model::{Memory, Slice, Text};

/// The slice in lines: its step, its faces, and its edges with their points.
pub fn slice_text(alloc: Global, slice: &Slice) -> Result<Text, Memory>
    ensures { IfOk result (λ text. text ≡ slice_text slice.now) }
{
    let mut text = Text::new(alloc);
    put_count_line(&mut text, b"slice", slice.step as usize)?;
    put_slice_rows(&mut text, slice)?;
    Ok(text)
}
