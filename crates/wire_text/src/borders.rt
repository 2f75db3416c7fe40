//! The borders text.

ghost use Rattle.std.specs.Prelude.{◌≡◌, ◌++◌, OnOk, IfOk};
ghost use Rattle.line_forms.specs.Texts.{line, border_words, borders_text};

use crate::rows::put_counts;
use std::alloc::Global;
use tgap_model::{BorderRow, List, Memory, Text};

/// The borders after k steps: a line for each row, between the line of the step and a last line.
pub fn borders_text(alloc: Global, k: u32, rows: &List<BorderRow>) -> Result<Text, Memory>
    ensures { IfOk result (λ text. text ≡ borders_text k rows.now) }
{
    let mut text = Text::new(alloc);
    put_counts(&mut text, b"borders", &[u64::from(k)])?;
    for row in rows.as_slice() {
        put_row(&mut text, row)?;
    }
    text.push_slice(b"end\n")?;
    Ok(text)
}

/// Appends the line of one row.
fn put_row(out: &mut Text, row: &BorderRow) -> Result<(), Memory>
    ensures { OnOk result (out.new ≡ out.old ++ line (border_words row.now)) }
{
    put_counts(
        out,
        b"border",
        &[
            u64::from(row.arc),
            u64::from(row.left),
            u64::from(row.right),
        ],
    )
}
