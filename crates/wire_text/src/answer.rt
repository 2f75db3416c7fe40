//! The texts of a map that is not at fault: its numbers, and that a step is above its last one.

ghost use Rattle.std.specs.Prelude.{◌≡◌, ◌≤◌, IfOk};
ghost use Rattle.tgap_model.specs.Base.{count_points};
ghost use Rattle.line_forms.specs.Texts.{ok_text, step_too_high_text};

use plain_io::{put_count, put_size};
use std::alloc::Global;
use tgap_model::{Base, BaseArc, MAX_POINTS, Memory, Text};

/// The text of a base map without a fault: how many faces, arcs and points it has.
pub fn ok_text(alloc: Global, base: &Base) -> Result<Text, Memory>
    ensures { IfOk result (λ text. text ≡ ok_text base.now) }
{
    let mut text = Text::from_slice(alloc, b"ok faces")?;
    put_size(alloc, &mut text, base.classes().len())?;
    text.push_slice(b" arcs")?;
    put_size(alloc, &mut text, base.arcs().len())?;
    text.push_slice(b" points")?;
    put_size(alloc, &mut text, count_points(base.arcs().as_slice()))?;
    text.push_slice(b"\n")?;
    Ok(text)
}

/// How many points all arcs have.
fn count_points(arcs: &[BaseArc]) -> usize
    requires { count_points arcs.now ≤ MAX_POINTS }
    ensures { result ≡ count_points arcs.now }
{
    let mut count = 0;
    for arc in arcs {
        count += arc.points.len();
    }
    count
}

/// The text where a step is asked for that is above the last one, which is this.
pub fn step_too_high_text(alloc: Global, steps: u32) -> Result<Text, Memory>
    ensures { IfOk result (λ text. text ≡ step_too_high_text steps) }
{
    let mut text = Text::from_slice(alloc, b"step too high")?;
    put_count(alloc, &mut text, steps)?;
    text.push_slice(b"\n")?;
    Ok(text)
}
