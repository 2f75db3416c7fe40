//! The faults of a reader of lines.

ghost use Rattle.std.specs.Prelude.{◌≡◌, ℕ};
ghost use Rattle.std.specs.Option.{ok_or};
ghost use Rattle.tgap_model.specs.declared.failure.Or.TheVariants as or;
ghost use Rattle.tgap_model.specs.declared.fault.MapFault.TheVariants as fault;

use tgap_model::{MapFault, Or};

/// A fault that a line may have: it is not of its form.
pub trait LineFault {
    /// The fault of the line with this number.
    ghost bad: { ℕ → Self };

    /// The fault of the line with this number.
    fn bad_line(line: u32) -> Self
        ensures { result ≡ bad line };
}

impl LineFault for MapFault {
    ghost bad = { λ line. fault.BadLine line };

    fn bad_line(line: u32) -> MapFault {
        MapFault::BadLine { line }
    }
}

/// What was found, or the fault of the line with this number.
pub fn at_line<T, F: LineFault>(line: u32, found: Option<T>) -> Result<T, Or<F>>
    ensures { result ≡ ok_or found (or.Fault (F.bad line)) }
{
    match found {
        Some(value) => Ok(value),
        None => Err(Or::Fault(F::bad_line(line))),
    }
}
