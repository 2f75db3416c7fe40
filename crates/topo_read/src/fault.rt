//! The faults of a topology that are told at several places.

ghost use Rattle.std.specs.Prelude.{◌≡◌};
ghost use Rattle.tgap_model.specs.declared.failure.Or.TheVariants.{Fault as TheFault};
ghost use Rattle.tgap_model.specs.declared.fault.MapFault.TheVariants.{Shape as WrongShape, NotWhole as Fraction, OutOfRange as TooFar};

use tgap_model::{MapFault, Or};

/// The fault of a part of a topology, by its place and its number among its like, that has not the shape of one.
pub fn shape(place: u8, at: u32) -> Or<MapFault>
    ensures { result ≡ TheFault (WrongShape place at) }
{
    Or::Fault(MapFault::Shape { place, at })
}

/// The fault of a position whose numbers are not whole.
pub fn not_whole(arc: u32, position: u32) -> Or<MapFault>
    ensures { result ≡ TheFault (Fraction arc position) }
{
    Or::Fault(MapFault::NotWhole { arc, position })
}

/// The fault of a position that is not within the limits.
pub fn out_of_range(arc: u32, position: u32) -> Or<MapFault>
    ensures { result ≡ TheFault (TooFar arc position) }
{
    Or::Fault(MapFault::OutOfRange { arc, position })
}
