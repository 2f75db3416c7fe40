//! The parameters of a path, one after another, as the router took them from it.

ghost use Rattle.std.specs.Prelude.{◌≡◌, ◌≤ℤ◌, ◌∷◌, [], IfSome, MatchOption};
ghost use Rattle.line_forms.specs.Words.{number_at, count_at};
ghost use Rattle.line_forms.specs.ListingLines.{coordinate_at};
ghost use Rattle.plain_io.specs.Taking.{Reads};
ghost use Rattle.http_face.specs.Parameters.{values_of, AreTexts};

use matchit::ParamsIter;
use plain_io::read_number;
use std::marker::Model;
use tgap_model::MAX_COORDINATE;

/// The parameters of a path that are left. Contracts see their bytes.
#[derive(Drop)]
pub(crate) struct Parameters<'f, 'r, 'p> {
    left: ParamsIter<'f, 'r, 'p>,
}

impl<'f, 'r, 'p> Model for Parameters<'f, 'r, 'p> {
    ghost use Rattle.line_forms.specs.Words.{Row};
    ghost use Rattle.http_face.specs.Parameters.{values_of, AreTexts};

    ghost Value = { Row };

    ghost view = { λ p. values_of p.left };

    ghost invariant = { λ p. AreTexts (values_of p.left) };
}

impl<'f, 'r, 'p> Parameters<'f, 'r, 'p> {
    /// The parameters that the router took, each of which is UTF-8.
    pub(crate) fn new(left: ParamsIter<'f, 'r, 'p>) -> Self
        requires { AreTexts (values_of left) }
        ensures { result ≡ values_of left.entry }
    {
        Parameters { left }
    }

    /// Takes the next parameter. None exactly where none is left.
    fn next_parameter(&mut self) -> Option<&'p str>
        ensures { MatchOption result (self.old ≡ []) (λ parameter. self.old ≡ parameter.now ∷ self.new) }
    {
        // What a call at the end leaves is not said, so there is none.
        if self.left.is_empty() {
            return None;
        }
        let (_, parameter) = self.left.next()?;
        Some(parameter)
    }

    /// Takes the next parameter, a number from `least` to `most`.
    fn number_at(&mut self, least: i64, most: i64) -> Option<i64>
        ensures read { Reads result self.new (number_at least most self.old) }
        ensures range { IfSome result (λ n. (least ≤ℤ n) × (n ≤ℤ most)) }
    {
        let parameter = self.next_parameter()?;
        read_number(parameter.as_bytes(), least, most)
    }

    /// Takes the next parameter, a number of 32 bits without a sign.
    pub(crate) fn count_at(&mut self) -> Option<u32>
        ensures { Reads result self.new (count_at self.old) }
    {
        let number = self.number_at(0, i64::from(u32::MAX))?;
        Some(number as u32)
    }

    /// Takes the next parameter, a coordinate within the limits.
    pub(crate) fn coordinate_at(&mut self) -> Option<i64>
        ensures { Reads result self.new (coordinate_at self.old) }
    {
        self.number_at(-MAX_COORDINATE, MAX_COORDINATE)
    }
}
