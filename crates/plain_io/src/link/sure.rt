//! A link in memory that never fails.

ghost use Rattle.std.specs.Prelude.{[], ◌≡◌, ◌≤◌, ◌<◌, ◌||◌, false, Some, None, Ok, length, take, drop, min, IfOk};

use super::Link;
use super::input::Input;
use crate::sink::Failed;
use tgap_model::Text;

/// A link in memory that never fails. It tells the bytes that it gives. It keeps nothing of what is put, and tells nothing
/// of it.
#[derive(Drop)]
pub struct SureLink {
    input: Input,
}

impl SureLink {
    ghost use Rattle.plain_io.specs.SureLinks.{left_of};

    /// A link that gives these bytes.
    pub fn new(input: Text) -> Self
        ensures taken { ⟦<SureLink as Link>⟧.taken result ≡ Some [] }
        ensures unended { ⟦<SureLink as Link>⟧.ended result ≡ false }
        ensures left { left_of result ≡ input }
    {
        SureLink {
            input: Input::new(input),
        }
    }
}

impl Link for SureLink {
    ghost use Rattle.plain_io.specs.Puts.{CountsPut};
    ghost use Rattle.plain_io.specs.Links.{Receives, is_end, CountsTake};
    ghost use Rattle.plain_io.specs.SureLinks.{taken_of, is_ended, left_of};

    ghost taken = { λ s. Some (taken_of s) };

    ghost told = { λ s. None };

    ghost take_faults = { λ s. 0 };

    ghost put_faults = { λ s. 0 };

    ghost ended = { is_ended };

    fn take(&mut self, buf: &mut [u8]) -> Result<usize, Failed>
        requires { 0 < length buf.old }
        ensures count { IfOk result (λ n. n ≤ length buf.new) }
        ensures bytes { Receives (Some (taken_of self.old)) (Some (taken_of self.new)) buf.new result }
        ensures end { is_ended self.new ≡ (is_ended self.old || is_end result) }
        ensures faults { CountsTake result 0 0 }
        // It gives the next bytes: as many as there are, at most the buffer's length.
        ensures gives { result ≡ Ok (min (length buf.old) (length (left_of self.old))) }
        ensures front { IfOk result (λ n. take n buf.new ≡ take n (left_of self.old)) }
        ensures left { IfOk result (λ n. left_of self.new ≡ drop n (left_of self.old)) }
    {
        let most = buf.len();
        Ok(self.input.give(buf, most))
    }

    fn put(&mut self, _bytes: &[u8]) -> Result<(), Failed> {
        Ok(())
    }
}
