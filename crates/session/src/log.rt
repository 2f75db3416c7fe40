//! What is noted of the requests of a connection.

ghost use Rattle.std.specs.Prelude.{◌≡◌, ◌<◌, ◌++◌, ◌∷◌, [], length, IfOk};
ghost use Rattle.session.specs.Outcomes.{place_of};
ghost use Rattle.session.specs.declared.serve.TheConstants.{MAX_REQUESTS};

use crate::row::Row;
use crate::serve::{MAX_REQUESTS, place_of};
use std::alloc::Global;
use std::marker::Model;
use tgap_model::{List, Memory};

/// For each request that was handled the number that its reply rests on, and the place of its outcome in the table. The room for all is
/// taken once.
#[derive(Drop)]
pub(crate) struct Log {
    numbers: Vec<u64>,
    rows: Vec<u8>,
}

impl Model for Log {
    ghost use Rattle.std.specs.Prelude.{◌≡◌, ◌≤◌, length};
    ghost use Rattle.std.specs.Vec.{vec_capacity};
    ghost use Rattle.session.specs.declared.serve.TheConstants.{MAX_REQUESTS};
    ghost use Rattle.session.specs.Progress.{Noted};

    ghost Value = { Noted };

    ghost view = { λ l. record { numbers = l.numbers.items; rows = l.rows.items } };

    ghost invariant = { λ l. (length l.rows.items ≡ length l.numbers.items)
        × (MAX_REQUESTS ≤ vec_capacity l.numbers) × (MAX_REQUESTS ≤ vec_capacity l.rows) };
}

impl Log {
    /// A log without an entry.
    pub(crate) fn new(alloc: Global) -> Result<Log, Memory>
        ensures numbers { IfOk result (λ log. log.numbers ≡ []) }
        ensures rows { IfOk result (λ log. log.rows ≡ []) }
    {
        Ok(Log {
            numbers: Vec::with_capacity(alloc, MAX_REQUESTS)?,
            rows: Vec::with_capacity(alloc, MAX_REQUESTS)?,
        })
    }

    /// Notes a request.
    pub(crate) fn note(&mut self, number: u64, row: Row)
        requires { length self.old.numbers < MAX_REQUESTS }
        ensures numbers { self.new.numbers ≡ self.old.numbers ++ number ∷ [] }
        ensures rows { self.new.rows ≡ self.old.rows ++ place_of row ∷ [] }
    {
        self.numbers.push_reserved(number);
        self.rows.push_reserved(place_of(row));
    }

    /// The numbers and the places.
    pub(crate) fn into_lists(self) -> (List<u64>, List<u8>)
        ensures numbers { result.0 ≡ self.numbers }
        ensures rows { result.1 ≡ self.rows }
    {
        let Log { numbers, rows } = self;
        (List::from(numbers), List::from(rows))
    }
}
