//! The calls of an object in memory.

ghost use Rattle.std.specs.Prelude.{◌≡◌, ◌↔◌, Contains, IsTrue};
ghost use Rattle.plain_io.specs.Calls.{CountsCall, FailsNext};

use tgap_model::List;

/// How many calls were made, and the numbers, counted from 0, of those that fail. A count that stands at its type's end
/// stays there.
#[derive(Drop)]
pub struct Calls {
    pub made: u64,
    pub failing: List<u64>,
}

impl Calls {
    /// No call yet; those with the listed numbers will fail.
    pub fn new(failing: List<u64>) -> Self
        ensures { result ≡ record { made = 0; failing = failing } }
    {
        Calls { made: 0, failing }
    }

    /// Counts one more call, and says whether it fails.
    pub fn count(&mut self) -> bool
        ensures counted { CountsCall self.old self.new }
        ensures fails { IsTrue result ↔ FailsNext self.old }
    {
        let fails = self.failing.as_slice().contains(&self.made);
        self.made = self.made.saturating_add(1);
        fails
    }
}
