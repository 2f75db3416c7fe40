//! A version of a map.

ghost use Rattle.std.specs.Prelude.{◌≡◌, ℕ, List};
ghost use Rattle.tgap_model.specs.Base.{BaseMap};

/// A version of a map that is kept.
pub trait Holds {
    /// Its number.
    ghost numbered: { Self → ℕ };

    /// The map that it was built of.
    ghost base: { Self → BaseMap };

    /// The batch of edits by which it was made of the version before it.
    ghost batched: { Self → List ℕ };

    /// Its number.
    fn number(&self) -> u64
        ensures { result ≡ numbered self.now };

    /// The batch of edits by which it was made of the version before it; for the first version, which has none, no byte.
    fn batch(&self) -> &[u8]
        ensures { result.now ≡ batched self.now };
}
