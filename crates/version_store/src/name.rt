//! The name that ties a press and its seats together.

ghost use Rattle.std.specs.Prelude.{ℕ, []};
ghost use Rattle.atomic_table.specs.Seated.{TableId};

use std::marker::Brand;

/// The name of a store. It has no calls: it stands in the types of a press and of its seats, so that they are known to be of one
/// store. A store is opened under a type parameter `N: StoreName`, in a function that is called at `std::marker::Brand`.
pub trait StoreName {
    /// Which store it is.
    ghost store: { TableId };

    /// How many versions that store may have.
    ghost limit: { ℕ };

    /// How many seats it has.
    ghost seats: { ℕ };
}

impl StoreName for Brand {
    ghost store = { record { words = 0; slots = 0; views_name = 0; atom = 0; block = 0; offset = 0; slot_names = [] } };

    ghost limit = { 0 };

    ghost seats = { 0 };
}
