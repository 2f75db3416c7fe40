//! What the places of a store know, and the rule that each of their steps keeps.

use atomic_table::{Seat, TableRule};
use std::collections::LinkedList;
use std::sync::Arc;
use tgap_model::Holds;

/// What a place knows. No value of it is made.
pub struct Known<V> {
    /// 0 for a note, 1 for the press, and 2 more than its number for a seat.
    pub role: u64,
    /// How many versions there may be.
    pub limit: u64,
    /// How many seats the press has made.
    pub seats: u64,
    /// The first slot, from those of the next version on, that the press has not filled.
    pub filled: u64,
    /// 1 while that slot is with the press.
    pub out: u64,
    /// The version with which the press has filled slots.
    pub next: LinkedList<V>,
    /// The versions that the place has seen.
    pub list: LinkedList<V>,
    /// The versions that it was told of.
    pub told: LinkedList<V>,
    /// The number of the seat, from 1 on, in whose name the place publishes, or 0 where there is none.
    pub publisher: u64,
    /// The numbers of the versions that were published in that seat's name.
    pub numbers: LinkedList<u64>,
    /// For each version the number of the seat in whose name the press has published it, or 0.
    pub publishers: LinkedList<u64>,
}

/// The rule of a list of versions that only grows.
pub struct Growing;

impl<V: Holds> TableRule<Option<Arc<V>>, Known<V>, u64> for Growing {
    ghost use Rattle.version_store.specs.Rule.{Kept, first_press};

    ghost holds = { λ limit. Kept V.numbered limit };

    ghost first = { first_press };
}

/// The right of the press, of a seat or of a note to make steps.
pub type Place<V> = Seat<Option<Arc<V>>, Known<V>>;
