//! Looks: the calls by which ranges of edges and nodes of the range index are read, and counted.

ghost use Rattle.std.specs.Prelude.{◌≡◌, ◌<◌, ◌+◌, [], length, get_or};

use crate::flat_lists::FlatLists;
use std::sync::ledger::Ledger;
use tgap_model::Steps;

/// What stands at a place. It is one look.
pub fn look<'a, T, L: Ledger>(items: &'a [T], place: usize, looks: &mut Steps<L>) -> &'a T
    requires { place < length items.now }
    ensures value { result.now ≡ get_or items.now place result.now }
    ensures counted { looks.new ≡ looks.old + 1 }
{
    looks.tick();
    &items[place]
}

/// The list that stands at a place. It is one look.
pub fn look_list<'a, L: Ledger>(
    lists: &'a FlatLists,
    place: usize,
    steps: &mut Steps<L>,
) -> &'a [u32]
    requires { place < length lists.now }
    ensures value { result.now ≡ get_or lists.now place [] }
    ensures counted { steps.new ≡ steps.old + 1 }
{
    steps.tick();
    lists.at(place)
}
