//! A type for each step on the table, whose ghosts are what the step tells. No value of these types is made.

ghost use Rattle.std.specs.Prelude.{[]};
ghost use Rattle.version_store.specs.Rule.{with_seat, new_seat, note, hearing, without_name, name_of, with_name};
ghost use Rattle.version_store.specs.Steps.{sees, compares, lifts, lays, raises};

use crate::known::Known;
use atomic_table::{Join, Play, Split};
use std::sync::Arc;
use tgap_model::Holds;

pub(crate) struct See;

impl<V: Holds> Play<Option<Arc<V>>, Known<V>> for See {
    ghost then = { sees V.numbered };
}

pub(crate) struct Compare;

impl<V> Play<Option<Arc<V>>, Known<V>> for Compare {
    ghost then = { compares };
}

pub(crate) struct Lift;

impl<V> Play<Option<Arc<V>>, Known<V>> for Lift {
    ghost then = { lifts };
}

pub(crate) struct Lay;

impl<V> Play<Option<Arc<V>>, Known<V>> for Lay {
    ghost then = { lays };
}

pub(crate) struct Raise;

impl<V> Play<Option<Arc<V>>, Known<V>> for Raise {
    ghost then = { raises };
}

pub(crate) struct MakeSeat;

impl<V> Split<Known<V>> for MakeSeat {
    ghost left = { with_seat };

    ghost right = { new_seat };
}

pub(crate) struct MakeNote;

impl<V> Split<Known<V>> for MakeNote {
    ghost left = { λ d. d };

    ghost right = { λ d. note d.list };
}

pub(crate) struct Hear;

impl<V> Join<Known<V>> for Hear {
    ghost both = { hearing };

    ghost spent = { note [] };
}

pub(crate) struct LendName;

impl<V> Split<Known<V>> for LendName {
    ghost left = { without_name };

    ghost right = { name_of };
}

pub(crate) struct TakeName;

impl<V> Join<Known<V>> for TakeName {
    ghost both = { with_name };

    ghost spent = { note [] };
}
