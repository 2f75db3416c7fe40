//! The keeper of a press, and the end of a press.

ghost use Rattle.std.specs.Prelude.{◌≡◌};
ghost use Rattle.version_store.specs.Folds.{batches_of, FitsTold};
ghost use Rattle.version_store.specs.Store.{press_versions, press_limit, press_keeper, press_publishers, press_seats};

use super::{Press, PressOf};
use crate::known::Growing;
use crate::name::StoreName;
use std::sync::Wait;
use tgap_model::{Holds, Keep, NoKeeper};

impl<V: Holds + Drop, N: StoreName> PressOf<V, N, NoKeeper, Growing> {
    /// Gives the press a keeper, with which each further batch is kept before its version is published. The list stays. It takes no memory.
    pub fn attach<J: Keep>(self, keeper: J) -> Press<V, N, J>
        // Where it is told what is kept, that comes to the batches of the list, and to at most one more.
        requires kept { FitsTold (batches_of V.batched (press_versions self)) (J.told keeper) }
        ensures same { (press_versions result ≡ press_versions self) × (press_limit result ≡ press_limit self) }
        ensures publishers { (press_publishers result ≡ press_publishers self) × (press_seats result ≡ press_seats self) }
        ensures keeper { press_keeper result ≡ keeper }
    {
        let PressOf {
            table,
            place,
            limit,
            count,
            seats,
            keeper: NoKeeper,
            name,
        } = self;
        PressOf {
            table,
            place,
            limit,
            count,
            seats,
            keeper,
            name,
        }
    }

    /// Ends the press. The versions last for as long as a seat or a pin holds them.
    pub fn end<R: Wait>(self, _rt: &R) {
        let _press = self;
    }
}

impl<V: Holds + Drop, N: StoreName, K: Keep> PressOf<V, N, K, Growing> {
    /// Ends the press as `end` does, and gives its keeper. It takes no memory.
    pub fn part<R: Wait>(self, _rt: &R) -> K
        ensures keeper { result ≡ press_keeper self }
        // Where it is told what is kept, that comes to the batches of the list, and to at most one more.
        ensures kept { FitsTold (batches_of V.batched (press_versions self)) (K.told result) }
    {
        let PressOf {
            table: _,
            place: _,
            limit: _,
            count: _,
            seats: _,
            keeper,
            name: _,
        } = self;
        keeper
    }
}
