//! A seat of a store of versions, with the store's press behind its lock.

ghost use Rattle.session.specs.Versions.{seen_of, seat_room};

use crate::versions::Versions;
use map_version::Version;
use std::alloc::Global;
use std::sync::{Arc, Mutex, Wait};
use tgap_model::{Keep, Memory};
use version_store::{Pin, Press, PublishFail, Seat, StoreName};

impl<N: StoreName, K: Keep> Versions<Mutex<Press<Version, N, K>>> for Seat<Version, N> {
    ghost use Rattle.session.specs.Versions.{seen_of, seat_room};

    ghost seen = { seen_of };

    fn pin(&mut self, alloc: Global) -> Result<Pin<Version>, Memory> {
        self.pin(alloc)
    }

    fn newest<R: Wait>(
        &mut self,
        rt: &R,
        alloc: Global,
        press: &Mutex<Press<Version, N, K>>,
    ) -> Result<u64, Memory> {
        let mut press = press.lock(rt);
        press.newest(alloc, self)
    }

    fn ready<R: Wait>(
        &mut self,
        rt: &R,
        press: &Mutex<Press<Version, N, K>>,
        named: u64,
    ) -> Result<(), PublishFail> {
        let mut press = press.lock(rt);
        press.ready(self, named)
    }

    fn publish<R: Wait>(
        &mut self,
        rt: &R,
        alloc: Global,
        press: &Mutex<Press<Version, N, K>>,
        named: u64,
        next: Arc<Version>,
    ) -> Result<u64, PublishFail> {
        let mut press = press.lock(rt);
        press.publish(rt, alloc, self, named, next)
    }

    ghost room = { seat_room };
}
