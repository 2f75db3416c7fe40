//! A disk that never fails, and keeps nothing.

ghost use Rattle.std.specs.Prelude.{false, [], ⊤, refl};

use super::Disk;
use plain_io::{Failed, LoadFail};
use std::alloc::Global;
use tgap_model::Text;

/// A disk that never fails and keeps nothing: a read gives no byte. It tells nothing.
#[derive(Clone, Copy, PartialEq, Eq)]
pub struct SureDisk;

impl Disk for SureDisk {
    ghost told = { λ disk. false };

    ghost seen = { λ disk. [] };

    ghost may_leave = { λ disk image. ⊤ };

    ghost moment = { λ disk. 0 };

    ghost left_since = { λ disk start image. ⊤ };

    ghost faults = { λ disk. 0 };

    fn read(&mut self, alloc: Global, _max: u64) -> Result<Text, LoadFail> {
        Ok(Text::new(alloc))
    }

    fn write_at(&mut self, _at: u64, _bytes: &[u8]) -> Result<(), Failed> {
        Ok(())
    }

    fn sync(&mut self) -> Result<(), Failed> {
        Ok(())
    }

    fn faults(&self) -> u64 {
        0
    }

    ghost told_alike = { λ one other. refl };

    ghost seen_is_left = { λ disk told. tt };

    ghost counts_now = { λ disk start image le left. tt };

    ghost only_now = { λ disk image left. tt };
}
