//! A journal of edits on a disk that may crash at any moment: each batch is stored before its version is published. It stands on
//! `tgap_model` and `plain_io`.
#![tactic(auto)]

mod disk;
mod disks;
mod entry;
mod found;
mod journal;
mod kept;
mod promise;
mod reading;
mod row;
mod rows;
mod store;
mod written;

pub use disk::{Disk, HostDisk, MemoryDisk, SureDisk};
pub use disks::{Disks, HostDisks, MemoryDisks};
pub use entry::{AppendFail, Entry, JournalFail, NotOpened};
pub use journal::Journal;
pub use kept::Kept;
pub use promise::crash_at_any_moment;
