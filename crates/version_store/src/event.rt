//! What is done with the versions of a map, and what comes of it.

use tgap_model::Base;

/// What an actor does, by the number of the actor.
#[derive(Drop)]
pub enum Event {
    /// It begins an edit from the version that it has pinned.
    Begin(u32),
    /// It commits a map that it has made of that version.
    Commit(u32, Base),
    /// It pins the newest version.
    Pin(u32),
    /// It reads the version that it has pinned.
    Read(u32),
    /// It gives up its pin.
    Leave(u32),
}

/// What comes of an event, with the number of a version, or with the limit of their number.
#[derive(Clone, Copy, Debug, PartialEq, Eq)]
pub enum Outcome {
    /// The edit begins from this version.
    Began(u64),
    /// The map is published as this version, and the actor has pinned it.
    Published(u64),
    /// The pin is older than this version, which is the newest.
    Stale(u64),
    /// As many versions as this are published, and there can be no more.
    Full(u64),
    /// This version, the newest, is pinned.
    Pinned(u64),
    /// This version is read.
    At(u64),
    /// The pin is given up.
    Left,
    /// There is no such actor, or it has no pin.
    Idle,
}
