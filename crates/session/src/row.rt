//! What becomes of an item: the rows of the table of outcomes.

/// What becomes of a request or of a head at fault.
#[derive(Clone, Copy, PartialEq, Eq)]
pub enum Row {
    /// It is answered from the version that is pinned.
    Read,
    /// The newest version is pinned.
    Pinned,
    /// The newest version, which is no older than the one that the client has seen, is pinned.
    SeenPinned,
    /// The newest version is older than the one that the client has seen.
    Behind,
    /// The batch of edits is at fault, or the edited map is.
    Refused,
    /// The edited map is published.
    Published,
    /// The version that is pinned is no longer the newest.
    Stale,
    /// As many versions are published as there may be.
    Full,
    /// There was no memory to answer it.
    NoMemory,
    /// The keeper failed to keep the batch, and so the edited map is not published.
    Unkept,
    /// The keeper has no room for the batch, and so the edited map is not published.
    KeeperFull,
}
