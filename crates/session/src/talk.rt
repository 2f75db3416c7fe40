//! What a connection has of its own.

use crate::log::Log;
use map_version::Version;
use version_store::Pin;

/// What a connection has of its own: the version that is pinned, and what is noted of its requests.
#[derive(Drop)]
pub(crate) struct Talk {
    pub pin: Pin<Version>,
    pub log: Log,
}
