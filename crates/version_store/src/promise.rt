//! What a press and its keeper promise over every run of publishes.

ghost use Rattle.version_store.specs.Acknowledged.{OutlastsCrash, OutlastsCrashWithin};

use crate::known::Growing;
use crate::name::StoreName;
use tgap_model::{Holds, Keep};

/// However many versions are published and whatever fails: a crash at any moment, between two publishes or within the next one, leaves
/// entries that come to every edit that was acknowledged, in order, none skipped and none in part, and after them to at most one edit
/// that was not. The edits of the versions that the press had when the run began count as acknowledged.
pub fn crash_at_any_moment<V: Holds, N: StoreName, K: Keep>()
    // between two calls
    ensures between { OutlastsCrash Growing V.Holds N.StoreName K.Keep }
    // within the next one
    ensures within { OutlastsCrashWithin Growing V.Holds N.StoreName K.Keep }
{}
