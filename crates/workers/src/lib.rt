//! Workers that serve the connections of doors side by side, and the end of their work. What one connection is served by is a trait; the
//! crate knows of a connection its link and its end. It stands on `plain_io` and `version_store`.
#![tactic(auto)]

mod attend;
mod closing;
mod end;
mod post;
mod work;

pub use attend::{Attend, serve_door};
pub use closing::close_posts;
pub use end::ServeEnd;
pub use post::{PostOf, serve_posts};
pub use work::{Work, work_all};
