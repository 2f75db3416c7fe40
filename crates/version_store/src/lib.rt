//! The versions of a map that many share. `Machine` is the pure core of the sharing: which version each actor has pinned,
//! and which commits are published. `specs/Machine.antt` defines what comes of each event.
//! Threads share versions by a `Press`, which publishes them, and by `Seat`s, which pin the newest one without a lock. Both stand on
//! `atomic_table`, whose steps keep one list that only grows.
#![tactic(auto)]

mod event;
mod fresh;
mod known;
mod machine;
mod name;
mod pin;
mod plays;
mod press;
mod promise;
mod seat;
mod shelf;

pub use event::{Event, Outcome};
pub use fresh::{Fresh, FreshOf, start};
pub use known::{Growing, Known};
pub use machine::Machine;
pub use name::StoreName;
pub use pin::Pin;
pub use press::{Press, PressOf, PublishFail};
pub use promise::crash_at_any_moment;
pub use seat::{Seat, SeatOf};
