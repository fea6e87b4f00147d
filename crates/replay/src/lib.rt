//! Series of calls on a shelf that are really made, with what the shelf promises of their run.
#![tactic(auto)]

mod replays;
mod requests;

pub use replays::replay;
pub use requests::{Request, Window};
