//! What a program makes of the bytes of files: lists, joins and applies in memory, the names that
//! words of a command line stand for, and the file that a refusal is about. It touches no file.
#![tactic(auto)]

mod bytes;
mod call_error;
mod names;
mod paths;

pub use bytes::{ApplyBytes, JoinBytes, MOST_BYTES, list_text};
pub use call_error::CallError;
pub use names::{name_of, name_text};
pub use paths::{ApplyPaths, JoinPaths};
