//! The table of a shelf: where each of its entries lies, and between which snapshots it leads.
#![tactic(auto)]

mod entry;
mod name;
mod rows;
mod table;

pub use entry::Entry;
pub use name::Name;
pub use table::{EntryTable, MOST_ENTRIES};
