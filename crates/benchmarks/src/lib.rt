// What the programs in bench/ measure: stores and a shelf at work over memory from C. Each call
// returns how many of the calls that it made were accepted, so that a measurement can see that the
// work was done.
#![tactic(auto)]

mod shelves;
mod stores;
