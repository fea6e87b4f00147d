//! The shelf of difference streams: what it holds, its calls, and what they promise about every
//! series of them. Crate `replay` really makes such a series.
#![tactic(auto)]

ghost use Rattle.shelf.specs.Promise.{AlwaysComesBack};
ghost use Rattle.shelf.specs.Refusals.{RefusalsAlterNothing};
ghost use Rattle.shelf.specs.TableLaws.{LawsOfTables};

mod contents;
mod lists;
mod moves;
mod neighbours;
mod planned;
mod puts;
mod settling;
mod shelf;

pub use shelf::Shelf;

/// The laws of the shelf. `tables`: what the operations on the table keep. `refusals`: a refused
/// call changes nothing, but for the image where the store stopped a settle. `comes_back`: after
/// every series of puts, joins, settles and lists, refused or not, the base image with the shelf's
/// streams is what it was with all accepted streams, each shelf stream is the canonical join of its
/// stretch, and lists show just that.
pub fn laws_of_the_shelf()
    ensures tables { LawsOfTables }
    ensures refusals { RefusalsAlterNothing }
    ensures comes_back { AlwaysComesBack }
{}
