// Runs of marked bytes, and the overlay of an earlier difference by a later one, written once for
// every kind of mark. A difference is a sheet, a size and runs below it; a position under no run is
// kept.
#![tactic(auto)]

mod laws;
mod marks;
mod overlays;
mod payloads;
mod ranges;
mod runs;
mod sheets;

pub use laws::{laws_of_maps, laws_of_overlays, laws_of_runs};
pub use marks::Mark;
pub use overlays::overlay;
pub use payloads::{PayloadMark, Side, payload};
pub use ranges::RangeMark;
pub use runs::{Piece, Run};
pub use sheets::Sheet;
