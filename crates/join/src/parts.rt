ghost use Rattle.std.specs.Prelude.{◌≤◌, length};
ghost use Rattle.stream.specs.declared.limits.TheConstants.{LARGEST_SIZE, LONGEST_NAME};
ghost use Rattle.join.specs.Lies.{AllPlaced, all_placed_prop};

use overlay::{PayloadMark, Sheet};

// What a joined stream is made of: its names, and the parts of its payload, whose marks name places
// of the two streams.
#[derive(Clone, Copy)]
pub struct JoinedParts<'n, 'e, 'l, 'r> {
    pub from: &'n [u8],
    pub to: &'n [u8],
    pub earlier: &'e [u8],
    pub later: &'l [u8],
    pub sheet: Sheet<'r, PayloadMark>,
    pub ghost short_from: { length from.now ≤ LONGEST_NAME },
    pub ghost short_to: { length to.now ≤ LONGEST_NAME },
    pub ghost placed: { AllPlaced earlier.now later.now sheet.runs.now sheet.size } by { all_placed_prop earlier.now later.now sheet.runs.now sheet.size },
    pub ghost small: { sheet.size ≤ LARGEST_SIZE },
}
