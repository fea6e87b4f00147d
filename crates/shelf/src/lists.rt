// The list of an entry.
ghost use Rattle.std.specs.Prelude.{◌≡◌};
ghost use Rattle.shelf.specs.Outcomes.{outcome, list_outcome};

use crate::contents::Contents;
use fault::{Fault, Located};
use listing::write_text;
use overlay::{RangeMark, Run, Side};
use stream::{MOST_RECORDS, RunBuffer};
use table::EntryTable;

// Writes the ranges of entry i as text to the first bytes of `text`; the answer is the text's
// length.
#[tactic(auto, using(crate::proofs::CallSteps::listed), unfolding(crate::specs::Outcomes::list_plan))]
pub(crate) fn list_entry(
    table: &EntryTable,
    bytes: &[u8],
    i: usize,
    text: &mut [u8],
) -> Result<usize, Fault>
    ensures { record (outcome result table.now bytes.now) { buffer = text.new }
        ≡ list_outcome table.now bytes.now i text.old }
{
    let contents = Contents::at(table, bytes, i, 0)?;
    let mut runs = RunBuffer::new();
    let mut ranges = [Run::<RangeMark>::NONE; MOST_RECORDS];
    let planned = contents.read(i, Side::Later, &mut runs, &mut ranges)?;
    let count = planned.plan.count;
    write_text(&ranges[..count], text).in_entry(i as u64)
}
