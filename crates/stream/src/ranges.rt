ghost use Rattle.std.specs.Prelude.{◌≡◌, ◌≤◌, map, length};
ghost use Rattle.overlay.specs.Buffers.{first_places};
ghost use Rattle.overlay.specs.Marks.{range_of};
ghost use Rattle.overlay.specs.Runs.{with_mark};
ghost use Rattle.stream.specs.Parts.{range_runs, part_ranges, RangesFound};

use crate::limits::{MOST_RECORDS, Ranges};
use overlay::{PayloadMark, RangeMark, Run, Sheet, overlay};

// Writes the kinds of runs, run by run.
fn put_kinds(runs: &[Run<PayloadMark>], out: &mut [Run<RangeMark>])
    requires { length runs.now ≤ length out.old }
    ensures { out.new ≡ first_places (map (with_mark range_of) runs.now) out.old }
{
    for (i, run) in runs.iter().enumerate() {
        out[i] = Run {
            offset: run.offset,
            length: run.length,
            mark: run.mark.into(),
        };
    }
}

/// Writes the runs of a sheet, each with its kind alone, into the first places of `out`, and lends
/// them out as a sheet. What the places after them then hold is not said.
#[tactic(auto, using(crate::proofs::FoundRanges::kinds_found, crate::proofs::FoundRanges::kinds_rise))]
pub fn mark_ranges<'k>(sheet: Sheet<PayloadMark>, out: &'k mut Ranges) -> Sheet<'k, RangeMark>
    requires { length sheet.runs.now ≤ MOST_RECORDS }
    ensures runs { result.runs.now ≡ map (with_mark range_of) sheet.entry.runs.now }
    ensures size { result.size ≡ sheet.entry.size }
{
    put_kinds(sheet.runs, out);
    Sheet {
        runs: &out[..sheet.runs.len()],
        size: sheet.size,
    }
}

// The ranges of a stream: its runs laid over nothing, which unites those that touch and are of one
// kind.
fn unite(sheet: Sheet<RangeMark>, out: &mut Ranges) -> usize
    requires { length sheet.runs.now ≤ MOST_RECORDS }
    ensures { RangesFound (range_runs sheet.entry.runs.now sheet.entry.size)
        result out.old out.new }
{
    let nothing = Sheet {
        runs: &[],
        size: sheet.size,
    };
    overlay(nothing, sheet, out).unwrap()
}

/// Finds the ranges that the runs of one stream come to. Writes them into the first places of `out`
/// and returns how many there are. The places after them stay.
#[tactic(auto, unfolding(crate::specs::Parts::part_ranges))]
pub fn find_ranges(sheet: Sheet<PayloadMark>, out: &mut Ranges) -> usize
    requires { length sheet.runs.now ≤ MOST_RECORDS }
    ensures { RangesFound (part_ranges sheet.entry.runs.now sheet.entry.size)
        result out.old out.new }
{
    let mut bounds = [Run::<RangeMark>::NONE; MOST_RECORDS];
    unite(mark_ranges(sheet, &mut bounds), out)
}
