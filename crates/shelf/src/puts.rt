ghost use Rattle.std.specs.Prelude.{◌≡◌, IfOk, Ok};
ghost use Rattle.join.specs.Plans.{plan_of};
ghost use Rattle.stream.specs.Meaning.{ranges};
ghost use Rattle.stream.specs.Streams.{stream_cells};
ghost use Rattle.shelf.specs.Outcomes.{outcome, put_plan, added_outcome};
ghost use Rattle.shelf.specs.Planned.{planned_difference, planned_meaning, PlanHolds};
ghost use Rattle.shelf.specs.Steps.{HasRoom};

use crate::contents::Contents;
use crate::planned::Planned;
use fault::{Fault, Located};
use join::write_planned;
use overlay::{RangeMark, Run};
use stream::{Ranges, RunBuffer};
use table::EntryTable;

// Reads a stream that may be added to the shelf, and finds its plan. Each fault has the number that
// the entry would have had.
#[tactic(auto, unfolding(crate::specs::Outcomes::put_plan))]
pub(crate) fn plan_put<'s, 'r>(
    table: &EntryTable,
    bytes: &[u8],
    stream: &'s [u8],
    runs: &'r mut RunBuffer,
    ranges: &mut Ranges,
) -> Result<Planned<'s, 'r>, Fault>
    ensures means { planned_meaning result ≡ put_plan table.now bytes.now stream.now }
    ensures room { IfOk result (λ p. HasRoom table.now bytes.now (planned_difference p)) }
    ensures plan { IfOk result (λ p. PlanHolds p ranges.new) }
{
    let number = table.count() as u64;
    let contents = Contents::of(table, bytes).in_entry(number)?;
    contents.fit(stream, runs, ranges).in_entry(number)
}

// The canonical stream of a stream, of which `records` are the ranges, becomes the last entry.
#[tactic(auto, using(stream::proofs::StreamFacts::short_from, stream::proofs::StreamFacts::short_to))]
pub(crate) fn add_planned(
    table: &mut EntryTable,
    bytes: &mut [u8],
    planned: Planned,
    records: &[Run<RangeMark>],
)
    requires room { HasRoom table.old bytes.old (planned_difference planned) }
    requires plan { planned.plan ≡ plan_of (planned_difference planned) }
    requires ranged { records.now ≡ ranges (stream_cells planned.stream) }
    ensures { outcome (Ok 0) table.new bytes.new
        ≡ added_outcome table.old bytes.old (planned_difference planned.entry) }
{
    let fill = table.fill();
    write_planned(planned.stream, records, &mut bytes[fill..]);
    table.add(
        planned.plan.length as usize,
        planned.stream.from,
        planned.stream.to,
    );
}
