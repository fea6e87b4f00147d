ghost use Rattle.std.specs.Prelude.{◌≡◌, length, Ok};
ghost use Rattle.fault.specs.Fault.{and_then};
ghost use Rattle.stream.specs.Streams.{stream_difference};
ghost use Rattle.join.specs.Joins.{joined_stream};
ghost use Rattle.join.specs.Plans.{PlanFound};

use crate::lengths::stream_length;
use crate::pairs::Pair;
use fault::Fault;
use overlay::{RangeMark, Run};
use stream::{MOST_RECORDS, Ranges, RunBuffer, Stream, find_ranges};
use writer::Heading;

/// What a canonical stream comes to: how many data records it has, and how many bytes.
#[derive(Clone, Copy)]
pub struct Plan {
    pub count: usize,
    pub length: u64,
}

#[tactic(auto, using(stream::proofs::StreamFacts::few_runs, stream::proofs::StreamFacts::small_size, stream::proofs::StreamFacts::short_from, stream::proofs::StreamFacts::short_to))]
fn find_own_plan(stream: Stream, ranges: &mut Ranges) -> Plan
    ensures { PlanFound (stream_difference stream.entry)
        result ranges.old ranges.new }
{
    let count = find_ranges(stream.sheet, ranges);
    let heading = Heading {
        from: stream.from,
        to: stream.to,
        size: stream.sheet.size,
    };
    Plan {
        count,
        length: stream_length(heading, &ranges[..count]),
    }
}

/// Finds the plan of a stream's canonical stream, whose ranges it writes into the first places of
/// `ranges`. The places after them stay, and no stream is written.
pub fn plan_stream(stream: Stream, ranges: &mut Ranges) -> Plan
    ensures { PlanFound (stream_difference stream.entry)
        result ranges.old ranges.new }
{
    find_own_plan(stream, ranges)
}

/// The length of the join of two streams, which is not written. Refused as the join is, but for the
/// buffer.
pub fn joined_length(earlier: &[u8], later: &[u8]) -> Result<u64, Fault>
    ensures { result ≡ and_then (joined_stream earlier.now later.now) (λ bytes. Ok (length bytes)) }
{
    let mut earlier_runs = RunBuffer::new();
    let mut later_runs = RunBuffer::new();
    let pair = Pair::read(earlier, later, &mut earlier_runs, &mut later_runs)?;
    let mut ranges = [Run::<RangeMark>::NONE; MOST_RECORDS];
    let plan = pair.plan(&mut ranges)?;
    Ok(plan.length)
}
