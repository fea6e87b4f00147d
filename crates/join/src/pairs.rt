ghost use Rattle.std.specs.Prelude.{◌≡◌, ◌≤◌, length, IfOk};
ghost use Rattle.fault.specs.Fault.{and_then, fault_by, in_entry};
ghost use Rattle.fault.specs.declared.layer.Layer.TheVariants as layers;
ghost use Rattle.overlay.specs.Buffers.{run_count, first_places};
ghost use Rattle.overlay.specs.declared.payloads.Side.TheVariants.{Earlier, Later};
ghost use Rattle.stream.specs.Bytes.{buffer_with};
ghost use Rattle.stream.specs.Buffers.{written_answer, written_buffer_by};
ghost use Rattle.stream.specs.Difference.{canonical_bytes, meaning};
ghost use Rattle.stream.specs.Meaning.{ranges};
ghost use Rattle.stream.specs.Parts.{parts_cells};
ghost use Rattle.stream.specs.Streams.{stream_meaning, OnSide};
ghost use Rattle.stream.specs.Verdict.{same};
ghost use Rattle.join.specs.Lies.{AllPlaced};

use crate::lengths::stream_length;
use crate::parts::JoinedParts;
use crate::plans::Plan;
use crate::writing::put_stream;
use fault::{Cause, Fault, Layer, Located};
use overlay::{PayloadMark, RangeMark, Run, Sheet, Side, overlay};
use stream::{MOST_RECORDS, Ranges, RunBuffer, Stream, mark_ranges};
use writer::Heading;

// How many parts the payload of a join may come to, by the bound that the overlay promises of the
// records of two streams.
const MOST_PARTS: usize = 2 * (MOST_RECORDS + MOST_RECORDS) + 2;

/// Two streams that are to be joined, as they were read, each on its side of the join.
#[derive(Clone, Copy)]
pub struct Pair<'s, 'r> {
    pub earlier: Stream<'s, 'r>,
    pub later: Stream<'s, 'r>,
    pub ghost on_earlier: { ∥ OnSide Earlier earlier ∥₁ },
    pub ghost on_later: { ∥ OnSide Later later ∥₁ },
}

// Reads a stream that is an entry of a call: a fault has the entry's number.
fn read_entry<'s, 'r>(
    stream: &'s [u8],
    side: Side,
    entry: u64,
    runs: &'r mut RunBuffer,
) -> Result<Stream<'s, 'r>, Fault>
    ensures means { stream_meaning result ≡ fault_by (in_entry entry) (meaning stream.now) }
    ensures on_side { IfOk result (OnSide side) }
{
    Stream::read(stream, side, runs).in_entry(entry)
}

// Whether the later difference leads from where the earlier one leads to.
fn names_meet(earlier: Stream, later: Stream) -> bool
    ensures { result ≡ same later.entry.from.now earlier.entry.to.now }
{
    later.from == earlier.to
}

impl<'s, 'r> Pair<'s, 'r> {
    ghost use Rattle.join.specs.Joins.{joined_meaning, pair_join, pair_meant, pair_stream};
    ghost use Rattle.join.specs.Plans.{PlanAnswer};

    // Reads two streams that meet. Refused, in this order: the earlier stream (entry 0), the later
    // stream (entry 1), names that do not meet.
    pub(crate) fn read(
        earlier: &'s [u8],
        later: &'s [u8],
        earlier_runs: &'r mut RunBuffer,
        later_runs: &'r mut RunBuffer,
    ) -> Result<Pair<'s, 'r>, Fault>
        ensures { pair_meant result ≡ joined_meaning earlier.now later.now }
    {
        let earlier = read_entry(earlier, Side::Earlier, 0, earlier_runs)?;
        let later = read_entry(later, Side::Later, 1, later_runs)?;
        if !names_meet(earlier, later) {
            return Err(Fault::new(Cause::NamesDiffer, 0));
        }
        Ok(Pair { earlier, later })
    }

    // Finds the ranges of a join and counts them; None where they are more than there are places.
    #[tactic(auto, using(stream::proofs::StreamFacts::few_runs))]
    fn join_ranges(self, out: &mut Ranges) -> Option<usize>
        ensures count { result ≡ run_count (ranges (pair_join self.entry).cells) out.old }
        ensures places { out.new ≡ first_places (ranges (pair_join self.entry).cells) out.old }
    {
        let mut under = [Run::<RangeMark>::NONE; MOST_RECORDS];
        let mut over = [Run::<RangeMark>::NONE; MOST_RECORDS];
        overlay(
            mark_ranges(self.earlier.sheet, &mut under),
            mark_ranges(self.later.sheet, &mut over),
            out,
        )
    }

    #[tactic(auto, using(stream::proofs::StreamFacts::short_from, stream::proofs::StreamFacts::short_to))]
    fn find_plan(self, ranges: &mut Ranges) -> Result<Plan, Fault>
        ensures { PlanAnswer (pair_join self.entry)
            result ranges.old ranges.new }
    {
        let Some(count) = self.join_ranges(ranges) else {
            return Err(Fault::new(Cause::TooManyRanges, 0));
        };
        let heading = Heading {
            from: self.earlier.from,
            to: self.later.to,
            size: self.later.sheet.size,
        };
        Ok(Plan {
            count,
            length: stream_length(heading, &ranges[..count]),
        })
    }

    /// Finds the plan of a join, whose ranges it writes into the first places of `ranges`, and
    /// refuses a join of more than 512 ranges: `ranges` then holds the first 512. No stream is
    /// written.
    pub fn plan(self, ranges: &mut Ranges) -> Result<Plan, Fault>
        ensures { PlanAnswer (pair_join self.entry)
            result ranges.old ranges.new }
    {
        self.find_plan(ranges)
    }

    // The parts of a join's payload, which lie in `out`.
    fn join_parts<'p>(self, out: &'p mut [Run<PayloadMark>; MOST_PARTS]) -> Sheet<'p, PayloadMark>
        ensures size { result.size ≡ self.entry.later.sheet.size }
        ensures placed { AllPlaced self.entry.earlier.bytes.now self.entry.later.bytes.now
            result.runs.now result.size }
        ensures cells { parts_cells self.entry.earlier.bytes.now self.entry.later.bytes.now
            result.runs.now result.size ≡ (pair_join self.entry).cells }
    {
        let Pair { earlier, later } = self;
        let count = overlay(earlier.sheet, later.sheet, out).unwrap();
        Sheet {
            runs: &out[..count],
            size: later.sheet.size,
        }
    }

    /// Writes the canonical stream of a join, of which `records` are the ranges, into the first
    /// bytes of `out`. The bytes after it stay.
    #[tactic(auto, using(crate::proofs::PairOverlays::joined_room))]
    pub fn write(self, records: &[Run<RangeMark>], out: &mut [u8])
        requires ranged { records.now ≡ ranges (pair_join self).cells }
        requires room { length (canonical_bytes (pair_join self)) ≤ length out.old }
        ensures { out.new ≡ buffer_with out.old 0 (canonical_bytes (pair_join self.entry)) }
    {
        let mut parts = [Run::<PayloadMark>::NONE; MOST_PARTS];
        let sheet = self.join_parts(&mut parts);
        let Pair { earlier, later } = self;
        let joined = JoinedParts {
            from: earlier.from,
            to: later.to,
            earlier: earlier.bytes,
            later: later.bytes,
            sheet,
        };
        put_stream(joined, records, out);
    }

    // Writes the join of two streams into the first bytes of `out` and returns its length. Refuses
    // more than 512 canonical records, and then a buffer that is too short, which is left alone.
    pub(crate) fn join(self, out: &mut [u8]) -> Result<usize, Fault>
        ensures result { result ≡
            and_then (pair_stream self.entry) (λ bytes. written_answer layers.Join out.old bytes) }
        ensures buffer { out.new ≡ written_buffer_by (pair_stream self.entry) out.old }
    {
        let mut records = [Run::<RangeMark>::NONE; MOST_RECORDS];
        let plan = self.plan(&mut records)?;
        if (out.len() as u64) < plan.length {
            return Err(Fault::new(Cause::ShortBuffer, plan.length).at_layer(Layer::Join));
        }
        self.write(&records[..plan.count], out);
        Ok(plan.length as usize)
    }
}
