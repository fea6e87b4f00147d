ghost use Rattle.std.specs.Prelude.{◌≡◌, ◌&&◌, IfOk};
ghost use Rattle.join.specs.Plans.{plan_of};
ghost use Rattle.shelf.specs.Entries.{is_whole, read_row};
ghost use Rattle.stream.specs.Difference.{meaning};
ghost use Rattle.stream.specs.Streams.{OnSide};
ghost use Rattle.stream.specs.Verdict.{same};
ghost use Rattle.table.specs.Entries.{row_of};
ghost use Rattle.table.specs.Names.{name_of};

use fault::{Cause, Fault};
use join::{Plan, is_canonical, plan_stream};
use overlay::Side;
use stream::{Ranges, RunBuffer, Stream};
use table::Entry;

// A stream that was read, with the plan of its canonical stream. The ranges that were found with
// the plan stay in the buffer that the reading got.
#[derive(Clone, Copy)]
pub(crate) struct Planned<'s, 'r> {
    pub(crate) stream: Stream<'s, 'r>,
    pub(crate) plan: Plan,
}

impl<'s, 'r> Planned<'s, 'r> {
    ghost use Rattle.shelf.specs.Planned.{planned_difference, planned_meaning, PlanHolds, IsOwn};

    // Reads a stream for a side of a join, and finds its plan.
    pub(crate) fn read(
        bytes: &'s [u8],
        side: Side,
        runs: &'r mut RunBuffer,
        ranges: &mut Ranges,
    ) -> Result<Planned<'s, 'r>, Fault>
        ensures means { planned_meaning result ≡ meaning bytes.now }
        ensures bytes { IfOk result (λ p. p.stream.bytes.now ≡ bytes.now) }
        ensures on_side { IfOk result (λ p. OnSide side p.stream) }
        ensures plan { IfOk result (λ p. PlanHolds p ranges.new) }
    {
        let stream = Stream::read(bytes, side, runs)?;
        let plan = plan_stream(stream, ranges);
        Ok(Planned { stream, plan })
    }

    // Whether the stream has the names of a row.
    fn has_names(self, row: Entry) -> bool
        ensures { result
            ≡ (same self.entry.stream.from.now (name_of row.from)
            && same self.entry.stream.to.now (name_of row.to)) }
    {
        row.from.is(self.stream.from) && row.to.is(self.stream.to)
    }

    // Whether the stream is the canonical one of its difference, and has the names of a row.
    fn is_whole(self, row: Entry) -> bool
        requires { self.plan ≡ plan_of (planned_difference self) }
        ensures { result
            ≡ is_whole (row_of row) self.entry.stream.bytes.now (planned_difference self.entry) }
    {
        is_canonical(self.stream, self.plan) && self.has_names(row)
    }

    // Reads the stream of a row and finds its plan: its fault, or damage where it is not canonical
    // or has other names.
    pub(crate) fn of_row(
        row: Entry,
        bytes: &'s [u8],
        side: Side,
        runs: &'r mut RunBuffer,
        ranges: &mut Ranges,
    ) -> Result<Planned<'s, 'r>, Fault>
        ensures means { planned_meaning result ≡ read_row (row_of row) bytes.now }
        ensures own { IfOk result (IsOwn side) }
        ensures plan { IfOk result (λ p. PlanHolds p ranges.new) }
    {
        let planned = Planned::read(bytes, side, runs, ranges)?;
        if !planned.is_whole(row) {
            return Err(Fault::new(Cause::Damaged, 0));
        }
        Ok(planned)
    }
}
