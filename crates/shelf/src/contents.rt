ghost use Rattle.std.specs.Prelude.{◌≡◌, ◌+◌, ◌<◌, ◌≤◌, length, IfOk, Ok};
ghost use Rattle.fault.specs.Fault.{fault, and_then};
ghost use Rattle.fault.specs.declared.cause.Cause.TheVariants as causes;
ghost use Rattle.join.specs.Plans.{plan_of};
ghost use Rattle.stream.specs.Difference.{meaning};
ghost use Rattle.stream.specs.Verdict.{check_answer};
ghost use Rattle.table.specs.Entries.{row_of};
ghost use Rattle.table.specs.declared.table.TheConstants.{MOST_ENTRIES};
ghost use Rattle.shelf.specs.Entries.{refuse_if, is_short, are_there, slice, entry};
ghost use Rattle.shelf.specs.Outcomes.{put_fits};
ghost use Rattle.shelf.specs.Planned.{planned_difference, planned_meaning, PlanHolds, IsOwn};
ghost use Rattle.shelf.specs.Steps.{HasRoom};

use crate::planned::Planned;
use fault::{Cause, Fault, Layer, Located};
use overlay::Side;
use stream::{Ranges, RunBuffer};
use table::{Entry, EntryTable, MOST_ENTRIES};

// What a shelf holds: its table, and the bytes that a call got, which reach the table's fill. The
// checks of each call make it. Functions that change table and bytes take the two as `&mut`.
#[derive(Clone, Copy)]
pub(crate) struct Contents<'a> {
    pub(crate) table: &'a EntryTable,
    pub(crate) bytes: &'a [u8],
    ghost reaches: { table.now.fill ≤ length bytes.now },
}

impl<'a> Contents<'a> {
    // Refuses bytes that end before the fill.
    pub(crate) fn of(table: &'a EntryTable, bytes: &'a [u8]) -> Result<Contents<'a>, Fault>
        ensures answer { check_answer result
            ≡ refuse_if (is_short table.now bytes.now) (fault causes.Damaged 0) (Ok tt) }
        ensures same { IfOk result (λ c. (c.table.now ≡ table.now) × (c.bytes.now ≡ bytes.now)) }
    {
        if bytes.len() < table.fill() {
            return Err(Fault::new(Cause::Damaged, 0));
        }
        Ok(Contents { table, bytes })
    }

    // The same for a call on entry i and `more` entries after it. Refused first: entries that are
    // not all there.
    pub(crate) fn at(
        table: &'a EntryTable,
        bytes: &'a [u8],
        i: usize,
        more: usize,
    ) -> Result<Contents<'a>, Fault>
        ensures answer { check_answer result ≡ are_there table.now bytes.now i more }
        ensures same { IfOk result (λ c. (c.table.now ≡ table.now) × (c.bytes.now ≡ bytes.now)) }
        ensures there { IfOk result (λ c. i + more < length c.table.now.rows) }
        ensures few { IfOk result (λ c. length c.table.now.rows ≤ MOST_ENTRIES) }
    {
        if table.count().saturating_sub(more) <= i {
            return Err(Fault::new(Cause::NoEntry, i as u64).in_entry(i as u64));
        }
        Contents::of(table, bytes).in_entry(i as u64)
    }

    // The stream of an entry.
    fn stream(self, row: Entry) -> &'a [u8]
        requires { row.place + row.length ≤ self.table.now.fill }
        ensures { result.now ≡ slice self.entry.bytes.now (row_of row) }
    {
        let start = row.place;
        let end = start + row.length;
        &self.bytes[start..end]
    }

    // Reads entry i for a side of a join, and finds its plan. A fault has the entry's number, and a
    // place counted from the entry's first byte.
    #[tactic(auto, unfolding(crate::specs::Entries::entry))]
    pub(crate) fn read<'r>(
        self,
        i: usize,
        side: Side,
        runs: &'r mut RunBuffer,
        ranges: &mut Ranges,
    ) -> Result<Planned<'a, 'r>, Fault>
        requires { i < length self.table.now.rows }
        ensures means { planned_meaning result ≡ entry self.entry.table.now self.entry.bytes.now i }
        ensures own { IfOk result (IsOwn side) }
        ensures plan { IfOk result (λ p. PlanHolds p ranges.new) }
    {
        let row = self.table.entry(i);
        Planned::of_row(row, self.stream(row), side, runs, ranges).in_entry(i as u64)
    }

    // Refuses a stream that may not be added: it has to lead on to a new name, and to find room in
    // the table and, for its canonical stream, in the bytes.
    #[tactic(auto, using(join::proofs::StreamLengths::stream_short))]
    fn check_fit(self, planned: Planned) -> Result<(), Fault>
        requires { planned.plan ≡ plan_of (planned_difference planned) }
        ensures { and_then result (λ _. Ok (planned_difference planned.entry))
            ≡ put_fits self.entry.table.now self.entry.bytes.now (planned_difference planned.entry) }
    {
        if !self.table.next_name().is(planned.stream.from) {
            return Err(Fault::new(Cause::NamesDiffer, 0).at_layer(Layer::Shelf));
        }
        if self.table.count() >= MOST_ENTRIES {
            return Err(Fault::new(Cause::ShelfFull, 0));
        }
        if self.table.is_taken(planned.stream.to) {
            return Err(Fault::new(Cause::NameTaken, 0));
        }
        let needed = self.table.fill() as u64 + planned.plan.length;
        if (self.bytes.len() as u64) < needed {
            return Err(Fault::new(Cause::ShortBuffer, needed).at_layer(Layer::Shelf));
        }
        Ok(())
    }

    // Reads a stream that is to be added, and finds its plan. Refuses one that may not be added.
    pub(crate) fn fit<'s, 'r>(
        self,
        stream: &'s [u8],
        runs: &'r mut RunBuffer,
        ranges: &mut Ranges,
    ) -> Result<Planned<'s, 'r>, Fault>
        ensures means { planned_meaning result
            ≡ and_then (meaning stream.now) (put_fits self.entry.table.now self.entry.bytes.now) }
        ensures room { IfOk result
            (λ p. HasRoom self.entry.table.now self.entry.bytes.now (planned_difference p)) }
        ensures plan { IfOk result (λ p. PlanHolds p ranges.new) }
    {
        let planned = Planned::read(stream, Side::Later, runs, ranges)?;
        self.check_fit(planned)?;
        Ok(planned)
    }
}
