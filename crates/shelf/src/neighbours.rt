// Two entries side by side, and their join, which goes into the work buffer if there is room for it
// there and on the shelf.
ghost use Rattle.std.specs.Prelude.{◌≡◌, ◌+◌, ◌^◌, ◌<◌, ◌≤◌, length, IfOk};
ghost use Rattle.join.specs.Joins.{pair_join, pair_meant};
ghost use Rattle.table.specs.declared.table.TheConstants.{MOST_ENTRIES};
ghost use Rattle.shelf.specs.Entries.{are_there};
ghost use Rattle.shelf.specs.Outcomes.{united_fill, finds_room, join_fits, join_outcome};
ghost use Rattle.shelf.specs.Steps.{MayUnite, united_outcome, neighbours_join, stream_answer, stream_buffer};
ghost use Rattle.stream.specs.Verdict.{check_answer};

use crate::contents::Contents;
use fault::{Cause, Fault, Layer, Located};
use join::Pair;
use overlay::{RangeMark, Run, Side};
use stream::{MOST_RECORDS, RunBuffer};
use table::EntryTable;

// Entries i and i + 1 of a shelf.
#[derive(Clone, Copy)]
pub(crate) struct Neighbours<'a> {
    contents: Contents<'a>,
    i: usize,
    ghost two: { i + 1 < length contents.table.now.rows },
    ghost few: { length contents.table.now.rows ≤ MOST_ENTRIES },
}

impl<'a> Neighbours<'a> {
    // Refuses where entries i and i + 1 are not both there, or where the bytes end before the fill.
    pub(crate) fn of(
        table: &'a EntryTable,
        bytes: &'a [u8],
        i: usize,
    ) -> Result<Neighbours<'a>, Fault>
        ensures answer { check_answer result ≡ are_there table.now bytes.now i 1 }
        ensures contents { IfOk result
            (λ n. (n.contents.table.now ≡ table.now) × (n.contents.bytes.now ≡ bytes.now)) }
        ensures index { IfOk result (λ n. n.i ≡ i) }
    {
        let contents = Contents::at(table, bytes, i, 1)?;
        Ok(Neighbours { contents, i })
    }

    // Reads the two, each on its side of a join.
    pub(crate) fn read<'r>(
        self,
        earlier_runs: &'r mut RunBuffer,
        later_runs: &'r mut RunBuffer,
    ) -> Result<Pair<'a, 'r>, Fault>
        ensures { pair_meant result
            ≡ neighbours_join self.entry.contents.table.now self.entry.contents.bytes.now self.entry.i }
    {
        let contents = self.contents;
        let mut ranges = [Run::<RangeMark>::NONE; MOST_RECORDS];
        let earlier = contents.read(self.i, Side::Earlier, earlier_runs, &mut ranges)?;
        let later = contents.read(self.i + 1, Side::Later, later_runs, &mut ranges)?;
        Ok(Pair {
            earlier: earlier.stream,
            later: later.stream,
        })
    }

    // The fill after the two became one entry of `byte_count` bytes.
    fn united_fill(self, byte_count: usize) -> usize
        requires { self.contents.table.now.fill + byte_count < 2 ^ 64 }
        ensures { result ≡ united_fill self.entry.contents.table.now self.entry.i byte_count }
    {
        let table = self.contents.table;
        let earlier = table.entry(self.i);
        let later = table.entry(self.i + 1);
        let end = later.place + later.length;
        earlier.place + byte_count + (table.fill() - end)
    }

    // Refuses a joined stream of `byte_count` bytes for which the work buffer or the shelf's bytes
    // are too short.
    fn check_room(self, work: &[u8], byte_count: u64) -> Result<usize, Fault>
        ensures { result
            ≡ finds_room self.entry.contents.table.now self.entry.contents.bytes.now self.entry.i
            work.now byte_count }
    {
        if (work.len() as u64) < byte_count {
            return Err(Fault::new(Cause::ShortBuffer, byte_count).at_layer(Layer::Join));
        }
        let fill = self.united_fill(byte_count as usize);
        if self.contents.bytes.len() < fill {
            return Err(Fault::new(Cause::ShortBuffer, fill as u64).at_layer(Layer::Shelf));
        }
        Ok(byte_count as usize)
    }

    // Writes the join of the two, which were read, to the first bytes of the work buffer; the
    // answer is its length. Refused: more than 512 ranges, then a work buffer or a shelf that is
    // too short.
    pub(crate) fn write(self, pair: Pair, work: &mut [u8]) -> Result<usize, Fault>
        ensures answer { result ≡ stream_answer
            (join_fits self.entry.contents.table.now self.entry.contents.bytes.now self.entry.i
            work.old (pair_join pair.entry)) }
        ensures work { work.new ≡ stream_buffer work.old
            (join_fits self.entry.contents.table.now self.entry.contents.bytes.now self.entry.i
            work.old (pair_join pair.entry)) }
    {
        let mut ranges = [Run::<RangeMark>::NONE; MOST_RECORDS];
        let plan = pair.plan(&mut ranges)?;
        let byte_count = self.check_room(work, plan.length)?;
        let count = plan.count;
        pair.write(&ranges[..count], work);
        Ok(byte_count)
    }
}

// Writes the join of entries i and i + 1 to the first bytes of the work buffer, if it may take
// their place; the answer is its length.
#[tactic(auto, using(crate::proofs::CallSteps::may_unite, crate::proofs::CallSteps::joined), unfolding(crate::specs::Outcomes::join_plan))]
pub(crate) fn write_join(
    table: &EntryTable,
    bytes: &[u8],
    i: usize,
    work: &mut [u8],
) -> Result<usize, Fault>
    ensures outcome { united_outcome table.now bytes.now i work.new result
        ≡ join_outcome table.now bytes.now i work.old }
    ensures unite { IfOk result (MayUnite table.now bytes.now i work.new) }
{
    let two = Neighbours::of(table, bytes, i)?;
    let mut earlier_runs = RunBuffer::new();
    let mut later_runs = RunBuffer::new();
    let pair = two.read(&mut earlier_runs, &mut later_runs)?;
    two.write(pair, work).in_entry(i as u64)
}
