ghost use Rattle.std.specs.Prelude.{◌≡◌, map, length, slice_get};
ghost use Rattle.std.specs.Option.{option_map};
ghost use Rattle.shelf.specs.Outcomes.{outcome, done_count, make_answer};
ghost use Rattle.shelf.specs.Outcomes.{put_outcome, join_outcome, settle_outcome, list_outcome};
ghost use Rattle.store.specs.Stores.{KeepsPast};
ghost use Rattle.table.specs.Entries.{row_of};
ghost use Rattle.table.specs.Names.{name_of};
ghost use Rattle.table.specs.Tables.{LaidOut};

use crate::lists::list_entry;
use crate::moves::{drop_entry, unite_entries};
use crate::neighbours::write_join;
use crate::puts::{add_planned, plan_put};
use crate::settling::apply_first;
use fault::{Cause, Fault, Layer};
use overlay::{RangeMark, Run};
use std::marker::Model;
use store::Store;
use stream::{MOST_RECORDS, RunBuffer};
use table::{Entry, EntryTable, Name};
use writer::is_good_name;

/// A shelf: the name of the snapshot that a base image holds, and a table of the difference streams
/// that wait to be applied to it.
///
/// The streams lie end to end in the first bytes of a piece of memory, the shelf's bytes. These and
/// the base image are not in it: each call gets them. A contract sees a shelf as its table, the
/// record `Table` of crates/table/specs. A call's contract is one equation: its outcome is that of
/// specs/Outcomes.antt, which says the answer and what the table, the bytes, the image and the
/// buffer then hold. A refusal changes nothing, but for the image where the store stops a settle.
#[derive(Drop)]
pub struct Shelf {
    table: EntryTable,
}

impl Model for Shelf {
    ghost use Rattle.table.specs.Tables.{Table};

    ghost Value = { Table };

    ghost view = { λ s. s.table };
}

impl Shelf {
    /// An empty shelf beside a base image at the snapshot `base`; the empty name stands for the
    /// state before the first snapshot. Refused: a bad name.
    pub fn new(base: &[u8]) -> Result<Shelf, Fault>
        ensures { result ≡ make_answer base.now }
    {
        if base.len() > 0 && !is_good_name(base) {
            return Err(Fault::new(Cause::BadName, 0).at_layer(Layer::Shelf));
        }
        Ok(Shelf {
            table: EntryTable::new(base),
        })
    }

    /// Adds the canonical stream of a stream at the fill, as the last entry.
    ///
    /// Refused, in this order: bytes that end before the fill, the stream, a from name that is not
    /// the last entry's to name (or the base name), a 65th entry, a to name that is the base name
    /// or an entry's to name, bytes too short.
    pub fn put(&mut self, bytes: &mut [u8], stream: &[u8]) -> Result<(), Fault>
        ensures { outcome (done_count result) self.new bytes.new
            ≡ put_outcome self.old bytes.old stream.now }
    {
        let mut runs = RunBuffer::new();
        let mut ranges = [Run::<RangeMark>::NONE; MOST_RECORDS];
        let planned = plan_put(&self.table, bytes, stream, &mut runs, &mut ranges)?;
        let count = planned.plan.count;
        add_planned(&mut self.table, bytes, planned, &ranges[..count]);
        Ok(())
    }

    /// Joins entries i and i + 1: their joined stream is written to the first bytes of the work
    /// buffer and takes their place. The answer is its length.
    ///
    /// Refused, in this order: no such two entries, bytes that end before the fill, entry i, entry
    /// i + 1 (each its stream's fault, then damage), more than 512 canonical records, a work buffer
    /// too short, bytes too short.
    pub fn join(&mut self, bytes: &mut [u8], i: usize, work: &mut [u8]) -> Result<usize, Fault>
        ensures { record (outcome result self.new bytes.new) { buffer = work.new }
            ≡ join_outcome self.old bytes.old i work.old }
    {
        let count = write_join(&self.table, bytes, i, work)?;
        unite_entries(&mut self.table, bytes, i, &work[0..count]);
        Ok(count)
    }

    /// Settles entry 0: applies it to the base image; then it leaves, and its to name becomes the
    /// base name.
    ///
    /// Refused, in this order: no entry, bytes that end before the fill, the entry, the store. The
    /// store may stop after some records: what they did stands, and the entry stays.
    pub fn settle<S: Store>(&mut self, bytes: &mut [u8], base: &mut S) -> Result<(), Fault>
        ensures same { S.holds base.new ≡ S.holds base.old }
        ensures outcome { record (outcome (done_count result) self.new bytes.new) {
          image = S.image base.new;
        }
            ≡ settle_outcome (S.holds base.old) self.old bytes.old (S.image base.old) }
        // From the end of the image that it leaves on, the store's memory is as it was.
        ensures past { KeepsPast S.past base.old base.new (length (S.image base.new)) }
    {
        apply_first(&self.table, bytes, base)?;
        drop_entry(&mut self.table, bytes);
        Ok(())
    }

    /// Writes the ranges of entry i as text to the first bytes of `text`. The answer is its length.
    ///
    /// Refused, in this order: no such entry, bytes that end before the fill, the entry, a buffer
    /// too short.
    pub fn list(&self, bytes: &[u8], i: usize, text: &mut [u8]) -> Result<usize, Fault>
        ensures { record (outcome result self.now bytes.now) { buffer = text.new }
            ≡ list_outcome self.now bytes.now i text.old }
    {
        list_entry(&self.table, bytes, i, text)
    }

    /// The name of the snapshot that the base image holds, unless a settle stopped.
    pub fn base_name(&self) -> Name
        ensures { name_of result ≡ self.now.base }
    {
        self.table.base()
    }

    /// The place where the entries' bytes end.
    pub fn fill(&self) -> usize
        ensures { result ≡ self.now.fill }
    {
        self.table.fill()
    }

    /// How many entries there are.
    pub fn count(&self) -> usize
        ensures count { result ≡ length self.now.rows }
        ensures laid_out { LaidOut self.now }
    {
        self.table.count()
    }

    /// The entries in order.
    pub fn entries(&self) -> &[Entry]
        ensures rows { map row_of result.now ≡ self.now.rows }
        ensures laid_out { LaidOut self.now }
    {
        self.table.entries()
    }

    /// Entry i, if there is one.
    pub fn entry(&self, i: usize) -> Option<Entry>
        ensures { option_map row_of result ≡ slice_get self.now.rows i }
    {
        self.entries().get(i).copied()
    }
}
