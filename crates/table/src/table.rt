use crate::entry::Entry;
use crate::name::Name;
use crate::rows::{last_name, leads_to, remove_entry};
use arrayvec::ArrayVec;
use std::marker::Model;
use stream::LONGEST_NAME;

/// The most entries that a shelf has.
pub const MOST_ENTRIES: usize = 64;

/// The table of a shelf. A shelf keeps difference streams, its entries, end to end in the first
/// bytes of a piece of memory. The table has the name of the snapshot that the base image holds,
/// the entries in order, and the fill, the place where their bytes end. A contract sees it as the
/// record `Table` of specs/Tables.antt.
#[derive(Drop)]
pub struct EntryTable {
    base: Name,
    entries: ArrayVec<Entry, MOST_ENTRIES>,
    fill: usize,
}

impl Model for EntryTable {
    ghost use Rattle.table.specs.Tables.{Table, LaidOut};

    ghost Value = { Table };

    ghost use Rattle.table.specs.EntryTables.{table_of};

    ghost view = { table_of };

    ghost invariant = { λ t. LaidOut (table_of t) };
}

impl EntryTable {
    ghost use Rattle.std.specs.Prelude.{◌≡◌, ◌+◌, ◌^◌, ◌<◌, ◌≤◌, map, length};
    ghost use Rattle.table.specs.Entries.{row_of};
    ghost use Rattle.table.specs.Names.{name_of};
    ghost use Rattle.table.specs.Tables.{empty_table, row_at, next_name, is_taken, LaidOut};
    ghost use Rattle.table.specs.Tables.{append_row, take_over, drop_for, add_row, unite_rows, drop_row};

    /// A table without entries.
    pub fn new(base: &[u8]) -> EntryTable
        requires { length base.now ≤ «LONGEST_NAME» }
        ensures { result ≡ empty_table base.now }
    {
        EntryTable {
            base: Name::of(base),
            entries: ArrayVec::new(),
            fill: 0,
        }
    }

    /// How many entries there are.
    // Callers see a table's model and not its invariant, so the clauses say what holds of every
    // table.
    pub fn count(&self) -> usize
        ensures count { result ≡ length self.now.rows }
        ensures laid_out { LaidOut self.now }
    {
        self.entries.len()
    }

    /// The place where the entries' bytes end.
    pub fn fill(&self) -> usize
        ensures { result ≡ self.now.fill }
    {
        self.fill
    }

    /// The name of the snapshot that the base image holds.
    pub fn base(&self) -> Name
        ensures { name_of result ≡ self.now.base }
    {
        self.base
    }

    /// The entries in order.
    pub fn entries(&self) -> &[Entry]
        ensures rows { map row_of result.now ≡ self.now.rows }
        ensures laid_out { LaidOut self.now }
    {
        self.entries.as_slice()
    }

    /// Entry i.
    #[tactic(auto, using(std::proofs::lemmas::Grind::common_steps, crate::proofs::EntryRows::inside, crate::proofs::EntryRows::next))]
    pub fn entry(&self, i: usize) -> Entry
        requires { i < length self.now.rows }
        ensures row { row_of result ≡ row_at self.now i }
        ensures inside { result.place + result.length ≤ self.now.fill }
        ensures next { i + 1 < length self.now.rows
            → (row_at self.now (i + 1)).place ≡ result.place + result.length }
        ensures laid_out { LaidOut self.now }
    {
        self.entries[i]
    }

    /// The name that the next stream has to lead from.
    pub fn next_name(&self) -> Name
        ensures { name_of result ≡ next_name self.now }
    {
        last_name(self.base, &self.entries)
    }

    /// Whether the name is the base name or an entry's to name.
    pub fn is_taken(&self, name: &[u8]) -> bool
        ensures { result ≡ is_taken name.now self.now }
    {
        self.base.is(name) || leads_to(&self.entries, name)
    }

    /// Adds a last entry, whose bytes lie at the fill.
    pub fn add(&mut self, byte_count: usize, from: &[u8], to: &[u8])
        requires room { length self.old.rows < «MOST_ENTRIES» }
        requires names { (length from.now ≤ «LONGEST_NAME») × (length to.now ≤ «LONGEST_NAME») }
        requires fits { self.old.fill + byte_count < 2 ^ 64 }
        ensures { self.new ≡ add_row self.old byte_count from.now to.now }
    {
        let entry = Entry {
            place: self.fill,
            length: byte_count,
            from: Name::of(from),
            to: Name::of(to),
        };
        self.append(entry);
    }

    /// Makes entries i and i + 1 one of `byte_count` bytes; the later ones move.
    pub fn unite(&mut self, i: usize, byte_count: usize)
        requires two { i + 1 < length self.old.rows }
        requires fits { (unite_rows self.old i byte_count).fill < 2 ^ 64 }
        ensures { self.new ≡ unite_rows self.old i byte_count }
    {
        let later = self.entries()[i + 1];
        self.take_over(i, byte_count, later.to);
    }

    /// Removes entry 0: its to name becomes the base name, and the later ones move to the front.
    pub fn drop_first(&mut self)
        requires { 0 < length self.old.rows }
        ensures { self.new ≡ drop_row self.old }
    {
        let first = self.entry(0);
        self.drop_for(first.to);
    }

    // Adds an entry, which lies at the fill, as the last one.
    fn append(&mut self, entry: Entry)
        requires room { length self.old.rows < «MOST_ENTRIES» }
        requires place { entry.place ≡ self.old.fill }
        requires fits { self.old.fill + entry.length < 2 ^ 64 }
        ensures { self.new ≡ append_row self.old (row_of entry) }
    {
        self.entries.push(entry);
        self.fill += entry.length;
    }

    // Gives entry i another length and another to name, and removes the entry after it.
    fn take_over(&mut self, i: usize, byte_count: usize, to: Name)
        requires two { i + 1 < length self.old.rows }
        requires fits { (unite_rows self.old i byte_count).fill < 2 ^ 64 }
        ensures { self.new ≡ take_over self.old i byte_count (name_of to) }
    {
        let later = self.entry(i + 1);
        let old = later.place + later.length;
        let entries = self.entries.as_mut_slice();
        let earlier = &mut entries[i];
        let new = earlier.place + byte_count;
        earlier.unite(byte_count, to);
        remove_entry(&mut self.entries, i + 1, old, new);
        self.fill = new + (self.fill - old);
    }

    // Removes entry 0, and gives the base another name.
    fn drop_for(&mut self, base: Name)
        requires { 0 < length self.old.rows }
        ensures { self.new ≡ drop_for self.old (name_of base) }
    {
        let first = self.entry(0);
        let old = first.place + first.length;
        remove_entry(&mut self.entries, 0, old, 0);
        self.base = base;
        self.fill -= old;
    }
}
