// What a join and a settle do to a shelf, its table and its bytes, once their stream is there.
ghost use Rattle.std.specs.Prelude.{◌≡◌, ◌+◌, ◌<◌, ◌≤◌, [], length};
ghost use Rattle.shelf.specs.Entries.{bytes_with};
ghost use Rattle.shelf.specs.Outcomes.{united_fill, united_bytes};
ghost use Rattle.table.specs.Tables.{end_of, row_at, fill_after, unite_rows, drop_row};

use table::EntryTable;

// Puts `new` in the place of the bytes from `start` up to `end`; the bytes after those, up to the
// fill, follow. Bytes past the new fill are as they were.
pub(crate) fn replace(bytes: &mut [u8], fill: usize, start: usize, end: usize, new: &[u8])
    requires ordered { (start ≤ end) × (end ≤ fill) }
    requires reaches { fill ≤ length bytes.old }
    requires room { fill_after fill start end (length new.now) ≤ length bytes.old }
    ensures { bytes.new ≡ bytes_with fill bytes.old start end new.now }
{
    let next = start + new.len();
    bytes.copy_within(end..fill, next);
    bytes[start..next].copy_from_slice(new);
}

// Entries i and i + 1 become one: `joined` takes the place of their streams.
pub(crate) fn unite_entries(table: &mut EntryTable, bytes: &mut [u8], i: usize, joined: &[u8])
    requires two { i + 1 < length table.old.rows }
    requires reaches { table.old.fill ≤ length bytes.old }
    requires room { united_fill table.old i (length joined.now) ≤ length bytes.old }
    ensures table { table.new ≡ unite_rows table.old i (length joined.now) }
    ensures bytes { bytes.new ≡ united_bytes table.old bytes.old i joined.now }
{
    let earlier = table.entry(i);
    let later = table.entry(i + 1);
    let end = later.place + later.length;
    replace(bytes, table.fill(), earlier.place, end, joined);
    table.unite(i, joined.len());
}

// Entry 0 leaves, and the others move to the front.
pub(crate) fn drop_entry(table: &mut EntryTable, bytes: &mut [u8])
    requires one { 0 < length table.old.rows }
    requires reaches { table.old.fill ≤ length bytes.old }
    ensures table { table.new ≡ drop_row table.old }
    ensures bytes { bytes.new
        ≡ bytes_with table.old.fill bytes.old 0 (end_of (row_at table.old 0)) [] }
{
    let first = table.entry(0);
    replace(bytes, table.fill(), 0, first.place + first.length, &[]);
    table.drop_first();
}
