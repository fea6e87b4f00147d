ghost use Rattle.std.specs.Prelude.{◌≡◌, ◌+◌, ◌++◌, ◌<◌, length, map, take, drop};
ghost use Rattle.table.specs.Entries.{row_of, moved_entry, Movable};
ghost use Rattle.table.specs.Names.{name_of};
ghost use Rattle.table.specs.Tables.{last_name, leads_to};

use crate::entry::Entry;
use crate::name::Name;
use crate::table::MOST_ENTRIES;
use arrayvec::ArrayVec;

// Whether an entry leads to the name.
pub(crate) fn leads_to(entries: &[Entry], name: &[u8]) -> bool
    ensures { result ≡ leads_to name.now (map row_of entries.now) }
{
    entries.iter().any(|entry| entry.to.is(name))
}

// The last entry's to name, or the base name where there is no entry.
pub(crate) fn last_name(base: Name, entries: &[Entry]) -> Name
    ensures { name_of result ≡ last_name (name_of base) (map row_of entries.now) }
{
    entries.last().map_or(base, |last| last.to)
}

// Moves entries together with the bytes after an old place, which now begin at a new one.
fn shift_all(entries: &mut [Entry], old: usize, new: usize)
    requires { Movable old new entries.old }
    ensures { entries.new ≡ map (moved_entry old new) entries.old }
{
    for entry in entries.iter_mut() {
        entry.shift(old, new);
    }
}

// Removes entry k, and moves those after it together with the bytes after an old place.
pub(crate) fn remove_entry(
    entries: &mut ArrayVec<Entry, MOST_ENTRIES>,
    k: usize,
    old: usize,
    new: usize,
)
    requires there { k < length entries.old.items }
    requires movable { Movable old new (drop (k + 1) entries.old.items) }
    ensures { entries.new.items
        ≡ take k entries.old.items ++ map (moved_entry old new) (drop (k + 1) entries.old.items) }
{
    entries.remove(k);
    let slots = entries.as_mut_slice();
    shift_all(&mut slots[k..], old, new);
}
