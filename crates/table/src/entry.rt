use crate::name::Name;

/// One entry of a shelf: the place of its first byte, its length in bytes, and the names of the
/// snapshots that it leads from and to.
#[derive(Clone, Copy, Default)]
pub struct Entry {
    pub place: usize,
    pub length: usize,
    pub from: Name,
    pub to: Name,
}

impl Entry {
    ghost use Rattle.std.specs.Prelude.{◌≡◌};
    ghost use Rattle.table.specs.Entries.{united_entry, moved_entry, CanMove};

    // The entry of a joined stream: another length, and another to name.
    pub(crate) fn unite(&mut self, byte_count: usize, to: Name)
        ensures { self.new ≡ united_entry byte_count to self.old }
    {
        self.length = byte_count;
        self.to = to;
    }

    // The bytes after an old place moved to a new one, and the entry with them.
    pub(crate) fn shift(&mut self, old: usize, new: usize)
        requires { CanMove old new self.old }
        ensures { self.new ≡ moved_entry old new self.old }
    {
        self.place = new + (self.place - old);
    }
}
