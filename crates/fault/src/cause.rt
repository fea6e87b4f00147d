ghost use Rattle.std.specs.Prelude.{◌≡◌, Some};

use crate::layer::Layer;
use std::fmt;

/// Why a call is refused. docs/REFUSALS.md has the layer and the place of each.
#[derive(Clone, Copy, PartialEq, Eq, Debug)]
pub enum Cause {
    // the beginning of a stream, and where it ends too soon
    /// the stream does not begin with the header
    Header = 1,
    /// the stream ends inside a record, or before its end record
    Cut = 2,

    // the tags of the records, and their order
    /// a record begins with a byte that is no tag
    UnknownTag = 3,
    /// metadata after data, or a second of its kind
    Misplaced = 4,
    /// data or the end while the to name or the size is missing
    Incomplete = 5,

    // what a record says
    /// a name that is too long, empty, or has other than printable bytes
    BadName = 6,
    /// a size above 2^40
    TooLarge = 7,
    /// a range of length 0, or one that passes the size
    BadRange = 8,
    /// a data record that begins before the end of the one before it
    Overlap = 9,

    // how many data records there are, and what follows the end
    /// data record 513
    TooManyRecords = 10,
    /// bytes after the end record
    Trailing = 11,

    // a join, and the buffer of any call that writes
    /// a difference does not lead from the name that it has to meet
    NamesDiffer = 12,
    /// the result would have more than 512 canonical records
    TooManyRanges = 13,
    /// a buffer is too short
    ShortBuffer = 14,

    // a store
    /// a range passes the end of the image
    Outside = 15,
    /// the store cannot hold the resulting image
    NoRoom = 16,

    // the shelf
    /// the shelf has 64 entries already
    ShelfFull = 17,
    /// no such entry on the shelf, or none after it to join
    NoEntry = 18,
    /// the to name is the base name or an entry's to name
    NameTaken = 19,
    /// the shelf's bytes end before the fill, or an entry is not canonical or has other names than
    /// its row
    Damaged = 20,
}

impl Cause {
    ghost use Rattle.fault.specs.Fault.{cause_number, layer_of, place_of};
    ghost use Rattle.fault.specs.Words.{cause_words};

    /// The cause's number, 1 to 20, as the calls for C return it and as it is printed.
    pub fn number(self) -> u64
        ensures { result ≡ cause_number self }
    {
        self as u64
    }

    // The layer that gives the cause, unless the call names another one.
    pub(crate) fn layer(self) -> Layer
        ensures { result ≡ layer_of self }
    {
        match self {
            Cause::NamesDiffer | Cause::TooManyRanges => Layer::Join,
            Cause::Outside | Cause::NoRoom => Layer::Store,
            Cause::ShelfFull | Cause::NoEntry | Cause::NameTaken | Cause::Damaged => Layer::Shelf,
            _ => Layer::Stream,
        }
    }

    // The place of a fault of this cause, where `at` is the number at hand.
    pub(crate) fn place(self, at: u64) -> u64
        ensures { result ≡ place_of self at }
    {
        match self {
            Cause::Header | Cause::NamesDiffer | Cause::TooManyRanges => 0,
            Cause::ShelfFull | Cause::NameTaken | Cause::Damaged => 0,
            _ => at,
        }
    }

    // The cause in a few words.
    fn words(self) -> &'static str
        ensures { result.now ≡ cause_words self }
    {
        match self {
            Cause::Header => "no stream: the header is missing",
            Cause::Cut => "the stream is cut off",
            Cause::UnknownTag => "unknown tag",
            Cause::Misplaced => "metadata out of place",
            Cause::Incomplete => "the to name or the size is missing",
            Cause::BadName => "bad name",
            Cause::TooLarge => "the size is above 2^40",
            Cause::BadRange => "the range is empty or passes the size",
            Cause::Overlap => "the range begins before the end of the one before it",
            Cause::TooManyRecords => "more than 512 data records",
            Cause::Trailing => "bytes after the end",
            Cause::NamesDiffer => "the names do not meet",
            Cause::TooManyRanges => "more than 512 canonical records",
            Cause::ShortBuffer => "the buffer is too short",
            Cause::Outside => "outside the image",
            Cause::NoRoom => "the store cannot hold the result",
            Cause::ShelfFull => "the shelf is full",
            Cause::NoEntry => "no such entry",
            Cause::NameTaken => "the name is taken",
            Cause::Damaged => "the shelf's bytes are damaged",
        }
    }
}

// By hand: a derive would promise nothing of what it prints.
impl fmt::Display for Cause {
    ghost use Rattle.fault.specs.Words.{cause_words};

    ghost output = { λ c. Some (cause_words c) };

    fn fmt<W: fmt::Write>(&self, f: &mut fmt::Formatter<W>) -> fmt::Result {
        f.write_str(self.words())
    }
}
