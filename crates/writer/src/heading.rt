// What stands before the data records of a stream: the header, the names and the size.
ghost use Rattle.std.specs.Prelude.{◌≡◌, ◌+◌, ◌≤◌, length};
ghost use Rattle.stream.specs.declared.limits.TheConstants.{LONGEST_NAME};
ghost use Rattle.stream.specs.Bytes.{buffer_with};
ghost use Rattle.stream.specs.Records.{records_bytes, from_records};
ghost use Rattle.writer.specs.Fields.{opening};

use crate::fields::{put_bytes, put_name, put_u8};
use stream::{HEADER, LONGEST_NAME, NAME_HEAD, SIZE_HEAD};

/// The length of the longest header, names and size.
pub const LONGEST_OPENING: usize = HEADER.len() + 2 * (NAME_HEAD + LONGEST_NAME) + SIZE_HEAD;

/// The names of the two snapshots, and the image's size. The from name is empty where the stream
/// leads from the state before the first snapshot.
#[derive(Clone, Copy)]
pub struct Heading<'a> {
    pub from: &'a [u8],
    pub to: &'a [u8],
    pub size: u64,
    // so that no sum of their lengths overflows
    pub ghost short_from: { length from.now ≤ LONGEST_NAME },
    pub ghost short_to: { length to.now ≤ LONGEST_NAME },
}

// The bytes that the from name's record takes: none where the name is empty.
fn from_length(from: &[u8]) -> usize
    requires { length from.now ≤ LONGEST_NAME }
    ensures exact { result ≡ length (records_bytes (from_records from.now)) }
    ensures short { result ≤ NAME_HEAD + LONGEST_NAME }
{
    if from.is_empty() {
        return 0;
    }
    NAME_HEAD + from.len()
}

// Writes the from name unless it is empty.
fn put_from(tail: &mut [u8], from: &[u8])
    requires short { length from.now ≤ LONGEST_NAME }
    requires room { length (records_bytes (from_records from.now)) ≤ length tail.old }
    ensures { tail.new ≡ buffer_with tail.old 0 (records_bytes (from_records from.now)) }
{
    if !from.is_empty() {
        put_name(tail, b'f', from);
    }
}

// Writes the header, f unless the from name is empty, t and s. Each is given the rest of the slice
// from where the last one ended.
#[tactic(auto, using(crate::proofs::StreamHead::length_opening))]
fn put_opening(tail: &mut [u8], from: &[u8], to: &[u8], size: u64)
    requires short_from { length from.now ≤ LONGEST_NAME }
    requires short_to { length to.now ≤ LONGEST_NAME }
    requires room { length (opening from.now to.now size) ≤ length tail.old }
    ensures { tail.new ≡ buffer_with tail.old 0 (opening from.now to.now size) }
{
    put_bytes(tail, HEADER);
    put_from(&mut tail[HEADER.len()..], from);
    let at = HEADER.len() + from_length(from);
    put_name(&mut tail[at..], b't', to);
    let at = at + NAME_HEAD + to.len();
    put_u8(&mut tail[at..], b's');
    put_bytes(&mut tail[at + 1..], &size.to_le_bytes());
}

impl<'a> Heading<'a> {
    ghost use Rattle.writer.specs.Calls.{opening_of};

    /// The bytes that header, names and size take.
    #[tactic(auto, using(crate::proofs::StreamHead::length_opening))]
    pub fn length(self) -> usize
        ensures exact { result ≡ length (opening_of self.entry) }
        ensures short { result ≤ LONGEST_OPENING }
    {
        HEADER.len() + from_length(self.from) + NAME_HEAD + self.to.len() + SIZE_HEAD
    }

    /// Writes the header, f unless the from name is empty, t and s, at the beginning of a slice.
    pub fn put(self, tail: &mut [u8])
        requires { length (opening_of self) ≤ length tail.old }
        ensures { tail.new ≡ buffer_with tail.old 0 (opening_of self.entry) }
    {
        put_opening(tail, self.from, self.to, self.size);
    }
}
