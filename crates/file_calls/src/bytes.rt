// What a program makes of the bytes of files, in memory. What goes in stands in fields, so that
// no call can take one stream for another, or a name for a stream.
ghost use Rattle.std.specs.Prelude.{◌≡◌, ◌^◌, ◌<◌, ◌≤◌, Ok, IfOk, IfErr, length};
ghost use Rattle.apply.specs.Applies.{StoreOutcome, apply_answer};
ghost use Rattle.join.specs.Joins.{joined_stream};
ghost use Rattle.listing.specs.Lists.{stream_text};
ghost use Rattle.listing.specs.Text.{listing};
ghost use Rattle.file_calls.specs.Calls.{memory_room, memory_outcome, grown_outcome, file_outcome};
ghost use Rattle.file_calls.specs.Calls.{to_name_of, RefusedAs, MemoryApplied, Applied};

use crate::call_error::CallError;
use apply::{apply_stream, read_from};
use fault::Fault;
use join::{join, joined_length};
use listing::{text_length, write_text};
use overlay::{RangeMark, Run, Side};
use std::alloc::Global;
use store::{FlatImage, LIMIT, Store};
use stream::{MOST_RECORDS, RunBuffer, Stream, find_ranges};

/// The most bytes that are held in memory for one file.
pub const MOST_BYTES: u64 = 1 << 32;

// The text of ranges.
fn ranges_text(heap: Global, ranges: &[Run<RangeMark>]) -> Result<Vec<u8>, CallError>
    requires { length ranges.now ≤ «MOST_RECORDS» }
    ensures text { IfOk result (λ text. text.items ≡ listing ranges.now) }
    ensures refused { IfErr result (λ error. RefusedAs error (Ok (listing ranges.now))) }
{
    let mut text = vec![in heap; 0u8; text_length(ranges)]?;
    write_text(ranges, &mut text)?;
    Ok(text)
}

/// The list of a stream.
#[tactic(auto, using(stream::proofs::StreamFacts::few_runs, stream::proofs::StreamFacts::cells_ranges, stream::proofs::StreamFacts::ranges_meant))]
pub fn list_text(heap: Global, stream: &[u8]) -> Result<Vec<u8>, CallError>
    ensures text { IfOk result (λ text. stream_text stream.now ≡ Ok text.items) }
    ensures refused { IfErr result (λ error. RefusedAs error (stream_text stream.now)) }
{
    let mut buffer = RunBuffer::new();
    let stream = Stream::read(stream, Side::Later, &mut buffer)?;
    let mut ranges = [Run::<RangeMark>::NONE; MOST_RECORDS];
    let count = find_ranges(stream.sheet, &mut ranges);
    ranges_text(heap, &ranges[..count])
}

/// The bytes of two streams that are to be joined.
#[derive(Clone, Copy)]
pub struct JoinBytes<'a> {
    pub earlier: &'a [u8],
    pub later: &'a [u8],
}

impl<'a> JoinBytes<'a> {
    /// The bytes of the joined stream.
    pub fn joined(self, heap: Global) -> Result<Vec<u8>, CallError>
        ensures bytes { IfOk result
            (λ joined. joined_stream self.entry.earlier.now self.entry.later.now ≡ Ok joined.items) }
        ensures refused { IfErr result
            (λ error. RefusedAs error (joined_stream self.entry.earlier.now self.entry.later.now)) }
    {
        let length = joined_length(self.earlier, self.later)?;
        let mut joined = vec![in heap; 0u8; length as usize]?;
        join(self.earlier, self.later, &mut joined)?;
        Ok(joined)
    }
}

// How much memory an image gets: enough for its size before and after. A size above the most that a
// file may have gets nothing on top, and then the apply refuses it.
fn room_for(before: u64, after: u64) -> u64
    ensures exact { result ≡ memory_room before after }
    ensures kept { before ≤ result }
    ensures grown { after ≤ 2 ^ 32 → after ≤ result }
    ensures refused { 2 ^ 32 < after → result ≡ before }
{
    if after > MOST_BYTES {
        before
    } else {
        before.max(after)
    }
}

// Applies a stream that was read to an image, under the name that it leads from.
#[tactic(auto, using(crate::proofs::Readings::answer_read))]
fn apply_own<S: Store>(stream: Stream, store: &mut S) -> Result<(), Fault>
    ensures { StoreOutcome
        (apply_answer (S.holds store.old) (S.image store.old) stream.entry.from.now
        stream.entry.bytes.now)
        result S.image S.holds S.past store.old store.new }
{
    apply_stream(stream, store)
}

// Applies a stream that was read to the image that the memory's first `before` bytes are: the
// answer, and the image's size afterwards, also where the apply is refused.
fn apply_in(stream: Stream, memory: &mut [u8], before: usize) -> (Result<(), Fault>, usize)
    requires inside { before ≤ length memory.old }
    requires few { length memory.old ≤ LIMIT }
    ensures { MemoryApplied result memory.old memory.new
        (memory_outcome memory.old before stream.entry.from.now stream.entry.bytes.now) }
{
    let mut image = FlatImage::open(memory, before as u64);
    let answer = apply_own(stream, &mut image);
    let after = image.size() as usize;
    (answer, after)
}

// Applies a stream that was read to the image that these bytes are, in memory that grows for it
// first, and returns the name that the image then has.
#[tactic(auto, using(crate::proofs::Readings::stream_to))]
fn apply_grown<'s>(stream: Stream<'s, '_>, bytes: &mut Vec<u8>) -> Result<&'s [u8], CallError>
    requires { length bytes.old.items ≤ «MOST_BYTES» }
    ensures name { IfOk result (λ to. to_name_of stream.entry.bytes.now ≡ Ok to.now) }
    ensures image { Applied result bytes.old.items bytes.new.items
        (grown_outcome bytes.old.items stream.entry.sheet.size stream.entry.from.now
        stream.entry.bytes.now) }
{
    let before = bytes.len();
    bytes.resize(room_for(before as u64, stream.sheet.size) as usize, 0)?;
    let (answer, after) = apply_in(stream, bytes, before);
    bytes.truncate(after);
    answer?;
    Ok(stream.to)
}

/// A stream with the name of the image that it is to be applied to.
#[derive(Clone, Copy)]
pub struct ApplyBytes<'a> {
    pub stream: &'a [u8],
    pub name: &'a [u8],
}

impl<'a> ApplyBytes<'a> {
    /// Applies the stream to the image that these bytes are, in memory that grows for it first, and
    /// returns the name that the image then has. The bytes are the image afterwards, also where the
    /// apply is refused: a refused stream, or one that leads from another name, leaves them as they
    /// were. The stream is read once.
    #[tactic(auto, using(crate::proofs::Readings::file_is))]
    pub fn apply(self, bytes: &mut Vec<u8>) -> Result<&'a [u8], CallError>
        requires { length bytes.old.items ≤ «MOST_BYTES» }
        ensures name { IfOk result (λ to. to_name_of self.entry.stream.now ≡ Ok to.now) }
        ensures image { Applied result bytes.old.items bytes.new.items
            (file_outcome bytes.old.items self.entry.name.now self.entry.stream.now) }
    {
        let mut buffer = RunBuffer::new();
        let stream = read_from(self.stream, self.name, &mut buffer)?;
        apply_grown(stream, bytes)
    }
}
