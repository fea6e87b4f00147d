// The list of a stream: its canonical ranges as lines of text.
#![tactic(auto)]

ghost use Rattle.std.specs.Prelude.{◌≡◌};
ghost use Rattle.fault.specs.declared.layer.Layer.TheVariants as layers;
ghost use Rattle.stream.specs.Buffers.{written_answer, written_buffer, written_buffer_by};
ghost use Rattle.stream.specs.Meaning.{ranges};
ghost use Rattle.stream.specs.Streams.{stream_cells};
ghost use Rattle.listing.specs.Laws.{RangesAreLongest, BlindToPayload};
ghost use Rattle.listing.specs.Lists.{stream_text, stream_list_answer};
ghost use Rattle.listing.specs.Text.{listing};

use fault::Fault;
use overlay::{RangeMark, Run, Side, laws_of_runs};
use stream::{MOST_RECORDS, RunBuffer, Stream, find_ranges};

mod text;

pub use text::{text_length, write_text};

// Writes the ranges of a stream that was read.
#[tactic(auto, using(stream::proofs::StreamFacts::few_runs, stream::proofs::StreamFacts::cells_ranges))]
fn write_ranges(stream: Stream, text: &mut [u8]) -> Result<usize, Fault>
    ensures result { result ≡
        written_answer layers.Stream text.old (listing (ranges (stream_cells stream.entry))) }
    ensures buffer { text.new ≡
        written_buffer text.old (listing (ranges (stream_cells stream.entry))) }
{
    let mut ranges = [Run::<RangeMark>::NONE; MOST_RECORDS];
    let count = find_ranges(stream.sheet, &mut ranges);
    write_text(&ranges[..count], text)
}

/// Writes the list of a stream's ranges into the first bytes of `text`, and returns how many bytes
/// that took. Refused for what is wrong with the stream, and then for a buffer that is too short.
/// The bytes after the text stay, and all of the buffer after a refusal.
#[tactic(auto, using(stream::proofs::StreamFacts::ranges_meant))]
pub fn list(stream: &[u8], text: &mut [u8]) -> Result<usize, Fault>
    ensures result { result ≡ stream_list_answer stream.now text.old }
    ensures buffer { text.new ≡ written_buffer_by (stream_text stream.now) text.old }
{
    let mut buffer = RunBuffer::new();
    let stream = Stream::read(stream, Side::Later, &mut buffer)?;
    write_ranges(stream, text)
}

/// The laws of lists.
/// - Longest: the ranges of a difference are its longest runs of zeroed or of written positions, in
///   rising order.
/// - Blind: two streams that differ only in payload bytes have the same list or the same fault; so
///   have two whose next record is refused or cut off.
pub fn laws_of_lists()
    ensures longest { RangesAreLongest }
    ensures blind { BlindToPayload }
{
    laws_of_runs::<RangeMark>();
}
