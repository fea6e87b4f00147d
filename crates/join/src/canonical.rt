ghost use Rattle.std.specs.Prelude.{◌≡◌, ◌≤◌, length, slice_index};
ghost use Rattle.stream.specs.Bytes.{buffer_with};
ghost use Rattle.stream.specs.Buffers.{written_answer, written_buffer};
ghost use Rattle.stream.specs.Difference.{canonical_bytes};
ghost use Rattle.stream.specs.Meaning.{ranges};
ghost use Rattle.stream.specs.Streams.{stream_cells, stream_difference};
ghost use Rattle.stream.specs.Verdict.{same};
ghost use Rattle.join.specs.Lengths.{stream_length};
ghost use Rattle.join.specs.Orders.{in_order};
ghost use Rattle.join.specs.Parts.{joined_difference};
ghost use Rattle.join.specs.Plans.{plan_of};
ghost use Rattle.fault.specs.declared.layer.Layer.TheVariants as layers;

use crate::parts::JoinedParts;
use crate::plans::{Plan, plan_stream};
use crate::writing::put_stream;
use fault::{Cause, Fault};
use overlay::{RangeMark, Run};
use stream::{HEADER, LONGEST_NAME, MOST_RECORDS, Stream};
use writer::NAME_HEAD;

// What the canonical stream of a stream is made of: its own names, and its own runs as the parts.
fn own_parts<'s, 'r>(stream: Stream<'s, 'r>) -> JoinedParts<'s, 's, 's, 'r>
    ensures difference { joined_difference result ≡ stream_difference stream.entry }
    ensures bytes { stream_length result.from.now result.to.now (ranges (stream_cells stream.entry))
        ≡ length (canonical_bytes (stream_difference stream.entry)) }
{
    JoinedParts {
        from: stream.from,
        to: stream.to,
        earlier: stream.bytes,
        later: stream.bytes,
        sheet: stream.sheet,
    }
}

/// Writes the canonical stream of a stream, of which `records` are the ranges, into the first bytes
/// of `out`. The bytes after it stay.
pub fn write_planned(stream: Stream, records: &[Run<RangeMark>], out: &mut [u8])
    requires ranged { records.now ≡ ranges (stream_cells stream) }
    requires room { length (canonical_bytes (stream_difference stream)) ≤ length out.old }
    ensures { out.new ≡ buffer_with out.old 0 (canonical_bytes (stream_difference stream.entry)) }
{
    put_stream(own_parts(stream), records, out);
}

// Writes the canonical stream of a stream, if there is room for it.
pub(crate) fn write_own(stream: Stream, out: &mut [u8]) -> Result<usize, Fault>
    ensures result { result ≡
        written_answer layers.Stream out.old (canonical_bytes (stream_difference stream.entry)) }
    ensures buffer { out.new ≡
        written_buffer out.old (canonical_bytes (stream_difference stream.entry)) }
{
    let mut ranges = [Run::<RangeMark>::NONE; MOST_RECORDS];
    let plan = plan_stream(stream, &mut ranges);
    if (out.len() as u64) < plan.length {
        return Err(Fault::new(Cause::ShortBuffer, plan.length));
    }
    write_planned(stream, &ranges[..plan.count], out);
    Ok(plan.length as usize)
}

// The byte at a place, and 0 past the end.
fn byte_at(bytes: &[u8], place: usize) -> u8
    ensures { result ≡ slice_index bytes.now place }
{
    bytes.get(place).copied().unwrap_or(0)
}

// Whether the metadata of a stream lie in the canonical order: f, unless the from name is empty, t
// and s.
fn in_order(stream: &[u8], from: &[u8]) -> bool
    requires { length from.now ≤ LONGEST_NAME }
    ensures { result ≡ in_order stream.now from.now }
{
    if from.is_empty() {
        byte_at(stream, HEADER.len()) == b't'
    } else {
        byte_at(stream, HEADER.len()) == b'f'
            && byte_at(stream, HEADER.len() + NAME_HEAD + from.len()) == b't'
    }
}

// A stream is canonical exactly if its metadata lie in order and it has the canonical length.
fn is_own(stream: Stream, canonical_length: u64) -> bool
    requires { canonical_length ≡ length (canonical_bytes (stream_difference stream)) }
    ensures { result ≡
        same (canonical_bytes (stream_difference stream.entry)) stream.entry.bytes.now }
{
    canonical_length == stream.bytes.len() as u64 && in_order(stream.bytes, stream.from)
}

/// Whether a stream is the canonical one of its difference, of which this is the plan. Nothing is
/// written: a stream with records that can be united is longer, and tags show metadata in another
/// order.
pub fn is_canonical(stream: Stream, plan: Plan) -> bool
    requires { plan ≡ plan_of (stream_difference stream) }
    ensures { result ≡
        same (canonical_bytes (stream_difference stream.entry)) stream.entry.bytes.now }
{
    is_own(stream, plan.length)
}
