// Records from a place of the buffer on: each field writer is given the rest from its place.
ghost use Rattle.std.specs.Prelude.{◌≡◌, ◌+◌, ◌≤◌, length};
ghost use Rattle.stream.specs.Bytes.{buffer_with};
ghost use Rattle.stream.specs.Records.{record_bytes, data_at, zeros_at};
ghost use Rattle.writer.specs.Fields.{end_record};
ghost use Rattle.writer.specs.Calls.{place_within};

use crate::fields::{put_bytes, put_range, put_u8};
use fault::{Cause, Fault};
use stream::RANGE_HEAD;

// A place up to which a buffer of `room` bytes reaches, or the fault of a buffer that is too short.
pub(crate) fn reach(room: usize, place: usize) -> Result<usize, Fault>
    ensures { result ≡ place_within room place }
{
    if room < place {
        return Err(Fault::new(Cause::ShortBuffer, place as u64));
    }
    Ok(place)
}

// Writes a record of written bytes.
pub(crate) fn place_data(out: &mut [u8], at: usize, offset: u64, bytes: &[u8])
    requires { at + RANGE_HEAD + length bytes.now ≤ length out.old }
    ensures { out.new ≡ buffer_with out.old at (record_bytes (data_at offset bytes.now)) }
{
    put_range(&mut out[at..], b'w', offset, bytes.len() as u64);
    put_bytes(&mut out[at + RANGE_HEAD..], bytes);
}

// Writes a record of zeros.
pub(crate) fn place_zeros(out: &mut [u8], at: usize, offset: u64, count: u64)
    requires { at + RANGE_HEAD ≤ length out.old }
    ensures { out.new ≡ buffer_with out.old at (record_bytes (zeros_at offset count)) }
{
    put_range(&mut out[at..], b'z', offset, count);
}

// Writes the end record.
pub(crate) fn place_end(out: &mut [u8], at: usize)
    requires { at + 1 ≤ length out.old }
    ensures { out.new ≡ buffer_with out.old at end_record }
{
    put_u8(&mut out[at..], b'e');
}
