ghost use Rattle.std.specs.Prelude.{◌≡◌, ◌≤◌, take};
ghost use Rattle.apply.specs.Read.{ReadsFrom};
ghost use Rattle.overlay.specs.Runs.{Rising};
ghost use Rattle.stream.specs.Parts.{part_ranges};
ghost use Rattle.stream.specs.Verdict.{same};

use crate::parts::StreamParts;
use fault::{Cause, Fault};
use overlay::Side;
use stream::{MOST_RECORDS, Ranges, RunBuffer, Stream, find_ranges};

// Finds the ranges that the parts of a stream come to, in rising order, and counts them.
pub(crate) fn rising_ranges(stream: StreamParts, out: &mut Ranges) -> usize
    ensures within { result ≤ MOST_RECORDS }
    ensures rising { Rising 0 (take result out.new) stream.entry.sheet.size }
    ensures ranges { take result out.new ≡
        part_ranges stream.entry.sheet.runs.now stream.entry.sheet.size }
{
    find_ranges(stream.sheet, out)
}

// Whether a stream leads from a name.
fn leads_from(stream: Stream, name: &[u8]) -> bool
    ensures { result ≡ same stream.entry.from.now name.now }
{
    stream.from == name
}

// The reading and the comparison of names.
fn read_led<'s, 'r>(
    bytes: &'s [u8],
    name: &[u8],
    buffer: &'r mut RunBuffer,
) -> Result<Stream<'s, 'r>, Fault>
    ensures { ReadsFrom name.now bytes.now result }
{
    let stream = Stream::read(bytes, Side::Later, buffer)?;
    if !leads_from(stream, name) {
        return Err(Fault::new(Cause::NamesDiffer, 0));
    }
    Ok(stream)
}

/// Reads a stream that is to be applied to an image whose present name is `name`. It is refused if
/// the stream has a fault, then (12) if it leads from another name.
pub fn read_from<'s, 'r>(
    bytes: &'s [u8],
    name: &[u8],
    buffer: &'r mut RunBuffer,
) -> Result<Stream<'s, 'r>, Fault>
    ensures { ReadsFrom name.now bytes.now result }
{
    read_led(bytes, name, buffer)
}
