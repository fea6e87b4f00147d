ghost use Rattle.std.specs.Prelude.{◌≡◌, ◌≤◌, length, decimal, min};
ghost use Rattle.fault.specs.declared.layer.Layer.TheVariants.{Stream};
ghost use Rattle.stream.specs.Buffers.{written_answer, written_buffer};
ghost use Rattle.stream.specs.declared.limits.TheConstants.{MOST_RECORDS};
ghost use Rattle.stream.specs.Bytes.{buffer_with};
ghost use Rattle.listing.specs.Text.{line_end, line, listing, most_bytes};

use fault::{Cause, Fault};
use itoa::write_digits;
use overlay::{RangeMark, Run};
use writer::{put_bytes, put_u8};

// The first line.
const HEADING: &[u8] = b"offset length kind\n";

// The end of each line: a space, a kind of four letters, and a line feed.
const LINE_END: usize = 6;

// The most digits that a number of 64 bits has.
const MOST_DIGITS: usize = 20;

// The most bytes that a line takes: two numbers, a space, and the end of the line.
const LONGEST_LINE: usize = MOST_DIGITS + 1 + MOST_DIGITS + LINE_END;

// The number of digits of a number in decimal.
#[tactic(auto, using(crate::proofs::Digits::length_decimal, itoa::proofs::Decimal::length_one))]
fn digits(n: u64) -> usize
    ensures exact { result ≡ length (decimal n) }
    ensures few { result ≤ MOST_DIGITS }
{
    match n.checked_ilog10() {
        None => 1,
        Some(log) => log as usize + 1,
    }
}

// Writes a number into the first bytes, and returns how many it took. A caller that does not know
// its length gives room for the longest.
fn put_number(tail: &mut [u8], n: u64) -> usize
    requires { min (length (decimal n)) MOST_DIGITS ≤ length tail.old }
    ensures taken { result ≡ length (decimal n) }
    ensures few { result ≤ MOST_DIGITS }
    ensures buffer { tail.new ≡ buffer_with tail.old 0 (decimal n) }
{
    let count = digits(n);
    write_digits(n, tail, count);
    count
}

// Writes the rest of a line after its numbers: a space, the kind, and the line's end.
fn put_kind(tail: &mut [u8], mark: RangeMark)
    requires { LINE_END ≤ length tail.old }
    ensures { tail.new ≡ buffer_with tail.old 0 (line_end mark) }
{
    match mark {
        RangeMark::Zeroed => put_bytes(tail, b" zero\n"),
        RangeMark::Written => put_bytes(tail, b" data\n"),
    }
}

// The length of a range's line: two numbers, a space, and the end of the line.
fn line_length(run: Run<RangeMark>) -> usize
    ensures exact { result ≡ length (line run) }
    ensures short { result ≤ LONGEST_LINE }
{
    digits(run.offset) + 1 + digits(run.length) + LINE_END
}

// Writes a range's line into the first bytes, and returns how many it took. A caller that does not
// know its length gives room for the longest.
fn put_line(tail: &mut [u8], run: Run<RangeMark>) -> usize
    requires { min (length (line run)) LONGEST_LINE ≤ length tail.old }
    ensures taken { result ≡ length (line run) }
    ensures short { result ≤ LONGEST_LINE }
    ensures buffer { tail.new ≡ buffer_with tail.old 0 (line run) }
{
    let space = put_number(tail, run.offset);
    put_u8(&mut tail[space..], b' ');
    let at = space + 1;
    let kind = at + put_number(&mut tail[at..], run.length);
    put_kind(&mut tail[kind..], run.mark);
    kind + LINE_END
}

/// The length of the text of ranges.
pub fn text_length(ranges: &[Run<RangeMark>]) -> usize
    requires { length ranges.now ≤ MOST_RECORDS }
    ensures { result ≡ length (listing ranges.now) }
{
    let mut total = HEADING.len();
    for run in ranges {
        total += line_length(*run);
    }
    total
}

// Writes the text into the first bytes of a buffer, and returns its length. A caller that does not
// know its length gives room for the longest of as many ranges.
fn put_text(out: &mut [u8], ranges: &[Run<RangeMark>]) -> usize
    requires { min (length (listing ranges.now)) (most_bytes (length ranges.now)) ≤ length out.old }
    ensures taken { result ≡ length (listing ranges.now) }
    ensures buffer { out.new ≡ buffer_with out.old 0 (listing ranges.now) }
{
    put_bytes(out, HEADING);
    let mut at = HEADING.len();
    for run in ranges {
        at += put_line(&mut out[at..], *run);
    }
    at
}

/// Writes the text of ranges into the first bytes of a buffer, and returns its length. Refused
/// where the buffer is too short, with the length needed as the place.
pub fn write_text(ranges: &[Run<RangeMark>], out: &mut [u8]) -> Result<usize, Fault>
    requires { length ranges.now ≤ MOST_RECORDS }
    ensures result { result ≡ written_answer Stream out.old (listing ranges.now) }
    ensures buffer { out.new ≡ written_buffer out.old (listing ranges.now) }
{
    // Only a buffer that may be too short needs the length before the text is written.
    if out.len() < HEADING.len() + LONGEST_LINE * ranges.len() {
        let needed = text_length(ranges);
        if out.len() < needed {
            return Err(Fault::new(Cause::ShortBuffer, needed as u64));
        }
    }
    Ok(put_text(out, ranges))
}
