ghost use Rattle.std.specs.Prelude.{◌≡◌, ◌+◌, ◌≤◌, map, length};
ghost use Rattle.overlay.specs.declared.ranges.RangeMark.TheVariants.{Written};
ghost use Rattle.overlay.specs.Runs.{run_end, Rising};
ghost use Rattle.stream.specs.Bytes.{buffer_with};
ghost use Rattle.stream.specs.Records.{record_bytes, records_bytes};
ghost use Rattle.stream.specs.Meaning.{ranges};
ghost use Rattle.stream.specs.Difference.{payload_at, content_of, canonical_bytes};
ghost use Rattle.join.specs.Lengths.{record_length, records_length, stream_length};
ghost use Rattle.join.specs.Parts.{PayloadThere, named_bytes, joined_cells, joined_difference, LeftOf, Ranged, AllRanged};

use crate::lengths::record_length;
use crate::parts::JoinedParts;
use overlay::{PayloadMark, RangeMark, Run, Sheet, payload};
use writer::{Heading, RANGE_HEAD, put_bytes, put_range, put_u8};

// Writes the bytes that a state names into the first bytes.
fn put_part(joined: JoinedParts, state: Option<PayloadMark>, count: usize, tail: &mut [u8])
    requires held { PayloadThere joined.earlier.now joined.later.now state count }
    requires room { count ≤ length tail.old }
    ensures { tail.new ≡ buffer_with tail.old 0
        (named_bytes joined.entry.earlier.now joined.entry.later.now state count) }
{
    let Some(mark) = state else { unreachable() };
    let run = Run {
        offset: 0,
        length: count as u64,
        mark,
    };
    let Some((_, bytes)) = payload(joined.earlier, joined.later, run) else {
        unreachable()
    };
    put_bytes(tail, bytes);
}

// Writes the payload of a written range into the first bytes, part by part. No part outside `left`
// reaches the range. Returns the parts that are left after it.
fn put_payload<'r>(
    joined: JoinedParts,
    left: Sheet<'r, PayloadMark>,
    run: Run<RangeMark>,
    tail: &mut [u8],
) -> Sheet<'r, PayloadMark>
    requires left { LeftOf joined.sheet run.offset left }
    requires alike { Ranged joined.sheet.runs.now joined.sheet.size run }
    requires kind { run.mark ≡ Written }
    requires room { run.length ≤ length tail.old }
    ensures left { LeftOf joined.entry.sheet (run_end run) result }
    ensures buffer { tail.new ≡ buffer_with tail.old 0
        (payload_at (joined_cells joined.entry) run.offset run.length) }
{
    let end = run.end();
    let mut rest = left;
    let mut pos = run.offset;
    while pos < end {
        rest = rest.skip(pos);
        let piece = rest.look(pos);
        let stop = piece.stop.min(end);
        let done = (pos - run.offset) as usize;
        put_part(
            joined,
            piece.state,
            (stop - pos) as usize,
            &mut tail[done..],
        );
        pos = stop;
    }
    rest
}

// Writes the record of a range into the first bytes; `left` and the result are as for its payload.
fn put_record<'r>(
    joined: JoinedParts,
    left: Sheet<'r, PayloadMark>,
    run: Run<RangeMark>,
    tail: &mut [u8],
) -> Sheet<'r, PayloadMark>
    requires left { LeftOf joined.sheet run.offset left }
    requires alike { Ranged joined.sheet.runs.now joined.sheet.size run }
    requires room { record_length run ≤ length tail.old }
    ensures left { LeftOf joined.entry.sheet (run_end run) result }
    ensures buffer { tail.new ≡ buffer_with tail.old 0
        (record_bytes (content_of (joined_cells joined.entry) run)) }
{
    match run.mark {
        RangeMark::Zeroed => {
            put_range(tail, b'z', run.offset, run.length);
            left
        }
        RangeMark::Written => {
            put_range(tail, b'w', run.offset, run.length);
            put_payload(joined, left, run, &mut tail[RANGE_HEAD..])
        }
    }
}

// Writes the records of ranges from `start` on, and returns where they end.
fn put_records(
    joined: JoinedParts,
    records: &[Run<RangeMark>],
    out: &mut [u8],
    start: usize,
) -> usize
    requires rising { Rising 0 records.now joined.sheet.size }
    requires alike { AllRanged joined.sheet.runs.now joined.sheet.size records.now }
    requires room { start + records_length records.now ≤ length out.old }
    ensures end { result ≡ start + records_length records.now }
    ensures buffer { out.new ≡ buffer_with out.old start
        (records_bytes (map (content_of (joined_cells joined.entry)) records.now)) }
{
    let mut at = start;
    let mut left = joined.sheet;
    for run in records {
        left = put_record(joined, left, *run, &mut out[at..]);
        at += record_length(*run) as usize;
    }
    at
}

// Writes the canonical stream of a difference, of which `records` are the ranges, into the first
// bytes of `out`.
pub(crate) fn put_stream(joined: JoinedParts, records: &[Run<RangeMark>], out: &mut [u8])
    requires ranged { records.now ≡ ranges (joined_cells joined) }
    requires room { stream_length joined.from.now joined.to.now records.now ≤ length out.old }
    ensures { out.new ≡ buffer_with out.old 0 (canonical_bytes (joined_difference joined.entry)) }
{
    let heading = Heading {
        from: joined.from,
        to: joined.to,
        size: joined.sheet.size,
    };
    heading.put(out);
    let end = put_records(joined, records, out, heading.length());
    put_u8(&mut out[end..], b'e');
}
