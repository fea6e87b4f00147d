ghost use Rattle.std.specs.Prelude.{◌≡◌, [], ◌∷◌};
ghost use Rattle.apply.specs.Applies.{StoreOutcome, outcome_in_record};
ghost use Rattle.apply.specs.Inside.{OnlyInside};
ghost use Rattle.apply.specs.Read.{PayloadLies, parts_outcome, range_outcome, ranges_outcome};
ghost use Rattle.overlay.specs.Runs.{Rising};
ghost use Rattle.store.specs.Stores.{resize_outcome};

use crate::parts::StreamParts;
use fault::{Fault, Located};
use overlay::{PayloadMark, RangeMark, Run, payload};
use store::Store;

// Resizes the image: record 0.
pub(crate) fn resize_first<S: Store>(size: u64, store: &mut S) -> Result<(), Fault>
    ensures { StoreOutcome
        (outcome_in_record 0 (resize_outcome (S.holds store.old) (S.image store.old) size))
        result S.image S.holds S.past store.old store.new }
{
    store.resize(size).in_record(0)
}

// Writes the payload of a part; a zeroed part has none.
fn write_part<S: Store>(
    stream: &[u8],
    part: Run<PayloadMark>,
    record: u64,
    store: &mut S,
) -> Result<(), Fault>
    requires { PayloadLies stream.now part }
    ensures same { S.holds store.new ≡ S.holds store.old }
    ensures outcome { (result, S.image store.new) ≡ parts_outcome (S.holds store.old)
        (S.image store.old) «record» stream.now (part ∷ []) }
    ensures inside { OnlyInside S.image S.past store.old store.new }
{
    let Some((_, bytes)) = payload(stream, stream, part) else {
        return Ok(());
    };
    store.write(part.offset, bytes).in_record(record)
}

// Writes the payloads of a stream's parts in turn.
fn write_parts<S: Store>(stream: StreamParts, record: u64, store: &mut S) -> Result<(), Fault>
    ensures same { S.holds store.new ≡ S.holds store.old }
    ensures outcome { (result, S.image store.new) ≡ parts_outcome (S.holds store.old)
        (S.image store.old) «record» stream.entry.bytes.now stream.entry.sheet.runs.now }
    ensures inside { OnlyInside S.image S.past store.old store.new }
{
    for part in stream.sheet.runs {
        write_part(stream.bytes, *part, record, store)?;
    }
    Ok(())
}

// Zeroes a range as a whole, or writes it part by part; the stream's parts are those that begin
// inside it.
fn apply_range<S: Store>(
    stream: StreamParts,
    range: Run<RangeMark>,
    record: u64,
    store: &mut S,
) -> Result<(), Fault>
    ensures same { S.holds store.new ≡ S.holds store.old }
    ensures outcome { (result, S.image store.new) ≡ range_outcome (S.holds store.old)
        (S.image store.old) «record» range stream.entry.bytes.now stream.entry.sheet.runs.now }
    ensures inside { OnlyInside S.image S.past store.old store.new }
{
    match range.mark {
        RangeMark::Zeroed => store.zero(range.offset, range.length).in_record(record),
        RangeMark::Written => write_parts(stream, record, store),
    }
}

// Applies ranges in turn, numbered from 1. Ranges and parts rise, so the parts that begin inside a
// range come after those that begin inside the range before it.
pub(crate) fn apply_ranges<S: Store>(
    stream: StreamParts,
    ranges: &[Run<RangeMark>],
    store: &mut S,
) -> Result<(), Fault>
    requires { Rising 0 ranges.now stream.sheet.size }
    ensures same { S.holds store.new ≡ S.holds store.old }
    ensures outcome { (result, S.image store.new) ≡ ranges_outcome (S.holds store.old)
        (S.image store.old) stream.entry.bytes.now stream.entry.sheet.runs.now ranges.now }
    ensures inside { OnlyInside S.image S.past store.old store.new }
{
    let mut left = stream;
    for (i, range) in ranges.iter().enumerate() {
        let (_, begun) = left.split_before(range.offset);
        let (inside, rest) = begun.split_before(range.end());
        apply_range(inside, *range, i as u64 + 1, store)?;
        left = rest;
    }
    Ok(())
}
