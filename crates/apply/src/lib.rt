// Applying a stream to an image, in any store: the image is resized, and then takes the stream's
// canonical records in turn.
#![tactic(auto)]

ghost use Rattle.apply.specs.Applies.{StoreOutcome, apply_steps, apply_read, apply_answer};
ghost use Rattle.apply.specs.Read.{part_steps};
ghost use Rattle.apply.specs.Laws.{AppliesExactly, OnlyKept, StopsHarmless};
ghost use Rattle.stream.specs.Verdict.{verdict};

use fault::Fault;
use overlay::{RangeMark, Run};
use parts::StreamParts;
use ranges::{apply_ranges, resize_first};
pub use reading::read_from;
use reading::rising_ranges;
use store::Store;
use stream::{MOST_RECORDS, RunBuffer, Stream};

mod parts;
mod ranges;
mod reading;

// Applies parts to an image: each of the ranges that they come to is one canonical record.
fn apply_parts<S: Store>(stream: StreamParts, store: &mut S) -> Result<(), Fault>
    ensures { StoreOutcome
        (apply_steps (S.holds store.old) (S.image store.old)
        (part_steps stream.entry.bytes.now stream.entry.sheet.runs.now stream.entry.sheet.size))
        result S.image S.holds S.past store.old store.new }
{
    let mut ranges = [Run::<RangeMark>::NONE; MOST_RECORDS];
    let count = rising_ranges(stream, &mut ranges);
    resize_first(stream.sheet.size, store)?;
    apply_ranges(stream, &ranges[..count], store)
}

/// Applies a stream that was read to an image, from whatever name it leads. Each of its ranges is
/// one canonical record. A fault of the store has the record's number, or 0 where the image cannot
/// be resized. At a refusal what came before stands, and nothing else is done.
#[tactic(auto, using(crate::proofs::Readings::stream_parted, crate::proofs::Readings::stream_outcome))]
pub fn apply_stream<S: Store>(stream: Stream, store: &mut S) -> Result<(), Fault>
    ensures { StoreOutcome
        (apply_read (S.holds store.old) (S.image store.old) (verdict stream.entry.bytes.now))
        result S.image S.holds S.past store.old store.new }
{
    let parts = StreamParts {
        bytes: stream.bytes,
        sheet: stream.sheet,
    };
    apply_parts(parts, store)
}

/// Applies a stream to the image of a store, whose present name is `name`. It is refused if the
/// stream has a fault, then if it leads from another name, and then nothing is altered; then by the
/// store.
pub fn apply<S: Store>(stream: &[u8], name: &[u8], store: &mut S) -> Result<(), Fault>
    ensures { StoreOutcome
        (apply_answer (S.holds store.old) (S.image store.old) name.now stream.now)
        result S.image S.holds S.past store.old store.new }
{
    let mut buffer = RunBuffer::new();
    let stream = read_from(stream, name, &mut buffer)?;
    apply_stream(stream, store)
}

/// The laws of applying. Exactly: records are applied in full exactly if the store can hold the
/// result of each step, and the image is then what the difference makes of it; else they stop at
/// the first step whose result it cannot hold, and what came before stands. Kept: applying a
/// difference asks nothing of an image but its bytes at the positions that it keeps. Harmless:
/// wherever it stopped, applying the difference again gives what it would have given at once.
pub fn laws_of_applies()
    ensures exactly { AppliesExactly }
    ensures only_kept { OnlyKept }
    ensures harmless { StopsHarmless }
{}
