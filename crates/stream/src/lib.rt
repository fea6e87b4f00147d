// Streams: reading and checking them, what their records are, and what they mean.
#![tactic(auto)]

ghost use Rattle.std.specs.Prelude.{◌≡◌};
ghost use Rattle.stream.specs.Records.{FormatLimits};
ghost use Rattle.stream.specs.Places.{PlacesMatch};
ghost use Rattle.stream.specs.Verdict.{check_answer, verdict};
ghost use Rattle.stream.specs.Refusals.{RefusesExactly};
ghost use Rattle.stream.specs.Sound.{AcceptedExactly, Exact, SoundExactly};
ghost use Rattle.stream.specs.Wellformed.{ReadsBack, AcceptedIsStream, RefusedExactly};

use crate::reader::Reader;
use fault::Fault;

mod buffers;
mod fields;
mod limits;
mod ranges;
mod reader;
mod records;
mod stream;
mod summary;

pub use buffers::RunBuffer;
pub use fields::printable;
pub use limits::{
    HEADER, LARGEST_SIZE, LONGEST_NAME, MOST_RECORDS, NAME_HEAD, RANGE_HEAD, Ranges, SIZE_HEAD,
};
pub use ranges::{find_ranges, mark_ranges};
pub use stream::Stream;

// Reads a whole stream, and returns its fault if it has one.
fn examine(stream: &[u8]) -> Result<(), Fault>
    ensures { result ≡ check_answer (verdict stream.now) }
{
    let mut reader = Reader::open(stream)?;
    while let Some(_) = reader.next()? {}
    Ok(())
}

/// Checks a stream. It is accepted exactly if it is the stream of a sound list of records.
/// Otherwise the fault is the first that applies, in the order of docs/REFUSALS.md.
#[tactic(auto, using(crate::proofs::SoundLists::exact_bytes))]
pub fn check(stream: &[u8]) -> Result<(), Fault>
    ensures result { result ≡ check_answer (verdict stream.now) }
    ensures exact { Exact stream.now result }
{
    examine(stream)
}

/// The laws of reading.
/// - Reading back: the stream of a well-formed list of records is read as that list.
/// - Accepted: a stream is accepted exactly if it is the stream of a sound list of records.
/// - Refused: a stream is refused with a fault exactly if good records stand before its place and
///   the fault is the first that applies there.
/// - Refusals: a record is refused with a cause exactly if a line of the format says so.
/// - Sound: a list is well formed, record by record, exactly if it has at most one f, one t and one
///   s in any order, and then at most 512 data records in rising order inside the size.
/// - Places: the bytes at the places that a reading returns are what the records say.
/// - Limits: the constants have the values of the format.
pub fn laws_of_reading()
    ensures reads_back { ReadsBack }
    ensures is_stream { AcceptedIsStream }
    ensures accepted { AcceptedExactly }
    ensures refused { RefusedExactly }
    ensures refusals { RefusesExactly }
    ensures sound { SoundExactly }
    ensures places_match { PlacesMatch }
    ensures limits { FormatLimits }
{}
