// Writing streams. A writer goes through three states, each a type of its own that the next call
// takes: `Opened`, `Recording`, `Ended`. They hold plain numbers, and each call is given the
// buffer.
#![tactic(auto)]

ghost use Rattle.writer.specs.Whole.{EndedIsStream};

use stream::laws_of_reading;

mod ended;
mod fields;
mod heading;
mod names;
mod opened;
mod recording;
mod records;
mod refused;

pub use ended::Ended;
pub use fields::{put_bytes, put_range, put_u8};
pub use heading::{Heading, LONGEST_OPENING};
pub use names::is_good_name;
pub use opened::Opened;
pub use recording::Recording;
pub use refused::Refused;
pub use stream::{NAME_HEAD, RANGE_HEAD, SIZE_HEAD};

// The law of writing, from the laws of reading.
fn whole_runs()
    ensures { EndedIsStream }
{
    laws_of_reading();
}

/// The law of writing. Over one buffer, names are accepted, then a series of records, each of them
/// accepted or refused, and then the end. The first bytes of the buffer, as many as the ended
/// stream is long, are then the stream of exactly the names, the size and the accepted records, in
/// their order. Reading accepts it and returns these. The bytes after it are as they were.
pub fn laws_of_writing()
    ensures { EndedIsStream }
{
    whole_runs();
}
