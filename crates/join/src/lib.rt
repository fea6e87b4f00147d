// The join of two streams, and the canonical stream of one.
#![tactic(auto)]

ghost use Rattle.std.specs.Prelude.{◌≡◌};
ghost use Rattle.fault.specs.Fault.{and_then};
ghost use Rattle.fault.specs.declared.layer.Layer.TheVariants as layers;
ghost use Rattle.stream.specs.Buffers.{written_answer, written_buffer_by};
ghost use Rattle.join.specs.Joins.{joined_stream, canonical_stream};

use crate::canonical::write_own;
use fault::Fault;
use overlay::Side;
use stream::{RunBuffer, Stream};

mod canonical;
mod laws;
mod lengths;
mod pairs;
mod parts;
mod plans;
mod writing;

pub use canonical::{is_canonical, write_planned};
pub use laws::{laws_of_canonical_streams, laws_of_joins};
pub use pairs::Pair;
pub use plans::{Plan, joined_length, plan_stream};

/// Joins two streams: writes the canonical stream of the join into the first bytes of `out` and
/// returns its length. Refused, in this order: the earlier stream (entry 0), the later stream
/// (entry 1), names that do not meet, more than 512 canonical records, a buffer that is too short.
/// A refusal leaves the buffer alone.
pub fn join(earlier: &[u8], later: &[u8], out: &mut [u8]) -> Result<usize, Fault>
    ensures result { result ≡
        and_then (joined_stream earlier.now later.now)
        (λ bytes. written_answer layers.Join out.old bytes) }
    ensures buffer { out.new ≡ written_buffer_by (joined_stream earlier.now later.now) out.old }
{
    let mut earlier_runs = RunBuffer::new();
    let mut later_runs = RunBuffer::new();
    let pair = Pair::read(earlier, later, &mut earlier_runs, &mut later_runs)?;
    pair.join(out)
}

/// Writes the canonical stream of a stream into the first bytes of `out` and returns its length.
/// Refused: the stream, and then a buffer that is too short, which is left alone.
pub fn write_canonical(stream: &[u8], out: &mut [u8]) -> Result<usize, Fault>
    ensures result { result ≡
        and_then (canonical_stream stream.now)
        (λ bytes. written_answer layers.Stream out.old bytes) }
    ensures buffer { out.new ≡ written_buffer_by (canonical_stream stream.now) out.old }
{
    let mut runs = RunBuffer::new();
    let stream = Stream::read(stream, Side::Later, &mut runs)?;
    write_own(stream, out)
}
