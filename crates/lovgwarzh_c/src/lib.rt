// The calls for C, over byte slices and numbers: to C a slice is a pointer and then a length.
// Declared in include/lovgwarzh.h.
#![tactic(auto)]

ghost use Rattle.std.specs.Prelude.{◌≡◌};
ghost use Rattle.join.specs.Joins.{joined_stream};
ghost use Rattle.listing.specs.Lists.{stream_text};
ghost use Rattle.stream.specs.Buffers.{written_buffer_by};
ghost use Rattle.lovgwarzh_c.specs.Answers.{check_numbers, list_numbers, join_numbers};

use answer::Answer;
use join::join;
use listing::list;
use stream::check;

mod answer;
mod positions;

/// Checks a stream; nothing is written.
#[unsafe(no_mangle)]
pub extern "C" fn lovgwarzh_check(stream: &[u8]) -> Answer
    ensures { result ≡ check_numbers stream.now }
{
    check(stream).map(|()| 0).into()
}

/// Writes the list of a stream's ranges to the first bytes of `text`. A refusal leaves `text` as it
/// was.
#[unsafe(no_mangle)]
pub extern "C" fn lovgwarzh_list(stream: &[u8], text: &mut [u8]) -> Answer
    ensures answer { result ≡ list_numbers stream.now text.old }
    ensures buffer { text.new ≡ written_buffer_by (stream_text stream.now) text.old }
{
    list(stream, text).into()
}

/// Writes the join of two streams to the first bytes of `out`. A refusal leaves `out` as it was.
#[unsafe(no_mangle)]
pub extern "C" fn lovgwarzh_join(earlier: &[u8], later: &[u8], out: &mut [u8]) -> Answer
    ensures answer { result ≡ join_numbers earlier.now later.now out.old }
    ensures buffer { out.new ≡ written_buffer_by (joined_stream earlier.now later.now) out.old }
{
    join(earlier, later, out).into()
}
