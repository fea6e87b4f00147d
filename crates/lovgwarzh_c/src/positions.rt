// C passes the arguments of a call by position, and a contract names them. Each function here
// passes its arguments on by position under names of its own, and promises what the exported call
// does with the first, the second and the third. So an exported signature whose parameters change
// places is refused.
ghost use Rattle.std.specs.Prelude.{◌≡◌};
ghost use Rattle.join.specs.Joins.{joined_stream};
ghost use Rattle.listing.specs.Lists.{stream_text};
ghost use Rattle.stream.specs.Buffers.{written_buffer_by};
ghost use Rattle.lovgwarzh_c.specs.Answers.{list_numbers, join_numbers};

use crate::answer::Answer;
use crate::{lovgwarzh_join, lovgwarzh_list};

pub fn list_by_position(first: &[u8], second: &mut [u8]) -> Answer
    ensures answer { result ≡ list_numbers first.now second.old }
    ensures buffer { second.new ≡ written_buffer_by (stream_text first.now) second.old }
{
    lovgwarzh_list(first, second)
}

pub fn join_by_position(first: &[u8], second: &[u8], third: &mut [u8]) -> Answer
    ensures answer { result ≡ join_numbers first.now second.now third.old }
    ensures buffer { third.new ≡ written_buffer_by (joined_stream first.now second.now) third.old }
{
    lovgwarzh_join(first, second, third)
}
