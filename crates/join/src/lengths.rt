ghost use Rattle.std.specs.Prelude.{◌≡◌, ◌≤◌};
ghost use Rattle.stream.specs.declared.limits.TheConstants.{LARGEST_SIZE};
ghost use Rattle.overlay.specs.Runs.{Rising};
ghost use Rattle.join.specs.Lengths.{record_length, stream_length};

use overlay::{RangeMark, Run};
use writer::{Heading, RANGE_HEAD};

// The bytes that a data record takes.
pub(crate) fn record_length(run: Run<RangeMark>) -> u64
    requires { run.length ≤ LARGEST_SIZE }
    ensures { result ≡ record_length run }
{
    match run.mark {
        RangeMark::Zeroed => RANGE_HEAD as u64,
        RangeMark::Written => RANGE_HEAD as u64 + run.length,
    }
}

// The length of the canonical stream with this heading and these ranges.
pub(crate) fn stream_length(heading: Heading, records: &[Run<RangeMark>]) -> u64
    requires small { heading.size ≤ LARGEST_SIZE }
    requires rising { Rising 0 records.now heading.size }
    ensures { result ≡ stream_length heading.entry.from.now heading.entry.to.now records.now }
{
    let mut total = heading.length() as u64 + 1;
    for run in records {
        total += record_length(*run);
    }
    total
}
