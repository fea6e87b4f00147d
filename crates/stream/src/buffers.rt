ghost use Rattle.std.specs.Prelude.{◌≡◌, ◌<◌, ◌≤◌, [], ◌∷◌, ◌++◌, length};
ghost use Rattle.stream.specs.declared.limits.TheConstants.{MOST_RECORDS};

use crate::limits::MOST_RECORDS;
use overlay::{PayloadMark, Run};

/// Room for the runs of one stream. A reading borrows it from the caller, who sees what was put
/// there only through the stream that was read.
#[derive(Drop)]
pub struct RunBuffer {
    runs: [Run<PayloadMark>; MOST_RECORDS],
    count: usize,
    ghost few: { count ≤ MOST_RECORDS },
}

impl RunBuffer {
    ghost use Rattle.stream.specs.Gathered.{buffer_runs};

    /// A buffer for any stream. It may serve one reading after another.
    pub fn new() -> RunBuffer
        ensures { buffer_runs result ≡ [] }
    {
        RunBuffer {
            runs: [Run::NONE; MOST_RECORDS],
            count: 0,
        }
    }

    pub(crate) fn clear(&mut self)
        ensures { buffer_runs self.new ≡ [] }
    {
        self.count = 0;
    }

    #[tactic(auto, using(crate::proofs::RunGathering::length_runs, crate::proofs::RunGathering::runs_push))]
    pub(crate) fn push(&mut self, run: Run<PayloadMark>)
        requires { length (buffer_runs self.old) < MOST_RECORDS }
        ensures { buffer_runs self.new ≡ buffer_runs self.old ++ run ∷ [] }
    {
        self.runs[self.count] = run;
        self.count += 1;
    }

    pub(crate) fn as_slice(&self) -> &[Run<PayloadMark>]
        ensures { result.now ≡ buffer_runs self.now }
    {
        &self.runs[..self.count]
    }
}
