ghost use Rattle.std.specs.Prelude.{◌≡◌, ◌^◌, ◌<◌};
ghost use Rattle.overlay.specs.Runs.{run_end};

use super::marks::Mark;

/// Bytes that follow each other. The mark is that of the first byte; moved on by k, it is the mark
/// of the byte k further. Lists of runs that are `Rising` have no empty run.
#[derive(Clone, Copy)]
pub struct Run<M> {
    pub offset: u64,
    pub length: u64,
    pub mark: M,
}

impl<M: Mark + Copy> Run<M> {
    /// Fills the places of a buffer before there are runs to put there.
    pub const NONE: Run<M> = Run {
        offset: 0,
        length: 0,
        mark: M::FILLER,
    };

    /// The position after the last.
    pub fn end(self) -> u64
        requires { run_end self < 2 ^ 64 }
        ensures { result ≡ run_end self }
    {
        self.offset + self.length
    }
}

/// The state of a position, which moves on up to `stop`; None where these positions are kept.
#[derive(Clone, Copy)]
pub struct Piece<M> {
    pub state: Option<M>,
    pub stop: u64,
}
