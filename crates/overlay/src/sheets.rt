ghost use Rattle.std.specs.Prelude.{◌≡◌, ◌+◌, ◌<◌, ⊤, MatchOption, length};
ghost use Rattle.overlay.specs.Runs.{overlay_state_at, Rising, rising_prop};
ghost use Rattle.overlay.specs.Walks.{runs_left, Left, Ahead, FirstPiece, Even, edges};

use super::marks::Mark;
use super::runs::{Piece, Run};
use std::alloc::AllocError;

/// The runs of a difference, in rising order and not overlapping, below its size. A position under
/// no run is kept.
pub struct Sheet<'a, M> {
    pub runs: &'a [Run<M>],
    pub size: u64,
    pub ghost rising: { Rising 0 runs.now size } by { rising_prop 0 runs.now size },
}

// Not derived: a derived `Clone` would ask that marks be `Copy`.
impl<'a, M> Clone for Sheet<'a, M> {
    ghost is_clone = { λ sheet copy. copy ≡ sheet };

    ghost is_infallible = { λ _. ⊤ };

    fn clone(&self) -> Result<Sheet<'a, M>, AllocError> {
        Ok(*self)
    }
}

impl<'a, M> Copy for Sheet<'a, M> {}

// The piece that begins at `pos`, of runs below a size of which the first ends after `pos`.
fn first_piece<M: Mark + Copy>(runs: &[Run<M>], size: u64, pos: u64) -> Piece<M>
    requires rising { Rising 0 runs.now size }
    requires ahead { Ahead pos runs.now }
    requires below { pos < size }
    ensures { FirstPiece M.moves runs.now size pos result }
{
    match runs {
        [] => Piece {
            state: None,
            stop: size,
        },
        [run, ..] if pos < run.offset => Piece {
            state: None,
            stop: run.offset,
        },
        [run, ..] => Piece {
            state: Some(run.mark.moved(pos - run.offset)),
            stop: run.end(),
        },
    }
}

impl<'a, M: Mark + Copy> Sheet<'a, M> {
    // The sheet without its first run, where that ends by `pos`.
    #[tactic(auto, using(crate::proofs::WalkPieces::first_ends, crate::proofs::WalkPieces::rising_rest))]
    fn pass(self, pos: u64) -> Option<Sheet<'a, M>>
        ensures { MatchOption result
            (runs_left pos self.entry.runs.now ≡ self.entry.runs.now)
            (λ rest. (rest.size ≡ self.entry.size)
            × (length rest.runs.now < length self.entry.runs.now)
            × (runs_left pos rest.runs.now ≡ runs_left pos self.entry.runs.now)) }
    {
        match self.runs.split_first() {
            Some((run, rest)) if run.end() <= pos => Some(Sheet {
                runs: rest,
                size: self.size,
            }),
            _ => None,
        }
    }

    /// The sheet from `pos` on: without the first of its runs, as long as these end at or before
    /// `pos`.
    #[tactic(auto, using(crate::proofs::WalkPieces::left_runs, crate::proofs::WalkPieces::ahead_left))]
    pub fn skip(self, pos: u64) -> Sheet<'a, M>
        ensures size { result.size ≡ self.entry.size }
        ensures runs { result.runs.now ≡ runs_left pos self.entry.runs.now }
        ensures left { Left M.moves self.entry.runs.now pos result.runs.now }
        ensures ahead { Ahead pos result.runs.now }
    {
        let mut left = self;
        while let Some(rest) = left.pass(pos) {
            left = rest;
        }
        left
    }

    /// The piece that begins at `pos`: it ends where the next run begins or ends, or at the size.
    /// The first run has to end after `pos`, as it does after `skip`.
    pub fn look(self, pos: u64) -> Piece<M>
        requires ahead { Ahead pos self.runs.now }
        requires below { pos < self.size }
        ensures { FirstPiece M.moves self.entry.runs.now self.entry.size pos result }
    {
        first_piece(self.runs, self.size, pos)
    }
}

// The piece of the overlay that begins at `pos`: the later piece, unless it keeps; past the earlier
// size the filler, and else the earlier piece.
#[tactic(auto, using(crate::proofs::WalkPieces::edges_on))]
pub(crate) fn covered<M: Mark + Copy>(earlier: Sheet<M>, later: Sheet<M>, pos: u64) -> Piece<M>
    requires earlier_ahead { Ahead pos earlier.runs.now }
    requires later_ahead { Ahead pos later.runs.now }
    requires below { pos < later.size }
    ensures even { let under = earlier.entry in
        let states = overlay_state_at M.moves M.FILLER under.runs.now under.size later.entry.runs.now in
        Even M.moves states pos later.entry.size result }
    ensures nears { edges result.stop earlier.entry.runs.now earlier.entry.size
        + edges result.stop later.entry.runs.now later.entry.size
        < edges pos earlier.entry.runs.now earlier.entry.size
        + edges pos later.entry.runs.now later.entry.size }
{
    let over = later.look(pos);
    if over.state.is_some() {
        return over;
    }
    if pos >= earlier.size {
        return Piece {
            state: Some(M::FILLER),
            ..over
        };
    }
    let under = earlier.look(pos);
    Piece {
        stop: under.stop.min(over.stop),
        ..under
    }
}
