ghost use Rattle.std.specs.Prelude.{◌≡◌, ◌^◌, ◌<◌, ◌≤◌, length, take, Decides};
ghost use Rattle.overlay.specs.Runs.{run_end, Rising, Apart, Canonical};
ghost use Rattle.overlay.specs.Walks.{Pushed, Grown};
ghost use Rattle.overlay.specs.Buffers.{Fills, OverlayAnswer};

use super::marks::Mark;
use super::runs::{Piece, Run};
use super::sheets::{Sheet, covered};

// Whether `next` begins where `last` ends and goes on as it.
fn continues<M: Mark + Copy>(last: Run<M>, next: Run<M>) -> bool
    requires { run_end last < 2 ^ 64 }
    ensures { Decides result
        ((run_end last ≡ next.offset) × (M.moves last.mark last.length ≡ next.mark)) }
{
    last.end() == next.offset && last.mark.moved(last.length) == next.mark
}

// Adds a run after the first k of `out`, or lengthens the last of them by it where it goes on as
// that one. Returns how many runs there are then, or None where there is no room for one more.
fn push<M: Mark + Copy>(out: &mut [Run<M>], k: usize, run: Run<M>) -> Option<usize>
    requires within { k ≤ length out.old }
    requires rising { Rising 0 (take k out.old) run.offset }
    requires apart { Apart M.moves (take k out.old) }
    requires some { 1 ≤ run.length }
    requires fits { run_end run < 2 ^ 64 }
    ensures { Fills (Pushed M.moves (take k out.old) run) result out.old out.new }
{
    if let [.., last] = &mut out[..k] {
        if continues(*last, run) {
            last.length += run.length;
            return Some(k);
        }
    }
    if k == out.len() {
        return None;
    }
    out[k] = run;
    Some(k + 1)
}

// Adds the run of a piece that has a mark.
fn add<M: Mark + Copy>(out: &mut [Run<M>], k: usize, pos: u64, piece: Piece<M>) -> Option<usize>
    requires within { k ≤ length out.old }
    requires canonical { Canonical M.moves (take k out.old) pos }
    requires more { pos < piece.stop }
    ensures { Fills (Grown M.moves (take k out.old) pos piece) result out.old out.new }
{
    let Some(mark) = piece.state else {
        return Some(k);
    };
    let run = Run {
        offset: pos,
        length: piece.stop - pos,
        mark,
    };
    push(out, k, run)
}

// The loop of `overlay`: piece by piece, from position 0 up to the later size. Each turn passes an
// edge of a run or a size, and adds at most one run.
#[tactic(auto, using(crate::proofs::WalkPieces::edges_all, crate::proofs::WalkPieces::runs_none, crate::proofs::WalkPieces::left_all))]
fn walk<M: Mark + Copy>(earlier: Sheet<M>, later: Sheet<M>, out: &mut [Run<M>]) -> Option<usize>
    ensures { OverlayAnswer M.moves M.alike M.FILLER earlier.entry later.entry
        result out.old out.new }
{
    let mut under = earlier;
    let mut over = later;
    let mut pos = 0;
    let mut k = 0;
    while pos < later.size {
        under = under.skip(pos);
        over = over.skip(pos);
        let piece = covered(under, over, pos);
        k = add(out, k, pos, piece)?;
        pos = piece.stop;
    }
    Some(k)
}

/// Writes the canonical runs of the overlay of an earlier difference by a later one into the first
/// places of `out`, and returns how many there are. Returns None where `out` has fewer places: it
/// then holds as many of the first runs as it has places. Two places for each run given, and two
/// more, are always enough.
pub fn overlay<M: Mark + Copy>(
    earlier: Sheet<M>,
    later: Sheet<M>,
    out: &mut [Run<M>],
) -> Option<usize>
    ensures { OverlayAnswer M.moves M.alike M.FILLER earlier.entry later.entry
        result out.old out.new }
{
    walk(earlier, later, out)
}
