ghost use Rattle.overlay.specs.Marks.{payload_moves, payload_filler, payload_alike};
ghost use Rattle.std.specs.Prelude.{◌≡◌};
ghost use Rattle.std.specs.Option.{option_copied};
ghost use Rattle.overlay.specs.Payloads.{stream_of, part_of, payload_of, located_bytes};
ghost use Rattle.std.proofs.Common.{rules};

use super::marks::Mark;
use super::runs::Run;

/// Which of two joined streams holds a byte.
#[derive(Clone, Copy, Debug, PartialEq, Eq)]
pub enum Side {
    Earlier,
    Later,
}

/// Whether a byte is zeroed or written, and where a written byte stands: in which stream, and at
/// which place of it.
#[derive(Clone, Copy, PartialEq, Eq, Debug)]
pub enum PayloadMark {
    Zeroed,
    Written(Side, u64),
}

impl Mark for PayloadMark {
    ghost moves = { payload_moves };

    ghost alike = { payload_alike };

    const FILLER: PayloadMark = PayloadMark::Zeroed;

    ghost FILLER = { payload_filler };

    ghost laws = { Prim.search rules };

    fn moved(self, k: u64) -> PayloadMark {
        match self {
            PayloadMark::Zeroed => PayloadMark::Zeroed,
            PayloadMark::Written(side, place) => PayloadMark::Written(side, place.wrapping_add(k)),
        }
    }
}

// The bytes from `place` on, `length` of them, of the stream that `side` names; None where they
// would pass its end.
fn part<'a>(
    earlier: &'a [u8],
    later: &'a [u8],
    side: Side,
    place: usize,
    length: usize,
) -> Option<&'a [u8]>
    ensures { option_copied result ≡ part_of (stream_of earlier.now later.now side) place «length» }
{
    let stream = match side {
        Side::Earlier => earlier,
        Side::Later => later,
    };
    let end = place.checked_add(length)?;
    stream.get(place..end)
}

/// The payload of a run: its place in the stream that the mark names, and its bytes. None where the
/// run is zeroed or passes the stream's end.
pub fn payload<'a>(
    earlier: &'a [u8],
    later: &'a [u8],
    run: Run<PayloadMark>,
) -> Option<(u64, &'a [u8])>
    ensures { located_bytes result ≡ payload_of earlier.now later.now run.mark run.length }
{
    let PayloadMark::Written(side, place) = run.mark else {
        return None;
    };
    let bytes = part(earlier, later, side, place as usize, run.length as usize)?;
    Some((place, bytes))
}
