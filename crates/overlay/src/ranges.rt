ghost use Rattle.overlay.specs.Marks.{range_moves, range_filler, range_alike, range_of};
ghost use Rattle.std.specs.Prelude.{◌≡◌};
ghost use Rattle.std.proofs.Common.{rules};

use super::marks::Mark;
use super::payloads::PayloadMark;

/// Whether a byte is zeroed or written. The canonical records of a difference are runs of these
/// marks.
#[derive(Clone, Copy, PartialEq, Eq, Debug)]
pub enum RangeMark {
    Zeroed,
    Written,
}

impl Mark for RangeMark {
    const FILLER: RangeMark = RangeMark::Zeroed;

    ghost FILLER = { range_filler };

    ghost alike = { range_alike };

    ghost moves = { range_moves };

    ghost laws = { Prim.search rules };

    fn moved(self, _k: u64) -> RangeMark {
        self
    }
}

// The kind of a payload mark.
impl From<PayloadMark> for RangeMark {
    ghost from_gives = { λ mark kind. kind ≡ range_of mark };

    fn from(mark: PayloadMark) -> RangeMark {
        match mark {
            PayloadMark::Zeroed => RangeMark::Zeroed,
            PayloadMark::Written(_, _) => RangeMark::Written,
        }
    }
}
