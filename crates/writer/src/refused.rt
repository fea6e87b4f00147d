// A refused call gives the writer back.
ghost use Rattle.std.specs.Prelude.{◌≡◌};

use fault::Fault;

/// A call that was refused: the writer as it was, and the fault. `?` turns it into the fault alone.
#[derive(Drop)]
pub struct Refused<W> {
    pub writer: W,
    pub fault: Fault,
}

impl<W: Drop> From<Refused<W>> for Fault {
    ghost from_gives = { λ r f. f ≡ r.fault };

    fn from(r: Refused<W>) -> Fault {
        r.fault
    }
}
