// Applying entry 0 to the base image.
ghost use Rattle.std.specs.Prelude.{◌≡◌, length, OnOk};
ghost use Rattle.overlay.specs.declared.payloads.Side.TheVariants.{Later};
ghost use Rattle.store.specs.Stores.{KeepsPast};
ghost use Rattle.shelf.specs.Outcomes.{apply_entry, applied_outcome, settle_outcome};
ghost use Rattle.shelf.specs.Planned.{planned_difference, IsOwn};
ghost use Rattle.shelf.specs.Steps.{MayLeave};

use crate::contents::Contents;
use crate::planned::Planned;
use apply::apply_stream;
use fault::{Fault, Located};
use overlay::{RangeMark, Run, Side};
use store::Store;
use stream::{MOST_RECORDS, RunBuffer};
use table::EntryTable;

// Applies a canonical stream to the image of a store. A fault of the store is in entry 0.
fn apply_own<S: Store>(planned: Planned, store: &mut S) -> Result<(), Fault>
    requires { IsOwn Later planned }
    ensures same { S.holds store.new ≡ S.holds store.old }
    ensures outcome { (result, S.image store.new)
        ≡ apply_entry (S.holds store.old) (S.image store.old) (planned_difference planned.entry) }
    ensures past { KeepsPast S.past store.old store.new (length (S.image store.new)) }
{
    apply_stream(planned.stream, store).in_entry(0)
}

// Applies entry 0 to the image of a store.
#[tactic(auto, using(crate::proofs::CallSteps::may_leave), unfolding(crate::specs::Outcomes::settle_plan))]
pub(crate) fn apply_first<S: Store>(
    table: &EntryTable,
    bytes: &[u8],
    store: &mut S,
) -> Result<(), Fault>
    ensures same { S.holds store.new ≡ S.holds store.old }
    ensures outcome { applied_outcome table.now bytes.now (S.image store.new) result
        ≡ settle_outcome (S.holds store.old) table.now bytes.now (S.image store.old) }
    ensures past { KeepsPast S.past store.old store.new (length (S.image store.new)) }
    ensures leave { OnOk result (MayLeave table.now bytes.now) }
{
    let contents = Contents::at(table, bytes, 0, 0)?;
    let mut runs = RunBuffer::new();
    let mut ranges = [Run::<RangeMark>::NONE; MOST_RECORDS];
    let planned = contents.read(0, Side::Later, &mut runs, &mut ranges)?;
    apply_own(planned, store)
}
