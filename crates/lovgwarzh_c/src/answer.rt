ghost use Rattle.std.specs.Prelude.{◌≡◌};
ghost use Rattle.lovgwarzh_c.specs.Answers.{answer_of};

use fault::Fault;

/// What each call returns, `struct lovgwarzh_answer` in the header: written, cause, layer, place,
/// record and entry, in this order. They stand by position, since C reads the fields of its struct
/// by position. A call that was not refused has 0 for its cause; a call that was refused has
/// written 0 bytes.
#[repr(C)]
#[derive(Clone, Copy)]
pub struct Answer {
    pub numbers: [u64; 6],
}

impl From<Result<usize, Fault>> for Answer {
    ghost from_gives = { λ r answer. answer ≡ answer_of r };

    fn from(r: Result<usize, Fault>) -> Answer {
        let numbers = match r {
            Ok(written) => [written as u64, 0, 0, 0, 0, 0],
            Err(f) => [
                0,
                f.cause.number(),
                f.layer.number(),
                f.place,
                f.record,
                f.entry,
            ],
        };
        Answer { numbers }
    }
}
