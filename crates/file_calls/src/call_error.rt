ghost use Rattle.std.specs.Prelude.{◌≡◌};

use fault::Fault;
use std::alloc::AllocError;

/// Why a call on the bytes of files ends without its result.
#[derive(Debug, Drop)]
pub enum CallError {
    // the bytes were refused
    Refused(Fault),
    // there is not enough memory
    Memory(AllocError),
}

impl From<Fault> for CallError {
    ghost use Rattle.file_calls.specs.declared.call_error.CallError.TheVariants.{Refused};

    ghost from_gives = { λ fault error. error ≡ Refused fault };

    fn from(fault: Fault) -> CallError {
        CallError::Refused(fault)
    }
}

impl From<AllocError> for CallError {
    ghost use Rattle.file_calls.specs.declared.call_error.CallError.TheVariants.{Memory};

    ghost from_gives = { λ e error. error ≡ Memory e };

    fn from(error: AllocError) -> CallError {
        CallError::Memory(error)
    }
}
