ghost use Rattle.delay_file.specs.declared.write_error.WriteError.TheVariants.{Memory, Refused};
ghost use Rattle.std.specs.Prelude.{◌≡◌};

use crate::fault::Fault;
use std::alloc::AllocError;

// Why a file was not made: it is refused, or there is no memory for it.
#[derive(Clone, Copy)]
pub enum WriteError {
    Refused(Fault),
    Memory,
}

impl From<AllocError> for WriteError {
    ghost from_gives = { λ _ r. r ≡ Memory };

    fn from(_error: AllocError) -> WriteError {
        WriteError::Memory
    }
}

impl From<Fault> for WriteError {
    ghost from_gives = { λ fault r. r ≡ Refused fault };

    fn from(fault: Fault) -> WriteError {
        WriteError::Refused(fault)
    }
}
