// Why a call that needs memory comes to nothing.
ghost use Rattle.std.specs.Prelude.{◌≡◌};
ghost use Rattle.heap_banks.specs.declared.stop.Stop.TheVariants.{Refused, NoMemory};

use policy::refusal::Refusal;
use std::alloc::AllocError;
use thiserror::Error;

#[derive(Clone, Copy, PartialEq, Eq, Debug, Error)]
pub enum Stop {
    #[error("refused by {0}")]
    Refused(Refusal),
    #[error("{0}")]
    NoMemory(AllocError),
}

impl From<Refusal> for Stop {
    ghost from_gives = { λ refusal stop. stop ≡ Refused refusal };

    fn from(refusal: Refusal) -> Stop {
        Stop::Refused(refusal)
    }
}

impl From<AllocError> for Stop {
    ghost from_gives = { λ error stop. stop ≡ NoMemory error };

    fn from(error: AllocError) -> Stop {
        Stop::NoMemory(error)
    }
}
