ghost use Rattle.std.specs.Prelude.{◌≡◌};
ghost use Rattle.pnml_token.specs.declared.miss.Miss.TheVariants.{NoMemory};

use std::alloc::{AllocError, AllocFailed};

/// Why a reader gives nothing: nothing of its kind is there, or the system refused memory.
#[derive(Clone, Copy, Debug)]
pub(crate) enum Miss {
    NoToken,
    NoMemory,
}

impl From<AllocError> for Miss {
    ghost from_gives = { λ _ e. e ≡ NoMemory };

    fn from(_error: AllocError) -> Miss {
        Miss::NoMemory
    }
}

impl<T: Drop> From<AllocFailed<T>> for Miss {
    ghost from_gives = { λ _ e. e ≡ NoMemory };

    fn from(_error: AllocFailed<T>) -> Miss {
        Miss::NoMemory
    }
}

impl From<net_values::NoMemory> for Miss {
    ghost from_gives = { λ _ e. e ≡ NoMemory };

    fn from(_error: net_values::NoMemory) -> Miss {
        Miss::NoMemory
    }
}
