ghost use Rattle.std.specs.Prelude.{◌≡◌};

use net_values::NoMemory;

/// Whether a search has met all siphons, or classes are pending.
#[derive(Clone, Copy, Debug, PartialEq, Eq)]
pub enum Progress {
    Done,
    More,
}

/// Why a search doesn't go on: out of memory, or it has met one siphon more than its limit.
#[derive(Clone, Copy, Debug, PartialEq, Eq)]
pub enum AdvanceFault {
    NoMemory,
    SetLimit,
}

impl From<NoMemory> for AdvanceFault {
    ghost use Rattle.siphon_branch.specs.declared.progress.AdvanceFault.{AdvanceFault};

    ghost from_gives = { λ _ fault. fault ≡ AdvanceFault.NoMemory };

    fn from(_error: NoMemory) -> AdvanceFault {
        AdvanceFault::NoMemory
    }
}
