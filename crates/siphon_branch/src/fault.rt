ghost use Rattle.std.specs.Prelude.{◌≡◌};

use net_values::{NoMemory, Sets};

/// Why a search gives no list: out of memory, or the net has more grown siphons than the limit, of which
/// one more than the limit are carried.
#[derive(Drop)]
pub enum SetFault {
    NoMemory,
    SetLimit(Sets),
}

impl From<NoMemory> for SetFault {
    ghost use Rattle.siphon_branch.specs.declared.fault.SetFault.{SetFault};

    ghost from_gives = { λ _ fault. fault ≡ SetFault.NoMemory };

    fn from(_error: NoMemory) -> SetFault {
        SetFault::NoMemory
    }
}
