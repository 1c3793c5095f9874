ghost use Rattle.std.specs.Prelude.{◌≡◌};

use net_values::NoMemory;

/// Why bounds get no certificate: out of memory, or one of the two sums of this row at this column of the net's
/// incidence exceeds 2^127 - 1. Rows and columns are counted from 0.
#[derive(Clone, Copy, Debug, PartialEq, Eq)]
pub enum BoundCertFault {
    NoMemory,
    WideCheck(usize, usize),
}

impl From<NoMemory> for BoundCertFault {
    ghost use Rattle.cert_make.specs.declared.fault.BoundCertFault.{BoundCertFault};

    ghost from_gives = { λ _ fault. fault ≡ BoundCertFault.NoMemory };

    fn from(_error: NoMemory) -> BoundCertFault {
        BoundCertFault::NoMemory
    }
}
