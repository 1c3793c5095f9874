ghost use Rattle.std.specs.Prelude.{◌≡◌};

use net_values::NoMemory;

/// Why bytes weren't read as the pending classes of a net.
#[derive(Clone, Copy, Debug, PartialEq, Eq)]
pub enum PendingFault {
    /// The system refused memory.
    NoMemory,
    /// This line, counted from 1, is the first that begins no token after the lines before it.
    BadLine(u64),
    /// This line, counted from 1, is the first whose class has a place that the net lacks or isn't disjoint from
    /// that of an earlier line.
    Rejected(u64),
}

impl From<NoMemory> for PendingFault {
    ghost use Rattle.branch_resume.specs.declared.fault.PendingFault.{PendingFault};

    ghost from_gives = { λ _ fault. fault ≡ PendingFault.NoMemory };

    fn from(_error: NoMemory) -> PendingFault {
        PendingFault::NoMemory
    }
}
