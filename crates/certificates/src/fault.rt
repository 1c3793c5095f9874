ghost use Rattle.std.specs.Prelude.{◌≡◌};

use net_values::NoMemory;

/// Why bytes weren't read as a certificate.
#[derive(Clone, Copy, Debug, PartialEq, Eq)]
pub enum ReadFault {
    /// The system refused memory.
    NoMemory,
    /// This line, counted from 1, is the first that begins no certificate after the lines before it.
    BadLine(u64),
}

impl From<NoMemory> for ReadFault {
    ghost use Rattle.certificates.specs.declared.fault.ReadFault.{ReadFault};

    ghost from_gives = { λ _ fault. fault ≡ ReadFault.NoMemory };

    fn from(_error: NoMemory) -> ReadFault {
        ReadFault::NoMemory
    }
}
