ghost use Rattle.std.specs.Prelude.{◌≡◌};
ghost use Rattle.pnml_decode.specs.declared.reader_fault.ReaderFault.TheVariants.{NoMemory as Memory, Because};

use net_values::NoMemory;
use pnml_grammar::Reason;

/// Why the reader doesn't take a token.
#[derive(Clone, Copy, Debug)]
pub(crate) enum ReaderFault {
    NoMemory,
    Because(Reason),
}

impl From<NoMemory> for ReaderFault {
    ghost from_gives = { λ _ fault. fault ≡ Memory };

    fn from(_refusal: NoMemory) -> ReaderFault {
        ReaderFault::NoMemory
    }
}

impl From<Reason> for ReaderFault {
    ghost from_gives = { λ reason fault. fault ≡ Because reason };

    fn from(reason: Reason) -> ReaderFault {
        ReaderFault::Because(reason)
    }
}
