use pnml_grammar::Reason;

/// Why bytes give no document.
#[derive(Clone, Copy, Debug, PartialEq, Eq)]
pub enum DocFault {
    /// The system refused memory.
    NoMemory,
    /// The bytes aren't UTF-8; their longest front that is has this length.
    NotUtf8(u64),
    /// At this offset, the first such, the document is refused for this reason.
    At(u64, Reason),
    /// No offset is at fault, and the bytes end, after so many, before the document is whole.
    Truncated(u64),
}

impl From<net_values::NoMemory> for DocFault {
    ghost use Rattle.std.specs.Prelude.{◌≡◌};
    ghost use Rattle.pnml_decode.specs.declared.fault.DocFault.TheVariants as refusals;

    ghost from_gives = { λ _ refusal. refusal ≡ refusals.NoMemory };

    fn from(_refusal: net_values::NoMemory) -> DocFault {
        DocFault::NoMemory
    }
}
