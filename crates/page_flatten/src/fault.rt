ghost use Rattle.std.specs.Prelude.{◌≡◌};

use net_values::{NoMemory, Text};

/// Why a document represents no flat net of a number: the first of the five rules that it breaks,
/// with the ids of the first element in document order that breaks it, or that it has no net of
/// that number, or out of memory.
#[derive(Drop)]
pub enum FlatFault {
    /// The system refused memory.
    NoMemory,
    /// An earlier element has this element's id. Nets, pages, nodes and arcs are counted.
    DuplicateId(Text),
    /// The first id is that of no node of the same net, and the element with the second one mentions it as its
    /// `ref`, `source` or `target`.
    UnknownId(Text, Text),
    /// This reference node names a node of the other kind.
    RefKind(Text),
    /// The chain from this reference node doesn't end.
    RefCycle(Text),
    /// The resolved ends of this arc aren't one place and one transition.
    ArcEnds(Text),
    /// No rule is broken, and the document has only so many nets.
    NoNet(usize),
}

impl From<NoMemory> for FlatFault {
    ghost use Rattle.page_flatten.specs.declared.fault.FlatFault.{FlatFault};

    ghost from_gives = { λ _ fault. fault ≡ FlatFault.NoMemory };

    fn from(_error: NoMemory) -> FlatFault {
        FlatFault::NoMemory
    }
}
