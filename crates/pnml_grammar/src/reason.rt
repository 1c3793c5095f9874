/// Why a document is refused at an offset, in the order in which the reasons are tried.
#[derive(Clone, Copy, Debug, PartialEq, Eq)]
pub enum Reason {
    BadToken,
    Doctype,
    UnknownElement,
    OtherNamespace,
    OtherType,
    BadAttribute,
    BadNumber,
    Misplaced,
    TooDeep,
    TooMany(Counted),
}

/// What a document has a limited number of.
#[derive(Clone, Copy, Debug, PartialEq, Eq)]
pub enum Counted {
    Places,
    Transitions,
    Arcs,
    References,
    Pages,
    Nets,
    NameBytes,
}
