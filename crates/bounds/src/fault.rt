/// Why bounds can't be told.
#[derive(Clone, Copy, Debug, PartialEq, Eq)]
pub enum BoundFault {
    /// The system refused memory.
    NoMemory,
    /// The weighted tokens of this row at the initial marking exceed 2^127 - 1.
    WideBound(usize),
}
