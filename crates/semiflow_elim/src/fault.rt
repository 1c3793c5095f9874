/// Why an elimination step fails.
#[derive(Clone, Copy, Debug, PartialEq, Eq)]
pub enum ElimFault {
    /// The system refused memory.
    NoMemory,
    /// A sum of a row at this column exceeds 2^127 - 1.
    WideSum(usize),
    /// At this column there are this many candidates, more than the budget.
    RowBudget(usize, u64),
    /// At this column an entry of a combination exceeds 2^127 - 1.
    WideRow(usize),
}
