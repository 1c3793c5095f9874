/// A device failed: its count of faults rose, or occurs at its last value.
#[derive(Clone, Copy, Debug, PartialEq, Eq)]
pub struct Failed;
