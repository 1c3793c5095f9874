use crate::carried::ColumnSums;
use crate::signs::RowSums;
use incidence::Incidence;
use net_values::{List, PlaceSet, Vector};

/// A step of an elimination: its column, the set of columns that are taken after it, the rows over those that were
/// taken before with the sums that they carry, their two sums at the column, and the numbers of the positive and of the
/// negative ones.
#[derive(Clone, Copy)]
pub(crate) struct Step<'a> {
    pub matrix: &'a Incidence,
    pub column: usize,
    pub after: &'a PlaceSet,
    pub rows: &'a [Vector],
    pub carried: &'a [List<ColumnSums>],
    pub sums: &'a [RowSums],
    pub positive: &'a [usize],
    pub negative: &'a [usize],
}
