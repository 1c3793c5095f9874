ghost use Rattle.std.specs.Prelude.{◌≡◌, ◌<◌, ◌≤◌, ◌^◌, IfOk, All, length};
ghost use Rattle.semiflow_elim.specs.Carried.{AreListed};
ghost use Rattle.semiflow_elim.specs.Counts.{AreCounted, AreCountedIn, AreIncluded, IsIncluded, counted};

use crate::carried::{ColumnSums, WIDE};
use net_values::{List, NoMemory};
use std::alloc::Global;

/// Of how many rows a sum at a column is wide, and of how many the difference of the two is positive or negative.
#[derive(Clone, Copy)]
pub(crate) struct ColumnCounts {
    pub wide: u64,
    pub positive: u64,
    pub negative: u64,
}

/// The counts of each column, from the sums of each row.
pub(crate) fn count_signs(
    alloc: Global,
    width: usize,
    carried: &[List<ColumnSums>],
) -> Result<Vec<ColumnCounts>, NoMemory>
    requires few { length carried.now < 2 ^ 33 }
    requires listed { All (AreListed width) carried.now }
    ensures { IfOk result (λ counts. AreCounted carried.now (length carried.now) width counts.items) }
{
    let none = ColumnCounts {
        wide: 0,
        positive: 0,
        negative: 0,
    };
    let mut counts = vec![in alloc; none; width]?;
    count_rows(counts.as_mut_slice(), carried, 0);
    Ok(counts)
}

/// Counts each row from the number `first` on, those before it being counted.
pub(crate) fn count_rows(counts: &mut [ColumnCounts], carried: &[List<ColumnSums>], first: usize)
    requires few { length carried.now < 2 ^ 33 }
    requires listed { All (AreListed (length counts.old)) carried.now }
    requires before { first ≤ length carried.now }
    requires counted { AreCounted carried.now first (length counts.old) counts.old }
    ensures { AreCounted carried.now (length carried.now) (length counts.old) counts.new }
{
    for i in first..carried.len() {
        count_row(counts, carried[i].as_slice());
    }
}

/// Counts a row at each column.
fn count_row(counts: &mut [ColumnCounts], sums: &[ColumnSums])
    requires listed { AreListed (length counts.old) sums.now }
    requires few { All (λ old. (old.wide < 2 ^ 33) × (old.positive < 2 ^ 33) × (old.negative < 2 ^ 33)) counts.old }
    ensures { AreCountedIn counts.old sums.now counts.new }
{
    for own in sums {
        counts[own.column] = counted_with(*own, counts[own.column]);
    }
}

/// The counts with one more row.
fn counted_with(own: ColumnSums, counts: ColumnCounts) -> ColumnCounts
    requires { (counts.wide < 2 ^ 33) × (counts.positive < 2 ^ 33) × (counts.negative < 2 ^ 33) }
    ensures { result ≡ counted own counts }
{
    ColumnCounts {
        wide: counts.wide + u64::from(own.gain == WIDE),
        positive: counts.positive + u64::from(own.loss < own.gain),
        negative: counts.negative + u64::from(own.gain < own.loss),
    }
}

/// Takes a row, which was counted, off the counts of each column.
pub(crate) fn uncount_row(counts: &mut [ColumnCounts], sums: &[ColumnSums])
    requires listed { AreListed (length counts.old) sums.now }
    requires included { AreIncluded sums.now counts.old }
    ensures { AreCountedIn counts.new sums.now counts.old }
{
    for own in sums {
        counts[own.column] = counted_without(*own, counts[own.column]);
    }
}

/// The counts without one of their rows.
fn counted_without(own: ColumnSums, counts: ColumnCounts) -> ColumnCounts
    requires { IsIncluded own counts }
    ensures { counted own result ≡ counts }
{
    ColumnCounts {
        wide: counts.wide - u64::from(own.gain == WIDE),
        positive: counts.positive - u64::from(own.loss < own.gain),
        negative: counts.negative - u64::from(own.gain < own.loss),
    }
}
