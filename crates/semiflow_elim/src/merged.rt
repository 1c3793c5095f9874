ghost use Rattle.std.specs.Prelude.{◌≡◌, ℕ, ◌<◌, IfOk, length, slice_index};
ghost use Rattle.incidence.specs.Tables.{matrix_of};
ghost use Rattle.semiflow_elim.specs.Bases.{in_set};
ghost use Rattle.semiflow_elim.specs.Carried.{AreCarried, AreListed, AreSumsAt};
ghost use Rattle.semiflow_elim.specs.Merged.{AreFrom, AreJoint, AreJointAt, AreTaken, IsLowest};

use crate::carried::{ColumnSums, sums_at};
use crate::row_arithmetic::scaled_entry;
use incidence::Incidence;
use net_values::{List, NoMemory, PlaceSet, Vector};
use std::alloc::Global;

/// How a combination is made of two rows: each is multiplied, and the sum is divided.
#[derive(Clone, Copy)]
pub(crate) struct Multiples {
    pub first: u128,
    pub second: u128,
    pub divisor: u128,
}

/// The sums of a combination at each column outside a set, from those of its two rows. Where the multiples leave
/// 128 bits they are computed afresh.
pub(crate) fn merged_sums(
    alloc: Global,
    matrix: &Incidence,
    after: &PlaceSet,
    row: &Vector,
    by: Multiples,
    first: &[ColumnSums],
    second: &[ColumnSums],
) -> Result<List<ColumnSums>, NoMemory>
    requires columns { length after.now ≡ (matrix_of matrix.now).columns }
    requires size { length row.now ≡ (matrix_of matrix.now).rows }
    requires divisor { 0 < by.divisor }
    requires first { AreListed (matrix_of matrix.now).columns first.now }
    requires second { AreListed (matrix_of matrix.now).columns second.now }
    requires joint { AreJoint (matrix_of matrix.now) (in_set after.now) (slice_index row.now) by first.now second.now }
    ensures { IfOk result (λ sums.
        AreCarried (matrix_of matrix.now) (in_set after.now) row.now (matrix_of matrix.now).columns sums) }
{
    let mut sums = List::new(alloc);
    let mut left = first;
    let mut right = second;
    'columns: while let Some(column) = lowest(left, right) {
        let (own, others) = taken_at(left, column);
        let (other, rest) = taken_at(right, column);
        if !after.contains(column) {
            sums.push(joined_at(matrix, column, row, by, own, other))?;
        }
        left = others;
        right = rest;
    }
    Ok(sums)
}

/// The lowest column of two lists of sums.
fn lowest(first: &[ColumnSums], second: &[ColumnSums]) -> Option<usize>
    ensures { (n width : ℕ) → AreFrom n width first.now → AreFrom n width second.now →
        IsLowest width first.now second.now result }
{
    if first.is_empty() {
        if second.is_empty() {
            return None;
        }
        return Some(second[0].column);
    }
    if second.is_empty() {
        return Some(first[0].column);
    }
    Some(first[0].column.min(second[0].column))
}

/// Takes the sums of a column, which is the lowest one or lower, off a list.
fn taken_at(sums: &[ColumnSums], column: usize) -> (ColumnSums, &[ColumnSums])
    ensures { (width : ℕ) → AreFrom column width sums.now → AreTaken width sums.now column result.0 result.1.now }
{
    let none = ColumnSums {
        column,
        gain: 0,
        loss: 0,
    };
    if sums.is_empty() {
        return (none, sums);
    }
    if sums[0].column != column {
        return (none, sums);
    }
    (sums[0], &sums[1..])
}

/// The sums of a combination at a column, from those of its two rows.
fn joined_at(
    matrix: &Incidence,
    column: usize,
    row: &Vector,
    by: Multiples,
    own: ColumnSums,
    other: ColumnSums,
) -> ColumnSums
    requires column { column < (matrix_of matrix.now).columns }
    requires size { length row.now ≡ (matrix_of matrix.now).rows }
    requires divisor { 0 < by.divisor }
    requires joint { AreJointAt (matrix_of matrix.now) column (slice_index row.now) by own other }
    ensures sums { AreSumsAt (matrix_of matrix.now) column (slice_index row.now) result }
    ensures column { result.column ≡ column }
{
    let gain = scaled_entry(by.first, own.gain, by.second, other.gain);
    let loss = scaled_entry(by.first, own.loss, by.second, other.loss);
    match (gain, loss) {
        (Ok(gain), Ok(loss)) => ColumnSums {
            column,
            gain: gain / by.divisor,
            loss: loss / by.divisor,
        },
        _ => sums_at(matrix, column, row),
    }
}
