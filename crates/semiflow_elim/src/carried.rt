ghost use Rattle.std.specs.Prelude.{◌≡◌, ℕ, ◌<◌, ◌≤◌, IfOk, MatchOption, false, length, replicate, slice_index, slice_set};
ghost use Rattle.net_values.specs.PlaceSets.{has};
ghost use Rattle.incidence.specs.Matrix.{gain_sum, loss_sum, transposed};
ghost use Rattle.incidence.specs.Tables.{matrix_of};
ghost use Rattle.semiflow_elim.specs.Bases.{in_set};
ghost use Rattle.semiflow_elim.specs.Carried.{AreCarried, AreListed, AreSumsAt, sums_in};

use incidence::{Incidence, WideSum};
use net_values::{List, MAX_ENTRIES, NoMemory, PlaceSet, Vector};
use std::alloc::Global;

/// Stands for a sum that exceeds 2^127 - 1.
pub(crate) const WIDE: u128 = 1 << 127;

/// The two sums of a row at a column. Where one exceeds 2^127 - 1 the gain is `WIDE`.
#[derive(Clone, Copy)]
pub(crate) struct ColumnSums {
    pub column: usize,
    pub gain: u128,
    pub loss: u128,
}

/// The sums of the unit row at a position, at each column outside a set. The transposed matrix tells at which
/// columns the row has sums other than 0.
pub(crate) fn unit_sums(
    alloc: Global,
    matrix: &Incidence,
    turned: &Incidence,
    taken: &PlaceSet,
    position: usize,
    row: &Vector,
) -> Result<List<ColumnSums>, NoMemory>
    requires turned { matrix_of turned.now ≡ transposed (matrix_of matrix.now) }
    requires columns { length taken.now ≡ (matrix_of matrix.now).columns }
    requires position { position < (matrix_of matrix.now).rows }
    requires unit { row.now ≡ slice_set (replicate (matrix_of matrix.now).rows 0) position 1 }
    ensures { IfOk result (λ sums.
        AreCarried (matrix_of matrix.now) (in_set taken.now) row.now (matrix_of matrix.now).columns sums) }
{
    let mut touched = PlaceSet::new(alloc, turned.rows())?;
    turned.mark_rows(position, &mut touched);
    carried_sums(alloc, matrix, taken, &touched, row)
}

/// The sums of a row at each column outside a set, in the order of the columns and without those that are both 0.
/// The row has sums other than 0 only at the touched columns.
fn carried_sums(
    alloc: Global,
    matrix: &Incidence,
    taken: &PlaceSet,
    touched: &PlaceSet,
    row: &Vector,
) -> Result<List<ColumnSums>, NoMemory>
    requires columns { length taken.now ≡ (matrix_of matrix.now).columns }
    requires touched { length touched.now ≡ (matrix_of matrix.now).columns }
    requires few { length touched.now ≤ MAX_ENTRIES }
    requires size { length row.now ≡ (matrix_of matrix.now).rows }
    requires gains { (j : ℕ) → has touched.now j ≡ false → gain_sum (matrix_of matrix.now) j (slice_index row.now) ≡ 0 }
    requires losses { (j : ℕ) → has touched.now j ≡ false → loss_sum (matrix_of matrix.now) j (slice_index row.now) ≡ 0 }
    ensures { IfOk result (λ sums.
        AreCarried (matrix_of matrix.now) (in_set taken.now) row.now (matrix_of matrix.now).columns sums) }
{
    let mut sums = List::new(alloc);
    let mut from = 0;
    'columns: while let Some(column) = touched.first_from(from) {
        if !taken.contains(column) {
            let own = sums_at(matrix, column, row);
            if own.gain != 0 || own.loss != 0 {
                sums.push(own)?;
            }
        }
        from = column + 1;
    }
    Ok(sums)
}

/// The two sums of a row at a column.
pub(crate) fn sums_at(matrix: &Incidence, column: usize, row: &Vector) -> ColumnSums
    requires column { column < (matrix_of matrix.now).columns }
    requires size { length row.now ≡ (matrix_of matrix.now).rows }
    ensures sums { AreSumsAt (matrix_of matrix.now) column (slice_index row.now) result }
    ensures column { result.column ≡ column }
{
    match matrix.sums(row, column) {
        Ok((gain, loss)) => ColumnSums {
            column,
            gain: gain.unsigned_abs(),
            loss: loss.unsigned_abs(),
        },
        Err(WideSum) => ColumnSums {
            column,
            gain: WIDE,
            loss: 0,
        },
    }
}

/// The sums of a column in a list of them. Where there are none, both are 0. The list is in the order of the columns,
/// so it isn't read beyond this one.
pub(crate) fn find_sums(sums: &[ColumnSums], column: usize) -> Option<ColumnSums>
    requires { (width : ℕ) × AreListed width sums.now }
    ensures { MatchOption result
        (sums_in sums.now column ≡ record { column = column; gain = 0; loss = 0 })
        (λ own. own ≡ sums_in sums.now column) }
{
    for own in sums {
        if own.column == column {
            return Some(*own);
        }
        if column < own.column {
            return None;
        }
    }
    None
}
