ghost use Rattle.std.specs.Prelude.{◌≡◌, ℕ, ◌+◌, ◌≤◌, All, Bool, IfOk, OnOk, length, slice_index};
ghost use Rattle.semiflow_elim.specs.Candidates.{AreRead, IsRead};
ghost use Rattle.semiflow_elim.specs.Carried.{AreListed};
ghost use Rattle.semiflow_elim.specs.Numbers.{AreNumbers, gains_at, loses_at};

use crate::carried::{ColumnSums, WIDE, find_sums};
use crate::carried_rows::CarriedRows;
use crate::row_arithmetic::largest;
use net_values::{NoMemory, Vector};
use std::alloc::Global;

/// The two sums of a row at a column, and a number that no entry exceeds where they differ.
#[derive(Clone, Copy)]
pub(crate) struct RowSums {
    pub gain: u128,
    pub loss: u128,
    pub largest: u128,
}

/// The two sums of each row at a column, and the rows where they differ, in ascending order.
pub(crate) struct Signs {
    pub sums: Vec<RowSums>,
    pub positive: Vec<usize>,
    pub negative: Vec<usize>,
}

/// The signs of the rows at a column, from what the rows carry. Of the rows that are in few pairs the largest entry
/// isn't looked for.
pub(crate) fn row_signs(
    alloc: Global,
    column: usize,
    rows: &CarriedRows,
    many: bool,
) -> Result<Signs, NoMemory>
    requires size { length rows.now.sums.items ≡ length rows.now.vectors.items }
    requires listed { (width : ℕ) × All (AreListed width) rows.now.sums.items }
    ensures sums { IfOk result (λ signs.
        AreRead column rows.now.vectors.items rows.now.sums.items signs.sums.items (length rows.now.vectors.items)) }
    ensures positive { IfOk result (λ signs.
        AreNumbers (gains_at signs.sums.items) (length rows.now.vectors.items) signs.positive.items) }
    ensures negative { IfOk result (λ signs.
        AreNumbers (loses_at signs.sums.items) (length rows.now.vectors.items) signs.negative.items) }
{
    let none = RowSums {
        gain: 0,
        loss: 0,
        largest: 0,
    };
    let mut sums = vec![in alloc; none; rows.vectors.len()]?;
    let (mut positive, mut negative) = (Vec::new(alloc), Vec::new(alloc));
    for i in 0..rows.vectors.len() {
        if let Some(own) = find_sums(rows.sums[i].as_slice(), column) {
            push_where(&mut positive, own.loss < own.gain, i)?;
            push_where(&mut negative, own.gain < own.loss, i)?;
            sums[i] = signed(own, &rows.vectors[i], many);
        }
    }
    Ok(Signs {
        sums,
        positive,
        negative,
    })
}

/// Appends a number where a test holds at it.
fn push_where(numbers: &mut Vec<usize>, holds: bool, number: usize) -> Result<(), NoMemory>
    ensures { OnOk result ((test : ℕ → Bool) → test number ≡ holds →
        AreNumbers test number numbers.old.items → AreNumbers test (number + 1) numbers.new.items) }
{
    if holds {
        numbers.push(number)?;
    }
    Ok(())
}

/// The sums of a row with a number that no entry exceeds where they differ.
fn signed(own: ColumnSums, row: &Vector, many: bool) -> RowSums
    ensures { IsRead row.now own result }
{
    let largest = if own.gain == own.loss {
        0
    } else {
        ceiling(row, many)
    };
    RowSums {
        gain: own.gain,
        loss: own.loss,
        largest,
    }
}

/// A number that no entry of a row exceeds: the largest entry where the row may be in many pairs, which is then worth
/// a look at all of them.
fn ceiling(row: &Vector, many: bool) -> u128
    ensures { (i : ℕ) → slice_index row.now i ≤ result }
{
    let _walk = row.walk();
    if many { largest(row) } else { WIDE }
}
