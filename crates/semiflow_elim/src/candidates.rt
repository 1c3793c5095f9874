ghost use Rattle.std.specs.Prelude.{◌≡◌, ℕ, ◌+◌, ◌-◌, ◌<◌, ◌≤◌};
ghost use Rattle.std.specs.Prelude.{IfOk, OnOk, IfErr, length, slice_index};
ghost use Rattle.incidence.specs.Tables.{matrix_of};
ghost use Rattle.semiflow_elim.specs.Adjacent.{AreJoined};
ghost use Rattle.semiflow_elim.specs.Bases.{in_set};
ghost use Rattle.semiflow_elim.specs.Carried.{CarryTheirs};
ghost use Rattle.semiflow_elim.specs.Candidates.{IsNarrowCombination, IsWideCombination, IsStep, sums_of};
ghost use Rattle.semiflow_elim.specs.Candidates.{pair_offers, row_offers, all_offers};
ghost use Rattle.semiflow_elim.specs.Merged.{AreExact, IsCombinedBy};
ghost use Rattle.semiflow_elim.specs.Elimination.{IsWidePair, row_of};
ghost use Rattle.semiflow_elim.specs.Numbers.{AreNumbers, gains_at, loses_at};

use crate::adjacent::are_adjacent;
use crate::carried_rows::CarriedRows;
use crate::merged::{Multiples, merged_sums};
use crate::row_arithmetic::{RowFault, gcd, gcd_of_all, scaled_entry, scaled_sum};
use crate::signs::RowSums;
use crate::step::Step;
use net_values::Vector;
use std::alloc::Global;

/// The combinations of all adjacent pairs. No pair may have a wide one, adjacent or not.
pub(crate) fn join_all(alloc: Global, step: &Step<'_>) -> Result<CarriedRows, RowFault>
    requires step { let given = step.now in
        IsStep (matrix_of given.matrix.now) given.column given.rows.now given.sums.now }
    requires positive { let given = step.now in
        AreNumbers (gains_at given.sums.now) (length given.rows.now) given.positive.now }
    requires negative { let given = step.now in
        AreNumbers (loses_at given.sums.now) (length given.rows.now) given.negative.now }
    requires after { length step.now.after.now ≡ (matrix_of step.now.matrix.now).columns }
    requires exact { let given = step.now in
        AreExact (matrix_of given.matrix.now) (in_set given.after.now) given.rows.now given.carried.now }
    ensures joined { let given = step.now in IfOk result (λ joined.
        AreJoined (matrix_of given.matrix.now) given.column given.rows.now joined.vectors.items (length given.rows.now) 0) }
    ensures carried { let given = step.now in IfOk result (λ joined.
        CarryTheirs (matrix_of given.matrix.now) (in_set given.after.now) joined.vectors.items joined.sums.items) }
    ensures count { IfOk result (λ joined.
        length joined.vectors.items ≤ all_offers step.now.sums.now (length step.now.rows.now)) }
    ensures wide { let given = step.now in IfErr result (λ fault. fault ≡ RowFault.Wide →
        (i : ℕ) × (k : ℕ) × (i < length given.rows.now) × (k < length given.rows.now) ×
        IsWidePair (matrix_of given.matrix.now) given.column (row_of given.rows.now i) (row_of given.rows.now k)) }
{
    let mut joined = CarriedRows::new(alloc);
    for p in 0..step.positive.len() {
        join_pairs(alloc, step, &mut joined, step.positive[p])?;
    }
    Ok(joined)
}

/// Appends the combinations of row `i`, a positive one.
fn join_pairs(
    alloc: Global,
    step: &Step<'_>,
    joined: &mut CarriedRows,
    i: usize,
) -> Result<(), RowFault>
    requires step { let given = step.now in
        IsStep (matrix_of given.matrix.now) given.column given.rows.now given.sums.now }
    requires negative { let given = step.now in
        AreNumbers (loses_at given.sums.now) (length given.rows.now) given.negative.now }
    requires after { length step.now.after.now ≡ (matrix_of step.now.matrix.now).columns }
    requires exact { let given = step.now in
        AreExact (matrix_of given.matrix.now) (in_set given.after.now) given.rows.now given.carried.now }
    requires joined { let given = step.now in
        AreJoined (matrix_of given.matrix.now) given.column given.rows.now joined.old.vectors.items i 0 }
    requires carried { let given = step.now in
        CarryTheirs (matrix_of given.matrix.now) (in_set given.after.now) joined.old.vectors.items joined.old.sums.items }
    requires first { i < length step.now.rows.now }
    ensures joined { let given = step.now in OnOk result
        (AreJoined (matrix_of given.matrix.now) given.column given.rows.now joined.new.vectors.items (i + 1) 0) }
    ensures carried { let given = step.now in OnOk result
        (CarryTheirs (matrix_of given.matrix.now) (in_set given.after.now) joined.new.vectors.items joined.new.sums.items) }
    ensures count { let given = step.now in OnOk result
        (length joined.new.vectors.items ≤ length joined.old.vectors.items + row_offers (sums_of given.sums.now i) given.sums.now (length given.rows.now)) }
    ensures wide { let given = step.now in IfErr result (λ fault. fault ≡ RowFault.Wide →
        (k : ℕ) × (k < length given.rows.now) ×
        IsWidePair (matrix_of given.matrix.now) given.column (row_of given.rows.now i) (row_of given.rows.now k)) }
{
    for q in 0..step.negative.len() {
        join_pair(alloc, step, joined, i, step.negative[q])?;
    }
    Ok(())
}

/// Appends the combination of rows `i` and `k` where they are an adjacent pair. Of a pair that isn't adjacent
/// only the width is looked at.
fn join_pair(
    alloc: Global,
    step: &Step<'_>,
    joined: &mut CarriedRows,
    i: usize,
    k: usize,
) -> Result<(), RowFault>
    requires step { let given = step.now in
        IsStep (matrix_of given.matrix.now) given.column given.rows.now given.sums.now }
    requires after { length step.now.after.now ≡ (matrix_of step.now.matrix.now).columns }
    requires exact { let given = step.now in
        AreExact (matrix_of given.matrix.now) (in_set given.after.now) given.rows.now given.carried.now }
    requires joined { let given = step.now in
        AreJoined (matrix_of given.matrix.now) given.column given.rows.now joined.old.vectors.items i k }
    requires carried { let given = step.now in
        CarryTheirs (matrix_of given.matrix.now) (in_set given.after.now) joined.old.vectors.items joined.old.sums.items }
    requires first { i < length step.now.rows.now }
    requires second { k < length step.now.rows.now }
    ensures joined { let given = step.now in OnOk result
        (AreJoined (matrix_of given.matrix.now) given.column given.rows.now joined.new.vectors.items i (k + 1)) }
    ensures carried { let given = step.now in OnOk result
        (CarryTheirs (matrix_of given.matrix.now) (in_set given.after.now) joined.new.vectors.items joined.new.sums.items) }
    ensures count { OnOk result
        (length joined.new.vectors.items ≤ length joined.old.vectors.items + pair_offers (sums_of step.now.sums.now i) (sums_of step.now.sums.now k)) }
    ensures wide { let given = step.now in IfErr result (λ fault. fault ≡ RowFault.Wide →
        IsWidePair (matrix_of given.matrix.now) given.column (row_of given.rows.now i) (row_of given.rows.now k)) }
{
    let rows = step.rows;
    let (first, second) = (step.sums[i], step.sums[k]);
    if first.gain <= first.loss || second.loss <= second.gain {
        return Ok(());
    }
    if !are_adjacent(step, i, k) {
        refuse_wide(alloc, &rows[i], &rows[k], first, second)?;
        return Ok(());
    }
    let combined = combined(
        alloc,
        &rows[i],
        &rows[k],
        first.gain - first.loss,
        second.loss - second.gain,
    )?;
    let Ok(sums) = merged_sums(
        alloc,
        step.matrix,
        step.after,
        &combined.row,
        combined.by,
        step.carried[i].as_slice(),
        step.carried[k].as_slice(),
    ) else {
        return Err(RowFault::NoMemory);
    };
    if joined.push(combined.row, sums).is_err() {
        return Err(RowFault::NoMemory);
    }
    Ok(())
}

/// Refuses a positive and a negative row whose combination is wide. The largest entries of the two tell of
/// nearly all that they are narrow.
fn refuse_wide(
    alloc: Global,
    r: &Vector,
    s: &Vector,
    first: RowSums,
    second: RowSums,
) -> Result<(), RowFault>
    requires alike { length r.now ≡ length s.now }
    requires positive { first.loss < first.gain }
    requires negative { second.gain < second.loss }
    requires first_largest { (i : ℕ) → slice_index r.now i ≤ first.largest }
    requires second_largest { (i : ℕ) → slice_index s.now i ≤ second.largest }
    ensures narrow { OnOk result
        (IsNarrowCombination r.now s.now (first.gain - first.loss) (second.loss - second.gain)) }
    ensures wide { IfErr result (λ fault. fault ≡ RowFault.Wide →
        IsWideCombination r.now s.now (first.gain - first.loss) (second.loss - second.gain)) }
{
    let (a, b) = (first.gain - first.loss, second.loss - second.gain);
    if scaled_entry(b, first.largest, a, second.largest).is_ok() {
        return Ok(());
    }
    let g = gcd(a, b);
    let _sum = scaled_sum(alloc, b / g, r, a / g, s)?;
    Ok(())
}

/// The combination of two rows, and how it is made.
#[derive(Drop)]
struct Combination {
    row: Vector,
    by: Multiples,
}

/// The combination of two rows by their differences `a` and `b`, divided by the greatest common
/// divisor of its entries.
fn combined(
    alloc: Global,
    r: &Vector,
    s: &Vector,
    a: u128,
    b: u128,
) -> Result<Combination, RowFault>
    requires alike { length r.now ≡ length s.now }
    requires first { 0 < a }
    requires second { 0 < b }
    requires nonzero { (i : ℕ) × (i < length r.now) × (0 < slice_index r.now i) }
    ensures ok { IfOk result (λ combined. IsCombinedBy r.now s.now a b combined.row combined.by) }
    ensures divisor { IfOk result (λ combined. 0 < combined.by.divisor) }
    ensures wide { IfErr result (λ fault. fault ≡ RowFault.Wide →
        IsWideCombination r.now s.now a b) }
{
    let g = gcd(a, b);
    let first = b / g;
    let second = a / g;
    let mut row = scaled_sum(alloc, first, r, second, s)?;
    let divisor = gcd_of_all(&row);
    row.divide(divisor);
    let by = Multiples {
        first,
        second,
        divisor,
    };
    Ok(Combination { row, by })
}
