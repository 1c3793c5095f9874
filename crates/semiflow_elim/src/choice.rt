ghost use Rattle.std.specs.Prelude.{◌≡◌, ℕ, ◌+◌, ◌-◌, ◌*◌, ◌<◌, ◌≤◌, ◌^◌, ◌⊎◌, Bool, List, Some, false};
ghost use Rattle.std.specs.Prelude.{IfOk, OnOk, IfErr, IsTrue, length};
ghost use Rattle.net_values.specs.PlaceSets.{has};
ghost use Rattle.incidence.specs.Tables.{matrix_of};
ghost use Rattle.semiflow_elim.specs.Bases.{in_set};
ghost use Rattle.semiflow_elim.specs.Carried.{CarryTheirs};
ghost use Rattle.semiflow_elim.specs.Choices.{IsBeaten, IsBest, NoneWide, IsFirstCounted};
ghost use Rattle.semiflow_elim.specs.Counts.{AreCounted, candidates_at, counts_of};
ghost use Rattle.semiflow_elim.specs.Elimination.{AreNarrowOutside, FailsBy, IsChosen, candidate_count};

use crate::carried_rows::CarriedRows;
use crate::counts::ColumnCounts;
use crate::fault::ElimFault;
use incidence::Incidence;
use net_values::PlaceSet;

/// A column with the number of its candidates.
#[derive(Clone, Copy)]
pub(crate) struct Choice {
    pub column: usize,
    pub count: u64,
}

/// The column outside a set with the fewest candidates, the lowest of these, by the counts of the columns. `WideSum` comes with the lowest
/// column outside the set at which a sum of a row exceeds 2^127 - 1.
pub(crate) fn chosen_column(
    matrix: &Incidence,
    taken: &PlaceSet,
    rows: &CarriedRows,
    counts: &[ColumnCounts],
) -> Result<Choice, ElimFault>
    requires columns { length taken.now ≡ (matrix_of matrix.now).columns }
    requires left { (j : ℕ) × (j < length taken.now) × (has taken.now j ≡ false) }
    requires carried { CarryTheirs (matrix_of matrix.now) (in_set taken.now) rows.now.vectors.items rows.now.sums.items }
    requires counted { AreCounted rows.now.sums.items (length rows.now.sums.items) (matrix_of matrix.now).columns counts.now }
    requires few { length rows.now.vectors.items < 2 ^ 32 }
    ensures chosen { IfOk result (λ choice.
        IsChosen (matrix_of matrix.now) (in_set taken.now) rows.now.vectors.items choice.column) }
    ensures count { IfOk result (λ choice.
        choice.count ≡ candidate_count (matrix_of matrix.now) choice.column rows.now.vectors.items) }
    ensures narrow { OnOk result (AreNarrowOutside (matrix_of matrix.now) (in_set taken.now) rows.now.vectors.items) }
    ensures fails { (budget : ℕ) → IfErr result (λ fault.
        FailsBy (matrix_of matrix.now) budget (in_set taken.now) rows.now.vectors.items fault) }
{
    match best_of(counts, taken, rows.sums.len()) {
        Ok(choice) => Ok(choice),
        Err(column) => Err(ElimFault::WideSum(column)),
    }
}

/// The column outside a set with the fewest candidates, or the lowest one with a wide sum. Most columns have no
/// fewer than the best so far, and of these it isn't asked whether they are in the set.
fn best_of(counts: &[ColumnCounts], taken: &PlaceSet, total: usize) -> Result<Choice, usize>
    requires columns { length taken.now ≡ length counts.now }
    requires left { (j : ℕ) × (j < length taken.now) × (has taken.now j ≡ false) }
    requires few { total < 2 ^ 32 }
    requires within { (j : ℕ) → j < length counts.now →
        (counts_of counts.now j).positive + (counts_of counts.now j).negative ≤ total }
    ensures best { IfOk result (λ choice.
        IsBest taken.now (candidates_at counts.now total) (length counts.now) (Some choice)) }
    ensures narrow { OnOk result (NoneWide taken.now counts.now (length counts.now)) }
    ensures wide { IfErr result (λ column. IsFirstCounted taken.now counts.now column) }
{
    let mut best = None;
    for j in 0..counts.len() {
        let count = candidates(counts[j], total as u64);
        if counts[j].wide > 0 || is_fewer(count, best) {
            if !taken.contains(j) {
                if counts[j].wide > 0 {
                    return Err(j);
                }
                best = Some(Choice { column: j, count });
            }
        }
    }
    match best {
        Some(choice) => Ok(choice),
        None => unreachable!(),
    }
}

/// The number of candidates of a column, of so many rows in all.
fn candidates(own: ColumnCounts, total: u64) -> u64
    requires few { total < 2 ^ 32 }
    requires within { own.positive + own.negative ≤ total }
    ensures { result ≡ (total - (own.positive + own.negative)) + own.positive * own.negative }
{
    total - (own.positive + own.negative) + own.positive * own.negative
}

/// Whether a number of candidates is less than that of the best choice so far, if any.
fn is_fewer(count: u64, best: Option<Choice>) -> bool
    ensures fewer { IsTrue result → IsBeaten best count }
    ensures kept { (taken : List Bool) (count_at : ℕ → ℕ) (column : ℕ) → result ≡ false → count ≡ count_at column →
        IsBest taken count_at column best → IsBest taken count_at (column + 1) best }
{
    match best {
        Some(choice) => count < choice.count,
        None => true,
    }
}
