ghost use Rattle.std.specs.Prelude.{◌≡◌, ◌⊎◌, ◌↔◌, ◌<◌, IsTrue, MatchBool, length};
ghost use Rattle.incidence.specs.Tables.{matrix_of};
ghost use Rattle.semiflow_elim.specs.Adjacent.{AreAdjacent, HasOne, IsInUnion, IsThird};
ghost use Rattle.semiflow_elim.specs.Candidates.{IsStep};

use crate::step::Step;
use net_values::Vector;

/// Whether no third row has a support in the union of those of the rows `i` and `k`. Where one of the two has one
/// positive entry only there is no third one: a row with this entry would have that row in it, and one without
/// would be in the other. Else all rows are gone over, since a third row may have any sign.
pub(crate) fn are_adjacent(step: &Step<'_>, i: usize, k: usize) -> bool
    requires step { let given = step.now in
        IsStep (matrix_of given.matrix.now) given.column given.rows.now given.sums.now }
    requires first { i < length step.now.rows.now }
    requires second { k < length step.now.rows.now }
    ensures { let given = step.now in
        IsTrue result ↔ AreAdjacent (matrix_of given.matrix.now) given.rows.now i k }
{
    if has_one(&step.rows[i]) {
        return true;
    }
    if has_one(&step.rows[k]) {
        return true;
    }
    for j in 0..step.rows.len() {
        if is_third(step, i, k, j) {
            return false;
        }
    }
    true
}

/// Whether row `j` is a third row with its support in the union of those of the rows `i` and `k`.
fn is_third(step: &Step<'_>, i: usize, k: usize, j: usize) -> bool
    requires step { let given = step.now in
        IsStep (matrix_of given.matrix.now) given.column given.rows.now given.sums.now }
    requires first { i < length step.now.rows.now }
    requires second { k < length step.now.rows.now }
    requires third { j < length step.now.rows.now }
    ensures { let given = step.now in MatchBool result
        (IsThird (matrix_of given.matrix.now) given.rows.now i k j)
        (IsInUnion (matrix_of given.matrix.now) given.rows.now i k j → (j ≡ i) ⊎ (j ≡ k)) }
{
    let rows = step.rows;
    if j == i {
        return false;
    }
    if j == k {
        return false;
    }
    rows[j]
        .support()
        .is_within_either(rows[i].support(), rows[k].support())
}

/// Whether a row has only one positive entry.
fn has_one(row: &Vector) -> bool
    ensures { IsTrue result → HasOne row.now }
{
    let support = row.support();
    let size = support.size();
    let Some(first) = support.first_from(0) else {
        return false;
    };
    if first + 1 == size {
        return true;
    }
    match support.first_from(first + 1) {
        Some(_) => false,
        None => true,
    }
}
