ghost use Rattle.std.specs.Prelude.{◌≡◌, ℕ, ◌+◌, ◌<◌, ◌≤◌, ◌^◌, ◌⊎◌, IfOk, OnOk, OnErr, IfErr};
ghost use Rattle.std.specs.Prelude.{All, false, true, length, replicate, slice_set};
ghost use Rattle.net_values.specs.PlaceSets.{has};
ghost use Rattle.incidence.specs.Tables.{matrix_of};
ghost use Rattle.semiflow_elim.specs.Added.{IsAdded};
ghost use Rattle.semiflow_elim.specs.Bases.{IsBasis, AreMinimal, AreUnits, in_set};
ghost use Rattle.semiflow_elim.specs.Candidates.{signs_total};
ghost use Rattle.semiflow_elim.specs.Carried.{CarryTheirs};
ghost use Rattle.semiflow_elim.specs.Counts.{AreCounted};
ghost use Rattle.semiflow_elim.specs.Elimination.{Passes, FailsBy};
ghost use Rattle.semiflow_elim.specs.Tableaus.{size_of};

use crate::candidates::join_all;
use crate::carried::{ColumnSums, unit_sums};
use crate::carried_rows::CarriedRows;
use crate::choice::chosen_column;
use crate::counts::{ColumnCounts, count_rows, count_signs};
use crate::fault::ElimFault;
use crate::kept::keep_zeros;
use crate::row_arithmetic::RowFault;
use crate::signs::{RowSums, Signs, row_signs};
use crate::step::Step;
use incidence::Incidence;
use net_values::{List, MAX_ENTRIES, NoMemory, PlaceSet, Rows, Vector};
use std::alloc::Global;
use std::marker::Model;

/// The semiflows of minimal support over the columns of a matrix that were taken.
#[derive(Drop)]
pub struct Tableau<'m> {
    matrix: &'m Incidence,
    alloc: Global,
    taken: PlaceSet,
    done: usize,
    rows: CarriedRows,
    counts: Vec<ColumnCounts>,
}

impl<'m> Model for Tableau<'m> {
    ghost use Rattle.semiflow_elim.specs.Tableaus.{TableauValue, IsTableau};

    ghost Value = { TableauValue };

    ghost view = { λ t. record { tables = t.matrix.now; taken = t.taken; rows = t.rows.vectors.items } };

    ghost invariant = { λ t. IsTableau record {
      tables = t.matrix.now;
      taken = t.taken;
      rows = t.rows.vectors.items;
    } t.done t.rows.sums.items t.counts.items };
}

impl<'m> Tableau<'m> {
    /// The tableau with no column taken.
    pub fn start(alloc: Global, matrix: &'m Incidence) -> Result<Tableau<'m>, NoMemory>
        ensures matrix { IfOk result (λ tableau. tableau.tables ≡ matrix.now) }
        ensures none { IfOk result (λ tableau.
            tableau.taken ≡ replicate (matrix_of matrix.now).columns false) }
    {
        let taken = PlaceSet::new(alloc, matrix.columns())?;
        let vectors = unit_rows(alloc, matrix.rows())?;
        let sums = all_sums(alloc, matrix, &taken, vectors.as_slice())?;
        let counts = count_signs(alloc, matrix.columns(), sums.as_slice())?;
        Ok(Tableau {
            matrix,
            alloc,
            taken,
            done: 0,
            rows: CarriedRows { vectors, sums },
            counts,
        })
    }

    /// The number of columns that were taken.
    pub fn done(&self) -> usize
        ensures value { result ≡ size_of self.now.taken }
        ensures columns { length self.now.taken ≡ (matrix_of self.now.tables).columns }
        ensures minimal { AreMinimal (matrix_of self.now.tables) (in_set self.now.taken) self.now.rows }
    {
        self.done
    }

    /// Whether a column was taken.
    pub fn taken(&self, column: usize) -> bool
        requires { column < (matrix_of self.now.tables).columns }
        ensures { result ≡ has self.now.taken column }
    {
        self.taken.contains(column)
    }

    /// Takes the column with the fewest candidates, at most `rows` of them; of several such columns the
    /// lowest. A refusal leaves the tableau unchanged: first `WideSum` with the lowest column that wasn't taken
    /// where a sum of a row exceeds 2^127 - 1, then `RowBudget` with the column and the number of candidates
    /// where there are more, then `WideRow` with the column where an entry of a pair's combination exceeds
    /// 2^127 - 1 before it is divided; `NoMemory` at any time.
    pub fn step(&mut self, rows: u32) -> Result<(), ElimFault>
        requires { size_of self.old.taken < (matrix_of self.old.tables).columns }
        ensures ok { OnOk result ((column : ℕ) × (self.new.taken ≡ slice_set self.old.taken column true) ×
            Passes (matrix_of self.old.tables) rows (in_set self.old.taken) self.old.rows column) }
        ensures count { OnOk result (size_of self.new.taken ≡ size_of self.old.taken + 1) }
        ensures matrix { self.new.tables ≡ self.old.tables }
        ensures err { OnErr result (self.new ≡ self.old) }
        ensures fails { IfErr result (λ fault. (fault ≡ ElimFault.NoMemory) ⊎
            FailsBy (matrix_of self.old.tables) rows (in_set self.old.taken) self.old.rows fault) }
    {
        let column = take_column(
            self.alloc,
            self.matrix,
            &self.taken,
            &mut self.rows,
            self.counts.as_mut_slice(),
            rows,
        )?;
        self.taken.insert(column);
        self.done += 1;
        Ok(())
    }

    /// The rows, which are exactly the semiflows of minimal support over the columns that were
    /// taken. The support of each semiflow over these columns has that of a row in it.
    pub fn into_rows(self) -> Rows
        ensures rows { result ≡ self.entry.rows }
        ensures minimal { AreMinimal (matrix_of self.entry.tables) (in_set self.entry.taken) self.entry.rows }
        ensures basis { IsBasis (matrix_of self.entry.tables) (in_set self.entry.taken) self.entry.rows }
    {
        let rows = self.rows;
        Rows::from_members(rows.vectors)
    }
}

/// Takes a column, which it gives: the combinations of the adjacent pairs are added, and of the others the zero
/// rows stay. The counts of the columns follow the rows.
fn take_column(
    alloc: Global,
    matrix: &Incidence,
    taken: &PlaceSet,
    rows: &mut CarriedRows,
    counts: &mut [ColumnCounts],
    budget: u32,
) -> Result<usize, ElimFault>
    requires columns { length taken.now ≡ (matrix_of matrix.now).columns }
    requires left { (j : ℕ) × (j < length taken.now) × (has taken.now j ≡ false) }
    requires basis { IsBasis (matrix_of matrix.now) (in_set taken.now) rows.old.vectors.items }
    requires carried { CarryTheirs (matrix_of matrix.now) (in_set taken.now) rows.old.vectors.items rows.old.sums.items }
    requires counted { AreCounted rows.old.sums.items (length rows.old.sums.items) (matrix_of matrix.now).columns counts.old }
    requires few { length rows.old.vectors.items < 2 ^ 32 }
    ensures basis { IfOk result (λ column.
        IsBasis (matrix_of matrix.now) (in_set (slice_set taken.now column true)) rows.new.vectors.items) }
    ensures carried { IfOk result (λ column.
        CarryTheirs (matrix_of matrix.now) (in_set (slice_set taken.now column true)) rows.new.vectors.items rows.new.sums.items) }
    ensures few { OnOk result (length rows.new.vectors.items < 2 ^ 32) }
    ensures counted { OnOk result
        (AreCounted rows.new.sums.items (length rows.new.sums.items) (matrix_of matrix.now).columns counts.new) }
    ensures passes { IfOk result (λ column.
        Passes (matrix_of matrix.now) budget (in_set taken.now) rows.old.vectors.items column) }
    ensures same_vectors { OnErr result (rows.new.vectors.items ≡ rows.old.vectors.items) }
    ensures same_sums { OnErr result (rows.new.sums.items ≡ rows.old.sums.items) }
    ensures same_counts { OnErr result (counts.new ≡ counts.old) }
    ensures fails { IfErr result (λ fault. (fault ≡ ElimFault.NoMemory) ⊎
        FailsBy (matrix_of matrix.now) budget (in_set taken.now) rows.old.vectors.items fault) }
{
    let added = added_rows(alloc, matrix, taken, rows, counts, budget)?;
    let Added {
        column,
        sums,
        joined,
    } = added;
    let before = rows.sums.len();
    if rows.append(joined).is_err() {
        return Err(ElimFault::NoMemory);
    }
    count_rows(counts, rows.sums.as_slice(), before);
    keep_zeros(rows, counts, sums.as_slice());
    Ok(column)
}

/// What a step adds: its column, the two sums of each row there, and the combinations of the adjacent pairs.
struct Added {
    column: usize,
    sums: Vec<RowSums>,
    joined: CarriedRows,
}

/// What the step from a set of columns adds.
fn added_rows(
    alloc: Global,
    matrix: &Incidence,
    taken: &PlaceSet,
    rows: &CarriedRows,
    counts: &[ColumnCounts],
    budget: u32,
) -> Result<Added, ElimFault>
    requires columns { length taken.now ≡ (matrix_of matrix.now).columns }
    requires left { (j : ℕ) × (j < length taken.now) × (has taken.now j ≡ false) }
    requires basis { IsBasis (matrix_of matrix.now) (in_set taken.now) rows.now.vectors.items }
    requires carried { CarryTheirs (matrix_of matrix.now) (in_set taken.now) rows.now.vectors.items rows.now.sums.items }
    requires counted { AreCounted rows.now.sums.items (length rows.now.sums.items) (matrix_of matrix.now).columns counts.now }
    requires few { length rows.now.vectors.items < 2 ^ 32 }
    ensures added { IfOk result (λ added.
        IsAdded (matrix_of matrix.now) added.column rows.now.vectors.items added.sums.items added.joined.vectors.items) }
    ensures carried { IfOk result (λ added. CarryTheirs (matrix_of matrix.now)
        (in_set (slice_set taken.now added.column true)) added.joined.vectors.items added.joined.sums.items) }
    ensures budget { IfOk result (λ added. signs_total added.sums.items ≤ budget) }
    ensures passes { IfOk result (λ added.
        Passes (matrix_of matrix.now) budget (in_set taken.now) rows.now.vectors.items added.column) }
    ensures fails { IfErr result (λ fault. (fault ≡ ElimFault.NoMemory) ⊎
        FailsBy (matrix_of matrix.now) budget (in_set taken.now) rows.now.vectors.items fault) }
{
    let choice = chosen_column(matrix, taken, rows, counts)?;
    let column = choice.column;
    if choice.count > u64::from(budget) {
        return Err(ElimFault::RowBudget(column, choice.count));
    }
    let many = counts[column].positive > 1 || counts[column].negative > 1;
    let Ok(signs) = row_signs(alloc, column, rows, many) else {
        return Err(ElimFault::NoMemory);
    };
    let Signs {
        sums,
        positive,
        negative,
    } = signs;
    let Ok(mut after) = taken.copy(alloc) else {
        return Err(ElimFault::NoMemory);
    };
    after.insert(column);
    let step = Step {
        matrix,
        column,
        after: &after,
        rows: rows.vectors.as_slice(),
        carried: rows.sums.as_slice(),
        sums: sums.as_slice(),
        positive: positive.as_slice(),
        negative: negative.as_slice(),
    };
    match join_all(alloc, &step) {
        Ok(joined) => Ok(Added {
            column,
            sums,
            joined,
        }),
        Err(RowFault::Wide) => Err(ElimFault::WideRow(column)),
        Err(RowFault::NoMemory) => Err(ElimFault::NoMemory),
    }
}

/// The sums of each unit row at each column outside a set.
fn all_sums(
    alloc: Global,
    matrix: &Incidence,
    taken: &PlaceSet,
    rows: &[Vector],
) -> Result<Vec<List<ColumnSums>>, NoMemory>
    requires columns { length taken.now ≡ (matrix_of matrix.now).columns }
    requires units { AreUnits (matrix_of matrix.now).rows rows.now (matrix_of matrix.now).rows }
    ensures { IfOk result (λ sums. CarryTheirs (matrix_of matrix.now) (in_set taken.now) rows.now sums.items) }
{
    let turned = matrix.transpose(alloc)?;
    let mut sums = Vec::with_capacity(alloc, rows.len())?;
    for i in 0..rows.len() {
        sums.push(unit_sums(alloc, matrix, &turned, taken, i, &rows[i])?)?;
    }
    Ok(sums)
}

/// The rows with a 1 at one position each and 0 elsewhere.
fn unit_rows(alloc: Global, count: usize) -> Result<Vec<Vector>, NoMemory>
    requires { count ≤ MAX_ENTRIES }
    ensures { IfOk result (λ rows. AreUnits count rows.items count) }
{
    let mut rows = Vec::new(alloc);
    for i in 0..count {
        let mut row = Vector::zeros(alloc, count)?;
        row.set(i, 1);
        rows.push(row)?;
    }
    Ok(rows)
}
