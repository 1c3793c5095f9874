ghost use Rattle.std.specs.Prelude.{◌≡◌, ◌<◌, OkIff, IfOk, length, pos, slice_index, ℕ, false};
ghost use Rattle.net_values.specs.PlaceSets.{has};
ghost use Rattle.net_values.specs.FlatNets.{net_of};
ghost use Rattle.incidence.specs.Matrix.{AreNarrow, gain_sum, loss_sum, incidence_of, extended_of, transposed, entry_of};
ghost use Rattle.incidence.specs.Tables.{matrix_of, IsIncidence};

use crate::side::Side;
use crate::sparse::SparseTable;
use crate::units::add_units;
use crate::wide_sum::WideSum;
use net_values::{FlatNet, NoMemory, PlaceSet, Vector};
use std::alloc::Global;
use std::marker::Model;

/// A matrix of whole numbers with at most `MAX_ENTRIES` rows and columns, which keeps its nonzero entries
/// only. Contracts see the table of the positive entries and that of the negated negative ones.
#[derive(Drop)]
pub struct Incidence {
    gains: SparseTable,
    losses: SparseTable,
}

impl Model for Incidence {
    ghost use Rattle.incidence.specs.Tables.{Tables, IsIncidence};

    ghost Value = { Tables };

    ghost view = { λ m. record { gains = m.gains; losses = m.losses } };

    ghost invariant = { λ m. IsIncidence record { gains = m.gains; losses = m.losses } };
}

impl Incidence {
    /// The incidence of a net: a row per place, a column per transition, and the entries `Post - Pre`.
    pub fn of(alloc: Global, net: &FlatNet) -> Result<Incidence, NoMemory>
        ensures { IfOk result (λ m. matrix_of m ≡ incidence_of (net_of net.now)) }
    {
        Ok(Incidence {
            gains: Side::Gain.table(alloc, net)?,
            losses: Side::Loss.table(alloc, net)?,
        })
    }

    /// The extended incidence of a net: below the rows of its places a row per transition, with a 1 at the
    /// transition's own column and 0 elsewhere. Its semiflows are the sub-semiflows of the places, each with
    /// what the weighted tokens lose at each transition.
    pub fn extended(alloc: Global, net: &FlatNet) -> Result<Incidence, NoMemory>
        ensures { IfOk result (λ m. matrix_of m ≡ extended_of (net_of net.now)) }
    {
        let mut gains = Side::Gain.table(alloc, net)?;
        let mut losses = Side::Loss.table(alloc, net)?;
        add_units(&mut gains, net)?;
        losses.add_rows(net.transitions());
        Ok(Incidence { gains, losses })
    }

    /// The matrix with rows and columns exchanged.
    pub fn transpose(&self, alloc: Global) -> Result<Incidence, NoMemory>
        ensures { IfOk result (λ m. matrix_of m ≡ transposed (matrix_of self.now)) }
    {
        Ok(Incidence {
            gains: self.gains.transpose(alloc)?,
            losses: self.losses.transpose(alloc)?,
        })
    }

    /// The number of rows, which is at most `MAX_ENTRIES`.
    pub fn rows(&self) -> usize
        ensures value { result ≡ (matrix_of self.now).rows }
        ensures limits { IsIncidence self.now }
    {
        self.gains.height()
    }

    /// The number of columns, which is at most `MAX_ENTRIES`.
    pub fn columns(&self) -> usize
        ensures value { result ≡ (matrix_of self.now).columns }
        ensures limits { IsIncidence self.now }
    {
        self.gains.width()
    }

    /// The entry at a row and a column.
    pub fn entry(&self, row: usize, column: usize) -> i128
        requires row { row < (matrix_of self.now).rows }
        requires column { column < (matrix_of self.now).columns }
        ensures { result ≡ entry_of (matrix_of self.now) row column }
    {
        self.gains.get(row, column) as i128 - self.losses.get(row, column) as i128
    }

    /// Puts the rows with a nonzero entry at a column into a set, with a place per row, and leaves its other
    /// members. It takes no memory.
    pub fn mark_rows(&self, column: usize, rows: &mut PlaceSet)
        requires size { length rows.old ≡ (matrix_of self.now).rows }
        requires column { column < (matrix_of self.now).columns }
        ensures size { length rows.new ≡ length rows.old }
        ensures gains { (i : ℕ) → has rows.new i ≡ false → (matrix_of self.now).gain i column ≡ 0 }
        ensures losses { (i : ℕ) → has rows.new i ≡ false → (matrix_of self.now).loss i column ≡ 0 }
    {
        self.gains.mark_rows(column, rows);
        self.losses.mark_rows(column, rows);
    }

    /// The two sums of a vector, with an entry per row, at a column: over the positive entries, and over
    /// the negated negative ones. `WideSum` comes where either exceeds 2^127 - 1.
    pub fn sums(&self, y: &Vector, column: usize) -> Result<(i128, i128), WideSum>
        requires size { length y.now ≡ (matrix_of self.now).rows }
        requires column { column < (matrix_of self.now).columns }
        ensures { let m = matrix_of self.now in
            OkIff result (AreNarrow m column (slice_index y.now)) (pos (gain_sum m column (slice_index y.now)), pos (loss_sum m column (slice_index y.now))) }
    {
        let gain = self.gains.weighted_sum(y, column)?;
        let loss = self.losses.weighted_sum(y, column)?;
        Ok((gain as i128, loss as i128))
    }
}
