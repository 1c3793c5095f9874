ghost use Rattle.std.specs.Prelude.{◌≡◌, [], ◌+◌, ◌*◌, ◌<◌, ◌≤◌, ◌^◌, IfOk, OnOk, OnErr, OkIff, All, length, replicate, slice_index, sum_by, ℕ, false};
ghost use Rattle.net_values.specs.PlaceSets.{has};
ghost use Rattle.incidence.specs.Sums.{sum_below};
ghost use Rattle.incidence.specs.Tables.{IsTable, AddsAt, AddsRow, IsTurned, amount_at, at, column_at};

use crate::wide_sum::{WideSum, add_product};
use net_values::{List, MAX_ENTRIES, NoMemory, PlaceSet, Vector};
use std::alloc::Global;
use std::marker::Model;

/// An amount at a row.
#[derive(Clone, Copy)]
pub struct Amount {
    pub row: usize,
    pub amount: u128,
}

/// A matrix of natural numbers up to 2^127 - 1, which keeps the positive ones only. Contracts see the
/// number of rows and, per column, the list of its amounts.
#[derive(Drop)]
pub struct SparseTable {
    height: usize,
    columns: Vec<List<Amount>>,
}

impl Model for SparseTable {
    ghost use Rattle.incidence.specs.Tables.{Table, IsTable};

    ghost Value = { Table };

    ghost view = { λ s. record { height = s.height; lists = s.columns.items } };

    ghost invariant = { λ s. IsTable record { height = s.height; lists = s.columns.items } };
}

impl SparseTable {
    /// The table of this size that is 0 everywhere.
    pub fn zeros(alloc: Global, height: usize, width: usize) -> Result<SparseTable, NoMemory>
        ensures { IfOk result (λ table. table ≡ record { height = height; lists = replicate width [] }) }
    {
        let mut columns = Vec::with_capacity(alloc, width)?;
        for _column in 0..width {
            columns.push(List::new(alloc))?;
        }
        Ok(SparseTable { height, columns })
    }

    /// The number of rows.
    pub fn height(&self) -> usize
        ensures value { result ≡ self.now.height }
        ensures table { IsTable self.now }
    {
        self.height
    }

    /// The number of columns.
    pub fn width(&self) -> usize
        ensures value { result ≡ length self.now.lists }
        ensures table { IsTable self.now }
    {
        self.columns.len()
    }

    /// The positive amounts of a column.
    pub fn column(&self, column: usize) -> &[Amount]
        requires { column < length self.now.lists }
        ensures value { result.now ≡ column_at self.now column }
        ensures table { IsTable self.now }
    {
        self.columns[column].as_slice()
    }

    /// The amount at a row of a column.
    pub fn get(&self, row: usize, column: usize) -> u128
        requires { column < length self.now.lists }
        ensures value { result ≡ at self.now row column }
        ensures bound { result < 2 ^ 127 }
    {
        amount_of(self.column(column), row)
    }

    /// Adds an amount. A refusal leaves the table unchanged.
    pub fn add(&mut self, row: usize, column: usize, amount: u128) -> Result<(), NoMemory>
        requires row { row < self.old.height }
        requires column { column < length self.old.lists }
        requires narrow { at self.old row column + amount < 2 ^ 127 }
        ensures ok { OnOk result (AddsAt self.old self.new row column amount) }
        ensures err { OnErr result (self.new ≡ self.old) }
    {
        if amount > 0 {
            self.columns[column].push(Amount { row, amount })?;
        }
        Ok(())
    }

    /// Adds this many empty rows below.
    pub fn add_rows(&mut self, count: usize)
        requires { self.old.height + count ≤ MAX_ENTRIES }
        ensures rows { self.new ≡ record { height = self.old.height + count; lists = self.old.lists } }
        ensures table { IsTable self.old }
    {
        self.height += count;
    }

    /// Adds amounts along a row, each at the column that its entry names.
    fn add_row(&mut self, row: usize, amounts: &[Amount]) -> Result<(), NoMemory>
        requires row { row < self.old.height }
        requires within { All (λ entry. entry.row < length self.old.lists) amounts.now }
        requires narrow { (j : ℕ) → at self.old row j + amount_at amounts.now j < 2 ^ 127 }
        ensures { OnOk result (AddsRow self.old self.new row amounts.now) }
    {
        for entry in amounts {
            self.add(row, entry.row, entry.amount)?;
        }
        Ok(())
    }

    /// The table with rows and columns exchanged.
    pub fn transpose(&self, alloc: Global) -> Result<SparseTable, NoMemory>
        ensures { IfOk result (λ table. IsTurned self.now table) }
    {
        let mut turned = SparseTable::zeros(alloc, self.width(), self.height())?;
        for column in 0..self.width() {
            turned.add_row(column, self.column(column))?;
        }
        Ok(turned)
    }

    /// Puts the rows of a column's positive amounts into a set, and leaves its other members. It takes no memory.
    pub fn mark_rows(&self, column: usize, rows: &mut PlaceSet)
        requires column { column < length self.now.lists }
        requires size { length rows.old ≡ self.now.height }
        ensures size { length rows.new ≡ length rows.old }
        ensures marked { (i : ℕ) → has rows.new i ≡ false → at self.now i column ≡ 0 }
        ensures kept { (i : ℕ) → has rows.new i ≡ false → has rows.old i ≡ false }
    {
        mark(self.column(column), rows);
    }

    /// The sum of the amounts of a column, each times the factor of its row.
    pub fn weighted_sum(&self, factors: &Vector, column: usize) -> Result<u128, WideSum>
        requires factors { length factors.now ≡ self.now.height }
        requires column { column < length self.now.lists }
        ensures { let sum = sum_below self.now.height (λ i. slice_index factors.now i * at self.now i column) in
            OkIff result (sum < 2 ^ 127) sum }
    {
        weighted_total(self.column(column), factors)
    }
}

/// The amount at a row, 0 where there is none.
fn amount_of(amounts: &[Amount], row: usize) -> u128
    requires { amount_at amounts.now row < 2 ^ 127 }
    ensures { result ≡ amount_at amounts.now row }
{
    let mut total = 0;
    for entry in amounts {
        if entry.row == row {
            total += entry.amount;
        }
    }
    total
}

/// Puts the rows of the amounts into a set, and leaves its other members.
fn mark(amounts: &[Amount], rows: &mut PlaceSet)
    requires { All (λ entry. entry.row < length rows.old) amounts.now }
    ensures size { length rows.new ≡ length rows.old }
    ensures marked { (i : ℕ) → has rows.new i ≡ false → amount_at amounts.now i ≡ 0 }
    ensures kept { (i : ℕ) → has rows.new i ≡ false → has rows.old i ≡ false }
{
    for entry in amounts {
        rows.insert(entry.row);
    }
}

/// The sum of the amounts, each times the factor of its row.
fn weighted_total(amounts: &[Amount], factors: &Vector) -> Result<u128, WideSum>
    requires { All (λ entry. entry.row < length factors.now) amounts.now }
    ensures { let sum = sum_by (λ entry. slice_index factors.now entry.row * entry.amount) amounts.now in
        OkIff result (sum < 2 ^ 127) sum }
{
    let mut total = 0;
    for entry in amounts {
        total = add_product(total, factors.entry_at(entry.row), entry.amount)?;
    }
    Ok(total)
}
