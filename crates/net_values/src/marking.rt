ghost use Rattle.std.specs.Prelude.{◌≡◌, ℕ, ◌+◌, ◌<◌, ◌≤◌, ◌^◌, ◌≤ℤ◌, pos};
ghost use Rattle.std.specs.Prelude.{IfOk, All, length, map, slice_index};
ghost use Rattle.net_values.specs.Columns.{LeftOf, GivenTo, weight_at};
ghost use Rattle.net_values.specs.FlatNets.{initial_marking};
ghost use Rattle.net_values.specs.Vectors.{positive_part};

use crate::column::WeightedPlace;
use crate::flat_net::FlatNet;
use crate::no_memory::NoMemory;
use std::alloc::Global;
use std::marker::Model;

/// A number of tokens per place, from 0 to 2^127 - 1. Contracts see it as the list of these
/// numbers.
#[derive(Drop)]
pub struct Marking {
    counts: Vec<u128>,
}

impl Model for Marking {
    ghost use Rattle.std.specs.Prelude.{List, ℕ, ◌<◌, ◌^◌, All};

    ghost Value = { List ℕ };

    ghost view = { λ m. m.counts.items };

    ghost invariant = { λ m. All (λ count. count < 2 ^ 127) m.counts.items };
}

impl Marking {
    /// The initial marking of a net.
    pub fn initial(alloc: Global, net: &FlatNet) -> Result<Marking, NoMemory>
        ensures { IfOk result (λ marking. marking ≡ initial_marking net.now) }
    {
        let mut counts = Vec::with_capacity(alloc, net.places())?;
        for p in 0..net.places() {
            counts.push(u128::from(net.initial(p)))?;
        }
        Ok(Marking { counts })
    }

    /// The marking with these counts, none negative.
    pub fn from_counts(alloc: Global, counts: &[i128]) -> Result<Marking, NoMemory>
        requires { All (λ count. pos 0 ≤ℤ count) counts.now }
        ensures { IfOk result (λ marking. marking ≡ map positive_part counts.now) }
    {
        let mut copies = Vec::with_capacity(alloc, counts.len())?;
        for count in counts {
            copies.push(count.unsigned_abs())?;
        }
        Ok(Marking { counts: copies })
    }

    /// The number of places.
    pub fn places(&self) -> usize
        ensures { result ≡ length self.now }
    {
        self.counts.len()
    }

    /// The number of tokens of place `p`.
    pub fn get(&self, p: usize) -> i128
        requires { p < length self.now }
        ensures value { result ≡ pos (slice_index self.now p) }
        ensures bound { slice_index self.now p < 2 ^ 127 }
    {
        self.counts[p] as i128
    }

    /// The counts in place order, each at most 2^127 - 1.
    pub fn as_slice(&self) -> &[u128]
        ensures value { result.now ≡ self.now }
        ensures bound { All (λ count. count < 2 ^ 127) self.now }
    {
        self.counts.as_slice()
    }

    /// Takes from each place the tokens that the entries tell. There are enough.
    pub(crate) fn take(&mut self, entries: &[WeightedPlace])
        requires within { All (λ entry. entry.place < length self.old) entries.now }
        requires enough { (p : ℕ) → weight_at entries.now p ≤ slice_index self.old p }
        ensures size { length self.new ≡ length self.old }
        ensures taken { LeftOf self.old entries.now self.new }
    {
        for entry in entries {
            self.counts[entry.place] -= entry.weight;
        }
    }

    /// Gives each place the tokens that the entries tell. No count becomes too large.
    pub(crate) fn put(&mut self, entries: &[WeightedPlace])
        requires within { All (λ entry. entry.place < length self.old) entries.now }
        requires narrow { (p : ℕ) → slice_index self.old p + weight_at entries.now p < 2 ^ 127 }
        ensures size { length self.new ≡ length self.old }
        ensures given { GivenTo self.old entries.now self.new }
    {
        for entry in entries {
            self.counts[entry.place] += entry.weight;
        }
    }
}
