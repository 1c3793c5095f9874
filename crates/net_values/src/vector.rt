ghost use Rattle.std.specs.Prelude.{◌≡◌, ℕ, ◌/◌, ◌<◌, ◌≤◌, ◌^◌, ◌≤ℤ◌, IfOk, pos};
ghost use Rattle.std.specs.Prelude.{length, map, replicate, slice_index, slice_set};
ghost use Rattle.std.proofs.Common.{rules};
ghost use Rattle.std.specs.Cmp.{partial_order_from_own_ties};
ghost use Rattle.std.specs.Cmp.Lexicographic.{slice_cmp};
ghost use Rattle.std.specs.Cmp.Rules.{comparing};
ghost use Rattle.std.specs.Ordering.{is_eq, as_partial_cmp, nat_cmp};
ghost use Rattle.net_values.specs.Vectors.{AreZerosFrom, IsPositive, IsVector, next_cmp, positive_count, positive_part, support_of};

use crate::alike::{AlikeList, Listed};
use crate::limits::MAX_ENTRIES;
use crate::no_memory::NoMemory;
use crate::place_set::PlaceSet;
use crate::walk::Walk;
use std::alloc::Global;
use std::cmp::Ordering;
use std::marker::Model;

/// A list of at most `MAX_ENTRIES` entries, none negative. Contracts see it as the list of natural numbers. It
/// keeps only its positive entries, in order, and the set of their positions, with room for an entry at each.
#[derive(Drop)]
pub struct Vector {
    numbers: Vec<u128>,
    support: PlaceSet,
}

impl Model for Vector {
    ghost use Rattle.std.specs.Prelude.{List, ℕ, vec_capacity};
    ghost use Rattle.net_values.specs.Vectors.{IsPacked, unpacked};

    ghost Value = { List ℕ };

    ghost view = { λ v. unpacked v.support v.numbers.items };

    ghost invariant = { λ v. IsPacked v.support v.numbers.items (vec_capacity v.numbers) };
}

impl Vector {
    /// The vector of this many zeros, at most `MAX_ENTRIES`.
    pub fn zeros(alloc: Global, length: usize) -> Result<Vector, NoMemory>
        requires { length ≤ MAX_ENTRIES }
        ensures { IfOk result (λ vector. vector ≡ replicate length 0) }
    {
        Ok(Vector {
            numbers: Vec::with_capacity(alloc, length)?,
            support: PlaceSet::new(alloc, length)?,
        })
    }

    /// An equal vector.
    pub fn copy(&self, alloc: Global) -> Result<Vector, NoMemory>
        ensures { IfOk result (λ vector. vector ≡ self.now) }
    {
        let mut numbers = Vec::with_capacity(alloc, self.len())?;
        numbers.extend_from_slice(self.numbers.as_slice())?;
        Ok(Vector {
            numbers,
            support: self.support.copy(alloc)?,
        })
    }

    /// The number of entries.
    pub fn len(&self) -> usize
        ensures value { result ≡ length self.now }
        ensures bound { result ≤ MAX_ENTRIES }
    {
        self.support.size()
    }

    /// Entry `i`, counted from 0.
    pub fn get(&self, i: usize) -> i128
        requires { i < length self.now }
        ensures value { result ≡ pos (slice_index self.now i) }
        ensures bound { slice_index self.now i < 2 ^ 127 }
    {
        self.entry_at(i) as i128
    }

    /// Entry `i`, counted from 0, as a number without a sign.
    pub fn entry_at(&self, i: usize) -> u128
        requires { i < length self.now }
        ensures value { result ≡ slice_index self.now i }
        ensures bound { result < 2 ^ 127 }
    {
        if self.support.contains(i) {
            self.numbers[self.support.count_below(i)]
        } else {
            0
        }
    }

    /// Lends the set of the positions with a positive entry.
    pub fn support(&self) -> &PlaceSet
        ensures { result.now ≡ support_of self.now }
    {
        &self.support
    }

    /// Goes over the positive entries in ascending position.
    pub fn walk(&self) -> Walk<'_>
        ensures start { result ≡ record { entries = self.now; from = 0 } }
        ensures vector { IsVector self.now }
    {
        Walk::over(self.numbers.as_slice(), &self.support)
    }

    /// The number of positive entries.
    pub fn positives(&self) -> usize
        ensures { result ≡ positive_count self.now }
    {
        self.numbers.len()
    }

    /// The position and the entry of the positive entry number `k` in ascending position, counted from 0.
    pub fn positive(&self, k: usize) -> (usize, i128)
        requires { k < positive_count self.now }
        ensures position { IsPositive self.now k result.0 }
        ensures entry { result.1 ≡ pos (slice_index self.now result.0) }
    {
        let mut walk = self.walk();
        for number in 0..k {
            let _passed = walk.next();
        }
        match walk.next() {
            Some((position, entry)) => (position, entry as i128),
            None => unreachable!(),
        }
    }

    /// Puts a positive entry, at most 2^127 - 1, after all that are positive.
    pub fn append(&mut self, i: usize, entry: u128)
        requires within { i < length self.old }
        requires positive { 0 < entry }
        requires narrow { entry < 2 ^ 127 }
        requires following { AreZerosFrom self.old i }
        ensures { self.new ≡ slice_set self.old i entry }
    {
        match self.numbers.push(entry) {
            Ok(()) => self.support.insert(i),
            Err(_) => unreachable!(),
        }
    }

    /// Divides each entry by a number that no positive one is below.
    pub fn divide(&mut self, divisor: u128)
        requires positive { 0 < divisor }
        requires least { (i : ℕ) → 0 < slice_index self.old i → divisor ≤ slice_index self.old i }
        ensures { self.new ≡ map (λ entry. entry / divisor) self.old }
    {
        if divisor > 1 {
            divide_all(self.numbers.as_mut_slice(), divisor);
        }
    }

    /// Makes every entry 0.
    pub fn clear(&mut self)
        ensures { self.new ≡ replicate (length self.old) 0 }
    {
        self.numbers.clear();
        self.support.clear();
    }

    /// Puts a value, which isn't negative, in the place of entry `i`.
    pub fn set(&mut self, i: usize, value: i128)
        requires within { i < length self.old }
        requires natural { pos 0 ≤ℤ value }
        ensures { self.new ≡ slice_set self.old i (positive_part value) }
    {
        if value > 0 {
            self.put(i, value.unsigned_abs());
        } else {
            self.take_out(i);
        }
    }

    /// Puts a positive entry, at most 2^127 - 1, in the place of entry `i`.
    fn put(&mut self, i: usize, entry: u128)
        requires within { i < length self.old }
        requires positive { 0 < entry }
        requires narrow { entry < 2 ^ 127 }
        ensures { self.new ≡ slice_set self.old i entry }
    {
        let index = self.support.count_below(i);
        if self.support.contains(i) {
            self.numbers[index] = entry;
            return;
        }
        match self.numbers.insert(index, entry) {
            Ok(()) => self.support.insert(i),
            Err(_) => unreachable!(),
        }
    }

    /// Makes entry `i` 0.
    fn take_out(&mut self, i: usize)
        requires { i < length self.old }
        ensures { self.new ≡ slice_set self.old i 0 }
    {
        if self.support.contains(i) {
            let _entry = self.numbers.remove(self.support.count_below(i));
            self.support.remove(i);
        }
    }
}

/// Divides each number.
fn divide_all(numbers: &mut [u128], divisor: u128)
    requires { 0 < divisor }
    ensures { numbers.new ≡ map (λ number. number / divisor) numbers.old }
{
    for number in numbers.iter_mut() {
        *number /= divisor;
    }
}

/// The order of two vectors that are equal before their next positive entries, by these.
fn order_at(next: (usize, u128), other: Option<(usize, u128)>) -> Ordering
    ensures { result ≡ next_cmp next other }
{
    match other {
        None => Ordering::Greater,
        Some((position, entry)) => position.cmp(&next.0).then(next.1.cmp(&entry)),
    }
}

impl PartialEq for Vector {
    ghost eq = { λ a b. is_eq (slice_cmp nat_cmp a b) };

    ghost laws = { Prim.search (comparing, rules) };

    fn eq(&self, other: &Vector) -> bool {
        self.cmp(other).is_eq()
    }
}

impl Eq for Vector {
    ghost laws = { Prim.search (comparing, rules) };
}

impl PartialOrd for Vector {
    ghost partial_cmp = { as_partial_cmp (slice_cmp nat_cmp) };

    ghost laws = { partial_order_from_own_ties (Prim.search (comparing, rules))
        (Prim.search (comparing, rules)) };

    fn partial_cmp(&self, other: &Vector) -> Option<Ordering> {
        Some(self.cmp(other))
    }
}

/// Vectors in lexicographic order of their entries.
impl Ord for Vector {
    ghost cmp = { slice_cmp nat_cmp };

    ghost total = { Prim.search (comparing, rules) };

    ghost matches_partial_cmp = { Prim.search (comparing, rules) };

    ghost matches_eq = { Prim.search (comparing, rules) };

    fn cmp(&self, other: &Vector) -> Ordering {
        let mut walk = self.walk();
        let mut others = other.walk();
        'entries: while let Some(next) = walk.next() {
            let order = order_at(next, others.next());
            if order != Ordering::Equal {
                return order;
            }
        }
        match others.next() {
            Some(_) => Ordering::Less,
            None => self.len().cmp(&other.len()),
        }
    }
}

impl Listed for Vector {
    ghost use Rattle.std.specs.Prelude.{length};
    ghost use Rattle.std.specs.FinMap.{nat_cmp-IsAntisymmetric, slice_cmp-IsAntisymmetric};

    ghost size = { length };

    ghost exact = { slice_cmp-IsAntisymmetric nat_cmp-IsAntisymmetric };
}

/// A list of vectors of one length, as a matrix has them for its rows. Contracts see it as the list of
/// their lists of entries, and sort it in lexicographic order of the entries.
pub type Rows = AlikeList<Vector>;
