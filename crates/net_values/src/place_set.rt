ghost use Rattle.std.specs.Prelude.{◌≡◌, ◌<◌, ◌≤◌, ◌↔◌, ◌||◌, ℕ, IsTrue, IfOk, MatchOption, true, false};
ghost use Rattle.std.specs.Prelude.{length, replicate, slice_set};
ghost use Rattle.std.proofs.Common.{rules};
ghost use Rattle.std.specs.Cmp.{partial_order_from_own_ties};
ghost use Rattle.std.specs.Cmp.Lexicographic.{slice_cmp};
ghost use Rattle.std.specs.Cmp.Rules.{comparing};
ghost use Rattle.std.specs.Ordering.{is_eq, as_partial_cmp, bool_cmp};
ghost use Rattle.net_values.specs.PlaceSets.{complement, has, HasNoneFrom, IsEmpty, IsFirstFrom, IsSubset, IsWithinEither, members_below};

use crate::alike::{AlikeList, Listed};
use crate::limits::MAX_ENTRIES;
use crate::no_memory::NoMemory;
use crate::place_words::{
    are_within, are_within_either, are_zero, count_places_below, first_difference,
    first_place_from, flipped_words, has_bit, unite_words, with_bit, without_bit,
};
use std::alloc::Global;
use std::cmp::Ordering;
use std::marker::Model;

/// A set of place numbers below a fixed size. Contracts see it as the list of truth values that tell
/// for each place whether it is in. It keeps 64 places in a word.
#[derive(Drop)]
pub struct PlaceSet {
    words: Vec<u64>,
    size: usize,
}

impl Model for PlaceSet {
    ghost use Rattle.std.specs.Prelude.{List, Bool};
    ghost use Rattle.net_values.specs.PlaceWords.{AreWords, members_of};

    ghost Value = { List Bool };

    ghost view = { λ s. members_of s.words.items s.size };

    ghost invariant = { λ s. AreWords s.words.items s.size };
}

impl PlaceSet {
    /// The empty set of this size, which is at most `MAX_ENTRIES`.
    pub fn new(alloc: Global, size: usize) -> Result<PlaceSet, NoMemory>
        requires { size ≤ MAX_ENTRIES }
        ensures { IfOk result (λ set. set ≡ replicate size false) }
    {
        Ok(PlaceSet {
            words: vec![in alloc; 0u64; (size + 63) / 64]?,
            size,
        })
    }

    /// An equal set.
    pub fn copy(&self, alloc: Global) -> Result<PlaceSet, NoMemory>
        ensures { IfOk result (λ set. set ≡ self.now) }
    {
        Ok(PlaceSet {
            words: Vec::from_slice(alloc, self.words.as_slice())?,
            size: self.size,
        })
    }

    /// The set of the same size of the places that are not in this one.
    pub fn complement(&self, alloc: Global) -> Result<PlaceSet, NoMemory>
        ensures { IfOk result (λ others. others ≡ complement self.now) }
    {
        Ok(PlaceSet {
            words: flipped_words(alloc, self.words.as_slice(), self.size)?,
            size: self.size,
        })
    }

    /// Makes this set equal to another of the same size. It takes no memory.
    pub fn copy_from(&mut self, other: &PlaceSet)
        requires { length self.old ≡ length other.now }
        ensures { self.new ≡ other.now }
    {
        self.words.copy_from_slice(other.words.as_slice());
    }

    /// The size: each place in the set is below it.
    pub fn size(&self) -> usize
        ensures value { result ≡ length self.now }
        ensures bound { result ≤ MAX_ENTRIES }
    {
        self.size
    }

    /// Whether place `p` is in the set.
    pub fn contains(&self, p: usize) -> bool
        requires { p < length self.now }
        ensures { result ≡ has self.now p }
    {
        has_bit(self.words[p / 64], p % 64)
    }

    /// Whether no place is in the set.
    pub fn is_empty(&self) -> bool
        ensures { IsTrue result ↔ IsEmpty self.now }
    {
        are_zero(self.words.as_slice())
    }

    /// The lowest place of the set that isn't below `from`, where there is one.
    pub fn first_from(&self, from: usize) -> Option<usize>
        ensures { MatchOption result (HasNoneFrom self.now from) (λ p. IsFirstFrom self.now from p) }
    {
        first_place_from(self.words.as_slice(), from)
    }

    /// The number of places of the set below place `p`.
    pub(crate) fn count_below(&self, p: usize) -> usize
        requires { p < length self.now }
        ensures { result ≡ members_below self.now p }
    {
        count_places_below(self.words.as_slice(), p)
    }

    /// Takes each place out of the set.
    pub(crate) fn clear(&mut self)
        ensures { self.new ≡ replicate (length self.old) false }
    {
        self.words.as_mut_slice().fill(0);
    }

    /// Puts place `p` into the set.
    pub fn insert(&mut self, p: usize)
        requires { p < length self.old }
        ensures { self.new ≡ slice_set self.old p true }
    {
        self.words[p / 64] = with_bit(self.words[p / 64], p % 64);
    }

    /// Takes place `p` out of the set.
    pub fn remove(&mut self, p: usize)
        requires { p < length self.old }
        ensures { self.new ≡ slice_set self.old p false }
    {
        self.words[p / 64] = without_bit(self.words[p / 64], p % 64);
    }

    /// Puts each place of another set of the same size into this one. It takes no memory.
    pub fn unite(&mut self, other: &PlaceSet)
        requires { length self.old ≡ length other.now }
        ensures size { length self.new ≡ length self.old }
        ensures united { (p : ℕ) → has self.new p ≡ (has self.old p || has other.now p) }
    {
        unite_words(self.words.as_mut_slice(), other.words.as_slice());
    }

    /// Whether each place of this set is in the other, of the same size.
    pub fn is_subset(&self, other: &PlaceSet) -> bool
        requires { length self.now ≡ length other.now }
        ensures { IsTrue result ↔ IsSubset self.now other.now }
    {
        are_within(self.words.as_slice(), other.words.as_slice())
    }

    /// Whether each place of this set is in one of two others, all of one size.
    pub fn is_within_either(&self, first: &PlaceSet, second: &PlaceSet) -> bool
        requires first { length self.now ≡ length first.now }
        requires second { length self.now ≡ length second.now }
        ensures { IsTrue result ↔ IsWithinEither self.now first.now second.now }
    {
        are_within_either(
            self.words.as_slice(),
            first.words.as_slice(),
            second.words.as_slice(),
        )
    }
}

impl PartialEq for PlaceSet {
    ghost eq = { λ a b. is_eq (slice_cmp bool_cmp a b) };

    ghost laws = { Prim.search (comparing, rules) };

    fn eq(&self, other: &PlaceSet) -> bool {
        self.cmp(other).is_eq()
    }
}

impl Eq for PlaceSet {
    ghost laws = { Prim.search (comparing, rules) };
}

impl PartialOrd for PlaceSet {
    ghost partial_cmp = { as_partial_cmp (slice_cmp bool_cmp) };

    ghost laws = { partial_order_from_own_ties (Prim.search (comparing, rules))
        (Prim.search (comparing, rules)) };

    fn partial_cmp(&self, other: &PlaceSet) -> Option<Ordering> {
        Some(self.cmp(other))
    }
}

/// Sets of one size in lexicographic order, each compared as its list of 0 and 1.
impl Ord for PlaceSet {
    ghost cmp = { slice_cmp bool_cmp };

    ghost total = { Prim.search (comparing, rules) };

    ghost matches_partial_cmp = { Prim.search (comparing, rules) };

    ghost matches_eq = { Prim.search (comparing, rules) };

    fn cmp(&self, other: &PlaceSet) -> Ordering {
        match first_difference(self.words.as_slice(), other.words.as_slice()) {
            Some(true) => Ordering::Greater,
            Some(false) => Ordering::Less,
            None => self.size.cmp(&other.size),
        }
    }
}

impl Listed for PlaceSet {
    ghost use Rattle.std.specs.Prelude.{length};
    ghost use Rattle.std.specs.FinMap.{slice_cmp-IsAntisymmetric};
    ghost use Rattle.net_values.specs.Comparisons.{bool_cmp-IsAntisymmetric};

    ghost size = { length };

    ghost exact = { slice_cmp-IsAntisymmetric bool_cmp-IsAntisymmetric };
}

/// A list of place sets of one size. Contracts see it as the list of their lists of truth values, and
/// sort it in lexicographic order of these.
pub type Sets = AlikeList<PlaceSet>;
