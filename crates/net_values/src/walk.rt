ghost use Rattle.std.specs.Prelude.{◌≡◌, ◌+◌, ◌<◌, ◌^◌, MatchOption, IfSome, length, slice_index};
ghost use Rattle.net_values.specs.Vectors.{AreZerosBetween, AreZerosFrom, IsFirstPositive, IsKept, unpacked};

use crate::place_set::PlaceSet;
use std::marker::Model;

/// A walk over the positive entries of a vector in ascending position. Contracts see the entries, and the position
/// from which on the next positive one is looked for. It knows the index of the next number.
#[derive(Drop)]
pub struct Walk<'v> {
    numbers: &'v [u128],
    support: &'v PlaceSet,
    next: usize,
    index: usize,
}

impl<'v> Model for Walk<'v> {
    ghost use Rattle.net_values.specs.Vectors.{IsWalked, WalkValue, unpacked};

    ghost Value = { WalkValue };

    ghost view = { λ w. record { entries = unpacked w.support.now w.numbers.now; from = w.next } };

    ghost invariant = { λ w. IsWalked w.support.now w.numbers.now w.next w.index };
}

impl<'v> Walk<'v> {
    /// The walk over all positive entries.
    pub(crate) fn over(numbers: &'v [u128], support: &'v PlaceSet) -> Walk<'v>
        requires { IsKept (unpacked support.now numbers.now) support.now numbers.now }
        ensures { result ≡ record { entries = unpacked support.now numbers.now; from = 0 } }
    {
        Walk {
            numbers,
            support,
            next: 0,
            index: 0,
        }
    }

    /// Takes the next positive entry, with its position before it.
    pub fn next(&mut self) -> Option<(usize, u128)>
        ensures same { self.new.entries ≡ self.old.entries }
        ensures next { MatchOption result (AreZerosFrom self.old.entries self.old.from)
            (λ found. IsFirstPositive self.old.entries self.old.from found.0 found.1) }
        ensures from { IfSome result (λ found. self.new.from ≡ found.0 + 1) }
    {
        let Some(position) = self.support.first_from(self.next) else {
            return None;
        };
        let number = self.numbers[self.index];
        self.next = position + 1;
        self.index += 1;
        Some((position, number))
    }

    /// Goes on to a position before which no positive entry is left, and takes the entry there, which can be 0.
    pub fn take_at(&mut self, position: usize) -> u128
        requires within { position < length self.old.entries }
        requires ahead { AreZerosBetween self.old.entries self.old.from position }
        ensures entry { result ≡ slice_index self.old.entries position }
        ensures bound { result < 2 ^ 127 }
        ensures same { self.new.entries ≡ self.old.entries }
        ensures from { self.new.from ≡ position + 1 }
    {
        let (numbers, support) = (self.numbers, self.support);
        self.next = position + 1;
        if !support.contains(position) {
            return 0;
        }
        let number = numbers[self.index];
        self.index += 1;
        number
    }
}
