ghost use Rattle.std.specs.Prelude.{◌≡◌, ℕ, ◌+◌, ◌*◌, ◌^◌, ◌<◌, ◌≤◌};
ghost use Rattle.std.specs.Prelude.{OkIff, IfOk, IfErr, length, slice_index};
ghost use Rattle.std.specs.Int.{IsGcd};
ghost use Rattle.semiflow_elim.specs.Arithmetic.{IsScaledSum, IsGcdOfAll, HasWideEntry, IsUnionOf};

use incidence::{WideSum, add_product};
use net_values::{NoMemory, PlaceSet, Vector};
use std::alloc::Global;

/// The product of two numbers below this, and the sum of two such products, is below 2^127.
const SMALL: u128 = 1 << 63;

/// Why a combination of two rows can't be formed.
#[derive(Clone, Copy, Debug, PartialEq, Eq)]
pub(crate) enum RowFault {
    NoMemory,
    Wide,
}

/// The greatest common divisor of two numbers, by Euclid's algorithm.
pub(crate) fn gcd(a: u128, b: u128) -> u128
    ensures { IsGcd a b result }
{
    let mut larger = a;
    let mut smaller = b;
    while smaller > 0 {
        let remainder = larger % smaller;
        larger = smaller;
        smaller = remainder;
    }
    larger
}

/// The greatest common divisor of the entries, 0 where all are 0.
pub(crate) fn gcd_of_all(row: &Vector) -> u128
    ensures { IsGcdOfAll row.now (length row.now) result }
{
    let mut divisor = 0;
    let mut walk = row.walk();
    'entries: while let Some((_, entry)) = walk.next() {
        divisor = gcd(divisor, entry);
        if divisor == 1 {
            return 1;
        }
    }
    divisor
}

/// A number that no entry of a row exceeds: the largest entry, or 0 where there is none.
pub(crate) fn largest(row: &Vector) -> u128
    ensures { (i : ℕ) → slice_index row.now i ≤ result }
{
    let mut largest = 0;
    let mut walk = row.walk();
    'entries: while let Some((_, entry)) = walk.next() {
        largest = entry.max(largest);
    }
    largest
}

/// Two multiples together.
pub(crate) fn scaled_entry(x: u128, r: u128, y: u128, s: u128) -> Result<u128, WideSum>
    ensures { OkIff result (x * r + y * s < 2 ^ 127) (x * r + y * s) }
{
    if x < SMALL && r < SMALL && y < SMALL && s < SMALL {
        return Ok(small_product(x, r) + small_product(y, s));
    }
    let first = add_product(0, x, r)?;
    add_product(first, y, s)
}

/// The product of two small numbers.
fn small_product(x: u128, r: u128) -> u128
    requires first { x < 2 ^ 63 }
    requires second { r < 2 ^ 63 }
    ensures value { result ≡ x * r }
    ensures bound { result < 2 ^ 126 }
{
    x * r
}

/// The sum of positive multiples of two rows.
pub(crate) fn scaled_sum(
    alloc: Global,
    x: u128,
    r: &Vector,
    y: u128,
    s: &Vector,
) -> Result<Vector, RowFault>
    requires alike { length r.now ≡ length s.now }
    requires first { 0 < x }
    requires second { 0 < y }
    ensures ok { IfOk result (λ sum. IsScaledSum x r.now y s.now (length r.now) sum) }
    ensures wide { IfErr result (λ fault. fault ≡ RowFault.Wide → HasWideEntry x r.now y s.now) }
{
    let Ok(either) = united(alloc, r, s) else {
        return Err(RowFault::NoMemory);
    };
    let Ok(mut sum) = Vector::zeros(alloc, r.len()) else {
        return Err(RowFault::NoMemory);
    };
    let (mut first, mut second) = (r.walk(), s.walk());
    let mut from = 0;
    'positions: while let Some(i) = either.first_from(from) {
        let Ok(entry) = scaled_entry(x, first.take_at(i), y, second.take_at(i)) else {
            return Err(RowFault::Wide);
        };
        sum.append(i, entry);
        from = i + 1;
    }
    Ok(sum)
}

/// The set of the positions at which one of two rows is positive.
fn united(alloc: Global, r: &Vector, s: &Vector) -> Result<PlaceSet, NoMemory>
    requires { length r.now ≡ length s.now }
    ensures { IfOk result (λ either. IsUnionOf r.now s.now either) }
{
    let mut either = r.support().copy(alloc)?;
    either.unite(s.support());
    Ok(either)
}
