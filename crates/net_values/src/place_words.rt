//! Words of 64 bits as sets of places: place `p` is bit `p % 64` of word `p / 64`. Only place sets know of
//! words.

ghost use Rattle.std.specs.Prelude.{◌≡◌, ◌≢◌, ℕ, ◌+◌, ◌*◌, ◌/◌, ◌<◌, ◌≤◌, ◌↔◌, ◌==◌, IsTrue, IfOk, MatchOption, length, slice_index};
ghost use Rattle.std.specs.Int.{bit_at, bit_not, w64};
ghost use Rattle.std.specs.Int.RustNames.{bit_and, bit_or};
ghost use Rattle.net_values.specs.PlaceWords.{AreFlipped, HasNoPlaceFrom, IsFirstDifference, IsFirstPlaceFrom, IsLowestBit, count_under, has_bit_at, word_has};

use crate::no_memory::NoMemory;
use std::alloc::Global;

/// Whether the word has this bit.
pub(crate) fn has_bit(word: u64, bit: usize) -> bool
    requires { bit < 64 }
    ensures { result ≡ (bit_at word bit == 1) }
{
    word >> bit & 1 == 1
}

/// The word with this bit set.
pub(crate) fn with_bit(word: u64, bit: usize) -> u64
    requires { bit < 64 }
    ensures here { bit_at result bit ≡ 1 }
    ensures elsewhere { (i : ℕ) → i ≢ bit → bit_at result i ≡ bit_at word i }
{
    word | (1 << bit)
}

/// The word with this bit cleared.
pub(crate) fn without_bit(word: u64, bit: usize) -> u64
    requires { bit < 64 }
    ensures here { bit_at result bit ≡ 0 }
    ensures elsewhere { (i : ℕ) → i < 64 → i ≢ bit → bit_at result i ≡ bit_at word i }
{
    word & !(1 << bit)
}

/// The lowest bit that is set in a word other than 0.
fn lowest_bit(word: u64) -> usize
    requires { 0 < word }
    ensures { IsLowestBit word result }
{
    word.trailing_zeros() as usize
}

/// The word whose lowest `count` bits are set, or all where there are no more.
fn low_bits(count: usize) -> u64
    ensures inside { (i : ℕ) → i < count → i < 64 → bit_at result i ≡ 1 }
    ensures outside { (i : ℕ) → count ≤ i → i < 64 → bit_at result i ≡ 0 }
{
    if count < 64 {
        (1 << count) - 1
    } else {
        u64::MAX
    }
}

/// The word with its lowest `count` bits turned and no others.
fn flipped(word: u64, count: usize) -> u64
    ensures inside { (i : ℕ) → i < count → i < 64 → (bit_at word i ≡ 1) ↔ (bit_at result i ≡ 0) }
    ensures outside { (i : ℕ) → count ≤ i → i < 64 → bit_at result i ≡ 0 }
{
    !word & low_bits(count)
}

/// The words of the places below the size that are not in the set of these words.
pub(crate) fn flipped_words(alloc: Global, words: &[u64], size: usize) -> Result<Vec<u64>, NoMemory>
    requires { length words.now * 64 < size + 64 }
    ensures { IfOk result (λ others. AreFlipped words.now size others.items (length words.now)) }
{
    let mut others = Vec::with_capacity(alloc, words.len())?;
    for k in 0..words.len() {
        others.push(flipped(words[k], size - k * 64))?;
    }
    Ok(others)
}

/// Whether all words are 0.
pub(crate) fn are_zero(words: &[u64]) -> bool
    ensures { IsTrue result ↔ ((k : ℕ) → slice_index words.now k ≡ 0) }
{
    for word in words {
        if *word != 0 {
            return false;
        }
    }
    true
}

/// Whether each word has only bits that the other has.
pub(crate) fn are_within(words: &[u64], others: &[u64]) -> bool
    requires { length words.now ≡ length others.now }
    ensures { IsTrue result ↔ ((k : ℕ) → k < length words.now →
        bit_and (slice_index words.now k) (bit_not w64 (slice_index others.now k)) ≡ 0) }
{
    for k in 0..words.len() {
        if words[k] & !others[k] != 0 {
            return false;
        }
    }
    true
}

/// Whether each word has only bits that one of two others has.
pub(crate) fn are_within_either(words: &[u64], firsts: &[u64], seconds: &[u64]) -> bool
    requires { (length words.now ≡ length firsts.now) × (length words.now ≡ length seconds.now) }
    ensures { IsTrue result ↔ ((k : ℕ) → k < length words.now →
        bit_and (slice_index words.now k) (bit_not w64 (bit_or (slice_index firsts.now k) (slice_index seconds.now k))) ≡ 0) }
{
    for k in 0..words.len() {
        if words[k] & !(firsts[k] | seconds[k]) != 0 {
            return false;
        }
    }
    true
}

/// Puts the bits of each other word into the word of its number.
pub(crate) fn unite_words(words: &mut [u64], others: &[u64])
    requires { length words.old ≡ length others.now }
    ensures size { length words.new ≡ length words.old }
    ensures united { (k : ℕ) → k < length words.old →
        slice_index words.new k ≡ bit_or (slice_index words.old k) (slice_index others.now k) }
{
    for k in 0..words.len() {
        words[k] |= others[k];
    }
}

/// Whether the lowest place that is in only one of two sets is in the first.
pub(crate) fn first_difference(words: &[u64], others: &[u64]) -> Option<bool>
    ensures { MatchOption result
        ((k : ℕ) → k < length words.now → k < length others.now → slice_index words.now k ≡ slice_index others.now k)
        (λ in_first. (p : ℕ) × IsFirstDifference words.now others.now p in_first) }
{
    for k in 0..words.len().min(others.len()) {
        let (word, other) = (words[k], others[k]);
        if word != other {
            return Some(has_bit(word, lowest_bit(word ^ other)));
        }
    }
    None
}

/// The word with its lowest `count` bits cleared and no others.
fn without_low_bits(word: u64, count: usize) -> u64
    ensures inside { (i : ℕ) → i < count → i < 64 → bit_at result i ≡ 0 }
    ensures outside { (i : ℕ) → count ≤ i → i < 64 → bit_at result i ≡ bit_at word i }
{
    word & !low_bits(count)
}

/// The word with its lowest `count` bits kept and no others.
fn with_low_bits(word: u64, count: usize) -> u64
    ensures inside { (i : ℕ) → i < count → i < 64 → bit_at result i ≡ bit_at word i }
    ensures outside { (i : ℕ) → count ≤ i → i < 64 → bit_at result i ≡ 0 }
{
    word & low_bits(count)
}

/// The number of bits that are set in the word.
fn count_bits(word: u64) -> usize
    ensures value { result ≡ count_under (has_bit_at word) 64 }
    ensures bound { result ≤ 64 }
{
    word.count_ones() as usize
}

/// The number of places below a multiple of 64 that are in.
fn count_in_whole_words(words: &[u64], whole: usize) -> usize
    requires within { whole ≤ length words.now }
    requires size { length words.now ≤ 64 }
    ensures value { result ≡ count_under (word_has words.now) (whole * 64) }
    ensures bound { result ≤ whole * 64 }
{
    let mut count = 0;
    for k in 0..whole {
        count += count_bits(words[k]);
    }
    count
}

/// The number of places below `p` that are in.
pub(crate) fn count_places_below(words: &[u64], p: usize) -> usize
    requires within { p / 64 < length words.now }
    requires size { length words.now ≤ 64 }
    ensures { result ≡ count_under (word_has words.now) p }
{
    let last = with_low_bits(words[p / 64], p % 64);
    count_in_whole_words(words, p / 64) + count_bits(last)
}

/// The lowest place that is in and isn't below `from`.
pub(crate) fn first_place_from(words: &[u64], from: usize) -> Option<usize>
    requires size { length words.now ≤ 64 }
    ensures { MatchOption result
        (HasNoPlaceFrom words.now from)
        (λ p. IsFirstPlaceFrom words.now from p) }
{
    for k in from / 64..words.len() {
        let word = without_low_bits(words[k], from.saturating_sub(k * 64));
        if word != 0 {
            return Some(k * 64 + lowest_bit(word));
        }
    }
    None
}
