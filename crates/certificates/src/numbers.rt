ghost use Rattle.std.specs.Prelude.{◌≡◌, ◌+◌, ◌++◌, ◌<◌, ◌^◌, ℕ, Some, IfSome, decimal};
ghost use Rattle.certificates.specs.Lines.{amount_in, place_in, term_in};
ghost use Rattle.certificates.specs.Words.{number_in};

use crate::words::{past, split};
use net_values::{MAX_PLACES, MAX_TOKENS, read_decimal};

/// The number that the text is, from the least to below the limit.
fn read_number(least: u128, limit: u128, text: &[u8]) -> Option<u128>
    ensures value { result ≡ number_in least limit text.now }
    ensures range { IfSome result (λ n. n < limit) }
{
    let number = read_decimal(text)?;
    if least <= number && number < limit {
        Some(number)
    } else {
        None
    }
}

/// The number of a place.
pub fn place(text: &[u8]) -> Option<u32>
    ensures value { result ≡ place_in text.now }
    ensures range { IfSome result (λ p. p < MAX_PLACES) }
{
    match short_number(text) {
        Some(place) if place < MAX_PLACES as u32 => Some(place),
        _ => long_place(text),
    }
}

/// The number that the text is, where it is below 10,000.
fn short_number(text: &[u8]) -> Option<u32>
    ensures { IfSome result (λ n. (n < 10000) × (text.now ≡ decimal n)) }
{
    let (number, rest) = leading_number(text)?;
    if rest.is_empty() { Some(number) } else { None }
}

/// The number with which the bytes begin, up to the first that is no digit, and what follows it; where the number is
/// below 10,000.
pub(crate) fn leading_number(bytes: &[u8]) -> Option<(u32, &[u8])>
    ensures { IfSome result (λ x. (x.0 < 10000) × (bytes.now ≡ decimal x.0 ++ x.1.now)) }
{
    let [first, ..] = bytes else {
        return None;
    };
    let mut number = digit(*first)?;
    for k in 1..bytes.len() {
        let Some(unit) = digit(bytes[k]) else {
            return Some((number, &bytes[k..]));
        };
        if number == 0 || number >= 1000 {
            return None;
        }
        number = 10 * number + unit;
    }
    Some((number, &bytes[bytes.len()..]))
}

/// The number that a digit stands for.
fn digit(byte: u8) -> Option<u32>
    ensures { IfSome result (λ n. (n < 10) × (byte ≡ 48 + n)) }
{
    if b'0' <= byte && byte <= b'9' {
        Some(u32::from(byte - b'0'))
    } else {
        None
    }
}

/// The number of a place, where its text may be any.
fn long_place(text: &[u8]) -> Option<u32>
    ensures value { result ≡ place_in text.now }
    ensures range { IfSome result (λ p. p < MAX_PLACES) }
{
    let place = read_number(0, MAX_PLACES as u128, text)?;
    Some(place as u32)
}

/// The number of a flow, from 1.
pub(crate) fn flow_number(text: &[u8]) -> Option<u32>
    ensures { result ≡ number_in 1 (2 ^ 32) text.now }
{
    match short_number(text) {
        Some(flow) if flow > 0 => Some(flow),
        _ => long_flow_number(text),
    }
}

/// The number of a flow, where its text may be any.
fn long_flow_number(text: &[u8]) -> Option<u32>
    ensures { result ≡ number_in 1 (2 ^ 32) text.now }
{
    let flow = read_number(1, 0x1_0000_0000, text)?;
    Some(flow as u32)
}

/// An amount from the least to 2^127 - 1.
pub(crate) fn amount(least: u128, text: &[u8]) -> Option<i128>
    ensures { result ≡ amount_in least text.now }
{
    match short_number(text) {
        Some(amount) if least <= u128::from(amount) => Some(amount as i128),
        _ => long_amount(least, text),
    }
}

/// An amount, where its text may be any.
fn long_amount(least: u128, text: &[u8]) -> Option<i128>
    ensures { result ≡ amount_in least text.now }
{
    let amount = read_number(least, MAX_TOKENS + 1, text)?;
    Some(amount as i128)
}

/// A place of a flow with its coefficient.
pub(crate) fn term(word: &[u8]) -> Option<(u32, i128)>
    ensures value { result ≡ term_in word.now }
    ensures range { IfSome result (λ term. term.0 < MAX_PLACES) }
{
    match short_term(word) {
        Some(term) => Some(term),
        None => long_term(word),
    }
}

/// A place of a flow with its coefficient, where both are short.
fn short_term(word: &[u8]) -> Option<(u32, i128)>
    ensures value { IfSome result (λ term. term_in word.now ≡ Some term) }
    ensures range { IfSome result (λ term. term.0 < MAX_PLACES) }
{
    let (place, rest) = leading_number(word)?;
    let [b':', text @ ..] = rest else {
        return None;
    };
    let coefficient = short_number(text)?;
    if place < MAX_PLACES as u32 && coefficient > 0 {
        Some((place, coefficient as i128))
    } else {
        None
    }
}

/// A place of a flow with its coefficient, where the texts of both may be any.
fn long_term(word: &[u8]) -> Option<(u32, i128)>
    ensures value { result ≡ term_in word.now }
    ensures range { IfSome result (λ term. term.0 < MAX_PLACES) }
{
    let (first, rest) = split(b':', word);
    let place = place(first)?;
    let amount = amount(1, past(rest))?;
    Some((place, amount))
}
