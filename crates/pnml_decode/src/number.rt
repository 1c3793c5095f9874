ghost use Rattle.std.specs.Prelude.{◌≡◌};
ghost use Rattle.std.specs.List.{prefix_len};
ghost use Rattle.std.specs.Str.Parse.{AllDigits};
ghost use Rattle.pnml_grammar.specs.Runs.{passed, beyond};
ghost use Rattle.pnml_grammar.specs.Numerals.{is_digit, is_white, numeral, number_in};
ghost use Rattle.pnml_decode.specs.Numbers.{number_of, narrow_if_any};

use pnml_grammar::Context;
use pnml_token::{is_white, past_space};

/// The number of an initial marking, or of an inscription, which is at least 1.
#[tactic(auto, unfolding(pnml_grammar::specs::Numerals::number_in))]
pub(crate) fn number_in(context: Context, bytes: &[u8]) -> Option<u64>
    ensures { result ≡ number_in context bytes.now }
{
    let number = numeral(bytes)?;
    match context {
        Context::MarkingText => Some(number),
        Context::WeightText if number >= 1 => Some(number),
        _ => None,
    }
}

/// Decimal digits between white space, as a number below 2^64.
#[tactic(auto, unfolding(pnml_grammar::specs::Numerals::numeral))]
fn numeral(bytes: &[u8]) -> Option<u64>
    ensures { result ≡ narrow_if_any (numeral bytes.now) }
{
    let (digits, rest) = split_digits(past_space(bytes));
    if is_white(rest) { number(digits) } else { None }
}

/// The number that the digits write, where there are some and it is below 2^64.
fn number(digits: &[u8]) -> Option<u64>
    requires { AllDigits 10 digits.now }
    ensures { result ≡ number_of digits.now }
{
    match std::str::from_utf8(digits) {
        Ok(text) => text.parse::<u64>().ok(),
        Err(_) => unreachable!(),
    }
}

/// The digits at the front, and what follows them.
#[tactic(auto, using(pnml_token::proofs::Prefixes::cut_inside))]
fn split_digits(bytes: &[u8]) -> (&[u8], &[u8])
    ensures digits { result.0.now ≡ passed is_digit bytes.now }
    ensures rest { result.1.now ≡ beyond is_digit bytes.now }
    ensures decimal { AllDigits 10 result.0.now }
{
    bytes.split_at(digits_length(bytes))
}

fn digits_length(bytes: &[u8]) -> usize
    ensures { result ≡ prefix_len is_digit bytes.now }
{
    bytes
        .iter()
        .take_while(|byte| byte.is_ascii_digit())
        .count()
}
