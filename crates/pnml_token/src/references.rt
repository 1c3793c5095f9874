ghost use Rattle.std.specs.Prelude.{◌≡◌, ◌⊎◌, [], encode_utf8, option_map};
ghost use Rattle.std.specs.Char.{digit_value};
ghost use Rattle.pnml_grammar.specs.Resolving.{character_numbered, number_after, character_named, character_after_number_sign, referenced};
ghost use Rattle.pnml_token.specs.Pieces.{reference_at};

use crate::runs::{ByteClass, past, split_run};
use pnml_grammar::is_legal_character;

const GREATEST_CHARACTER: u32 = 0x10_FFFF;

/// `'&' Name ';' | '&#' [0-9]+ ';' | '&#x' [0-9a-fA-F]+ ';'` after its `&`: the character that it represents
/// (productions 67, Reference, 68, EntityRef, and 66, CharRef).
#[tactic(auto, unfolding(crate::specs::Pieces::reference_at))]
pub(crate) fn reference_of(bytes: &[u8]) -> Option<(char, &[u8])>
    ensures { option_map (λ x. (encode_utf8 x.0, x.1.now)) result ≡ reference_at bytes.now }
{
    let (body, rest) = split_run(ByteClass::Reference, bytes);
    let rest = past(b';', rest)?;
    let character = referenced(body)?;
    Some((character, rest))
}

/// The character by what is between `&` and `;`.
#[tactic(auto, unfolding(pnml_grammar::specs::Resolving::referenced))]
fn referenced(body: &[u8]) -> Option<char>
    ensures { result ≡ referenced body.now }
{
    match body {
        [b'#', number @ ..] => after_number_sign(number),
        [_, ..] => named(body),
        [] => None,
    }
}

/// `[0-9]+ | 'x' [0-9a-fA-F]+` (production 66, CharRef).
#[tactic(auto, unfolding(pnml_grammar::specs::Resolving::character_after_number_sign))]
fn after_number_sign(number: &[u8]) -> Option<char>
    ensures { result ≡ character_after_number_sign number.now }
{
    match number {
        [b'x', digits @ ..] => numbered(16, digits),
        [_, ..] => numbered(10, number),
        [] => None,
    }
}

/// The five names of section 4.6, Predefined Entities.
#[tactic(auto, unfolding(pnml_grammar::specs::Resolving::character_named))]
fn named(name: &[u8]) -> Option<char>
    ensures { result ≡ character_named name.now }
{
    if name == b"lt".as_slice() {
        Some('<')
    } else if name == b"gt".as_slice() {
        Some('>')
    } else if name == b"amp".as_slice() {
        Some('&')
    } else if name == b"apos".as_slice() {
        Some('\'')
    } else if name == b"quot".as_slice() {
        Some('"')
    } else {
        None
    }
}

/// The legal character whose number the digits write. A number above all characters ends the reading.
#[tactic(auto, unfolding(pnml_grammar::specs::Resolving::character_numbered))]
fn numbered(base: u32, digits: &[u8]) -> Option<char>
    requires { (base ≡ 10) ⊎ (base ≡ 16) }
    ensures { result ≡ character_numbered base digits.now }
{
    if digits.is_empty() {
        return None;
    }
    number_after(base, digits)
}

fn number_after(base: u32, digits: &[u8]) -> Option<char>
    requires { (base ≡ 10) ⊎ (base ≡ 16) }
    ensures { result ≡ number_after base 0 digits.now }
{
    let mut number = 0;
    for digit in digits {
        let value = digit_value(*digit);
        if value >= base || number * base + value > GREATEST_CHARACTER {
            return None;
        }
        number = number * base + value;
    }
    character(number)
}

#[tactic(auto, using(crate::proofs::LegalTexts::legal_character))]
fn character(number: u32) -> Option<char>
    ensures { result ≡ number_after 10 number [] }
{
    match char::from_u32(number) {
        Some(character) if is_legal_character(character) => Some(character),
        _ => None,
    }
}

fn digit_value(digit: u8) -> u32
    ensures { result ≡ digit_value digit }
{
    match digit {
        b'0'..=b'9' => (digit - b'0') as u32,
        b'A'..=b'Z' => (digit - b'A') as u32 + 10,
        b'a'..=b'z' => (digit - b'a') as u32 + 10,
        _ => 36,
    }
}
