ghost use Rattle.std.specs.Prelude.{◌≡◌, ◌↔◌, IsTrue, true};
ghost use Rattle.std.specs.List.{list_all};
ghost use Rattle.net_values.specs.Characters.{IsLegalText};
ghost use Rattle.pnml_grammar.specs.Reading.{is_legal, is_spelling};
ghost use Rattle.pnml_token.specs.ByteClasses.{is_plain_byte};

use crate::runs::{ByteClass, PART_BYTES, has_all};
use net_values::MAX_TOKEN_BYTES;
use pnml_grammar::is_legal_text;
use simdutf8::compat::from_utf8;

/// Whether the bytes are few enough for a spelling, and UTF-8 of legal characters.
#[tactic(auto, unfolding(pnml_grammar::specs::Reading::is_spelling))]
pub(crate) fn is_spelling(bytes: &[u8]) -> bool
    ensures { result ≡ is_spelling bytes.now }
{
    bytes.len() <= MAX_TOKEN_BYTES && is_legal(bytes)
}

/// `Char*` (production 2). Most spellings are legal characters of ASCII only, and those need no decoding.
#[tactic(auto, using(crate::proofs::LegalTexts::plain_text))]
fn is_legal(bytes: &[u8]) -> bool
    ensures { result ≡ is_legal bytes.now }
{
    are_plain(bytes) || are_legal(bytes)
}

/// Whether all bytes are legal characters of ASCII. Parts of a fixed length are looked at without a way out in
/// them, so that they are compared many bytes at once; in most of them no byte is below the space.
pub(crate) fn are_plain(bytes: &[u8]) -> bool
    ensures { result ≡ list_all is_plain_byte bytes.now }
{
    let mut rest = bytes;
    'parts: while rest.len() >= PART_BYTES {
        let (part, after) = rest.split_at(PART_BYTES);
        if !are_printable_in(part) && !are_plain_in(part) {
            return false;
        }
        rest = after;
    }
    are_plain_in(rest)
}

/// Whether all bytes of a part are printable characters of ASCII, or the space.
fn are_printable_in(part: &[u8]) -> bool
    ensures { IsTrue result → list_all is_plain_byte part.now ≡ true }
{
    let mut all = true;
    for byte in part {
        all = all & (32 <= *byte && *byte < 128);
    }
    all
}

/// Whether all bytes of a part are legal characters of ASCII.
fn are_plain_in(part: &[u8]) -> bool
    ensures { result ≡ list_all is_plain_byte part.now }
{
    let mut all = true;
    for byte in part {
        all = all & is_plain_byte(*byte);
    }
    all
}

/// A legal character of ASCII.
fn is_plain_byte(byte: u8) -> bool
    ensures { result ≡ is_plain_byte byte }
{
    (32 <= byte && byte < 128) || byte == b'\n' || byte == b'\t' || byte == b'\r'
}

fn are_legal(bytes: &[u8]) -> bool
    ensures { result ≡ is_legal bytes.now }
{
    match from_utf8(bytes) {
        Ok(text) => is_text_of_legal(text),
        Err(_) => false,
    }
}

/// Whether each character of the text is legal. Most texts are told by their bytes.
fn is_text_of_legal(text: &str) -> bool
    ensures { IsTrue result ↔ IsLegalText text.now }
{
    has_all(ByteClass::Common, text.as_bytes()) || is_legal_text(text)
}
