ghost use Rattle.std.specs.Prelude.{◌≡◌, ◌==◌, not, codes, is_some, option_copied, option_map};
ghost use Rattle.std.specs.List.{list_all, prefix_len};
ghost use Rattle.pnml_grammar.specs.Characters.{is_space};
ghost use Rattle.pnml_grammar.specs.Names.{is_name_start};
ghost use Rattle.pnml_grammar.specs.Reading.{name_at, name_after_space, quote_at};
ghost use Rattle.pnml_grammar.specs.Runs.{passed, beyond, past, past_text, until};
ghost use Rattle.pnml_grammar.specs.Tokens.{is_text_byte};
ghost use Rattle.pnml_token.specs.ByteClasses.{in_class};

use crate::name_bytes::is_name_byte;
use memchr::{memchr, memmem};

/// How many bytes are tested at once.
pub(crate) const PART_BYTES: usize = 64;

/// The classes of bytes that are in runs.
#[derive(Clone, Copy)]
pub(crate) enum ByteClass {
    /// `#x20 | #x9 | #xD | #xA` (production 3, S).
    Space,
    /// `NameChar` (production 4a).
    Name,
    /// `[^<"]` or `[^<']`, by the quote (production 10, AttValue).
    Value(u8),
    /// What is between `&` and `;`: ASCII letters, digits and `#` (production 67, Reference).
    Reference,
    /// A line up to a carriage return.
    Line,
    /// What a value copies: no carriage return and no reference, and no other white space but spaces where
    /// white space becomes spaces.
    Plain(bool),
    /// What a value of an attribute copies, in ASCII: from the space on, and no reference.
    Literal,
    /// What only legal characters have in UTF-8: no control character but three, and no `#xEF`, with which the
    /// characters begin that aren't legal beyond ASCII.
    Common,
}

/// The first bytes of the class, and the bytes after them.
#[tactic(auto, using(crate::proofs::Prefixes::cut_inside))]
pub(crate) fn split_run(class: ByteClass, bytes: &[u8]) -> (&[u8], &[u8])
    ensures run { result.0.now ≡ passed (in_class class) bytes.now }
    ensures rest { result.1.now ≡ beyond (in_class class) bytes.now }
{
    bytes.split_at(run_length(class, bytes))
}

/// How many bytes of the class come first.
pub(crate) fn run_length(class: ByteClass, bytes: &[u8]) -> usize
    ensures { result ≡ prefix_len (in_class class) bytes.now }
{
    bytes.iter().take_while(|byte| has(class, **byte)).count()
}

/// The same of bytes that are likely to be long runs: parts of a fixed length are passed whole, without a way out in
/// them, so that many bytes are compared at once.
pub(crate) fn long_run_length(class: ByteClass, bytes: &[u8]) -> usize
    ensures { result ≡ prefix_len (in_class class) bytes.now }
{
    let mut length = 0;
    let mut rest = bytes;
    'parts: while rest.len() >= PART_BYTES {
        let (part, after) = rest.split_at(PART_BYTES);
        if !are_all(class, part) {
            break;
        }
        length += PART_BYTES;
        rest = after;
    }
    length + run_length(class, rest)
}

/// Whether the class has all bytes, of which many are compared at once.
pub(crate) fn has_all(class: ByteClass, bytes: &[u8]) -> bool
    ensures { result ≡ list_all (in_class class) bytes.now }
{
    let mut rest = bytes;
    'parts: while rest.len() >= PART_BYTES {
        let (part, after) = rest.split_at(PART_BYTES);
        if !are_all(class, part) {
            return false;
        }
        rest = after;
    }
    are_all(class, rest)
}

/// White space only.
pub fn is_white(bytes: &[u8]) -> bool
    ensures { result ≡ list_all is_space bytes.now }
{
    has_all(ByteClass::Space, bytes)
}

/// Whether the class has all bytes of a part.
pub(crate) fn are_all(class: ByteClass, part: &[u8]) -> bool
    ensures { result ≡ list_all (in_class class) part.now }
{
    let mut all = true;
    for byte in part {
        all = all & has(class, *byte);
    }
    all
}

/// Whether the class has the byte.
fn has(class: ByteClass, byte: u8) -> bool
    ensures { result ≡ in_class class byte }
{
    match class {
        ByteClass::Space => is_space(byte),
        ByteClass::Name => is_name_byte(byte),
        ByteClass::Value(quote) => byte != b'<' && byte != quote,
        ByteClass::Reference => byte.is_ascii_alphanumeric() || byte == b'#',
        ByteClass::Line => byte != b'\r',
        ByteClass::Plain(spaces) => is_plain(spaces, byte),
        ByteClass::Literal => 32 <= byte && byte < 128 && byte != b'&',
        ByteClass::Common => is_common(byte),
    }
}

/// White space: `#x20 | #x9 | #xD | #xA` (production 3, S).
pub fn is_space(byte: u8) -> bool
    ensures { result ≡ is_space byte }
{
    byte == b'\t' || byte == b'\n' || byte == b'\r' || byte == b' '
}

/// `NameStartChar` (production 4); every byte of a character that isn't ASCII is one.
fn is_name_start(byte: u8) -> bool
    ensures { result ≡ is_name_start byte }
{
    byte.is_ascii_alphabetic() || byte == b'_' || byte == b':' || byte >= 128
}

fn is_plain(spaces: bool, byte: u8) -> bool
    ensures { result ≡ in_class (ByteClass.Plain spaces) byte }
{
    byte != b'\r' && byte != b'&' && !(spaces && (byte == b'\t' || byte == b'\n'))
}

fn is_common(byte: u8) -> bool
    ensures { result ≡ in_class ByteClass.Common byte }
{
    (32 <= byte || byte == b'\n' || byte == b'\t' || byte == b'\r') && byte != 0xEF
}

/// `S?`: what follows the white space at the front.
pub fn past_space(bytes: &[u8]) -> &[u8]
    ensures { result.now ≡ beyond is_space bytes.now }
{
    split_run(ByteClass::Space, bytes).1
}

/// `NameStartChar (NameChar)*` (production 5, Name).
pub(crate) fn name_of(bytes: &[u8]) -> Option<(&[u8], &[u8])>
    ensures { option_map (λ x. (x.0.now, x.1.now)) result ≡ name_at bytes.now }
{
    match bytes {
        [first, ..] if is_name_start(*first) => Some(split_run(ByteClass::Name, bytes)),
        _ => None,
    }
}

/// `S Name`.
pub(crate) fn name_after_space(bytes: &[u8]) -> Option<(&[u8], &[u8])>
    ensures { option_map (λ x. (x.0.now, x.1.now)) result ≡ name_after_space bytes.now }
{
    match bytes {
        [first, ..] if is_space(*first) => name_of(past_space(bytes)),
        _ => None,
    }
}

/// `'"' | "'"`.
pub(crate) fn quote_of(bytes: &[u8]) -> Option<(u8, &[u8])>
    ensures { option_map (λ x. (x.0, x.1.now)) result ≡ quote_at bytes.now }
{
    match bytes {
        [quote, rest @ ..] if *quote == b'"' || *quote == b'\'' => Some((*quote, rest)),
        _ => None,
    }
}

/// What follows this byte, if it comes first.
pub(crate) fn past(wanted: u8, bytes: &[u8]) -> Option<&[u8]>
    ensures { option_copied result ≡ past wanted bytes.now }
{
    match bytes {
        [first, rest @ ..] if *first == wanted => Some(rest),
        _ => None,
    }
}

/// What follows this text, if it comes first.
pub(crate) fn past_text<'a>(text: &[u8], bytes: &'a [u8]) -> Option<&'a [u8]>
    ensures { option_copied result ≡ past_text text.now bytes.now }
{
    if bytes.starts_with(text) {
        Some(&bytes[text.len()..])
    } else {
        None
    }
}

/// `[^<]*`: text up to the next markup, and the bytes from there on.
#[tactic(auto, using(crate::proofs::Prefixes::cut_inside))]
pub(crate) fn split_markup(bytes: &[u8]) -> (&[u8], &[u8])
    ensures run { result.0.now ≡ passed is_text_byte bytes.now }
    ensures rest { result.1.now ≡ beyond is_text_byte bytes.now }
{
    bytes.split_at(text_length(bytes))
}

/// How many bytes come before the first `<`.
fn text_length(bytes: &[u8]) -> usize
    ensures { result ≡ prefix_len is_text_byte bytes.now }
{
    length_before(b'<', bytes)
}

/// How many bytes come before the first one like this.
pub(crate) fn length_before(wanted: u8, bytes: &[u8]) -> usize
    ensures { result ≡ prefix_len (λ byte. not (byte == wanted)) bytes.now }
{
    memchr(wanted, bytes).unwrap_or(bytes.len())
}

/// `Char* - (Char* part Char*)`, then the part: what comes before its first offset, and after it.
pub(crate) fn until<'a>(part: &[u8], bytes: &'a [u8]) -> Option<(&'a [u8], &'a [u8])>
    ensures { option_map (λ x. (x.0.now, x.1.now)) result ≡ until part.now bytes.now }
{
    let offset = memmem::find(bytes, part)?;
    Some((&bytes[..offset], &bytes[offset + part.len()..]))
}

/// Whether `]]>` occurs anywhere in the bytes. Most texts have no `>`, and are told by that.
pub(crate) fn has_section_end(bytes: &[u8]) -> bool
    ensures { result ≡ is_some (until (codes "]]>") bytes.now) }
{
    match memchr(b'>', bytes) {
        None => false,
        Some(_) => until(b"]]>", bytes).is_some(),
    }
}
