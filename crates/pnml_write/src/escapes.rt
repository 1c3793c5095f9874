ghost use Rattle.std.specs.Prelude.{◌≡◌, ◌++◌, ◌<◌, length, IsTrue, IfSome, IfNone, OnOk};
ghost use Rattle.std.specs.List.{position};
ghost use Rattle.pnml_grammar.specs.Canon.{escape, escaped};
ghost use Rattle.pnml_write.specs.Escapes.{is_escaped};

use net_values::{NoMemory, Text};

/// Appends a value in runs up to the next byte that is written as a reference.
pub(crate) fn push_value(text: &mut Text, value: &str) -> Result<(), NoMemory>
    ensures { OnOk result (text.new ≡ text.old ++ escaped value.now) }
{
    let mut rest = value;
    while let Some((run, reference, beyond)) = split_at_escape(rest) {
        text.push(run)?;
        text.push(reference)?;
        rest = beyond;
    }
    text.push(rest)
}

/// A value up to its first byte that is written as a reference, that reference, and what follows
/// the byte.
fn split_at_escape(value: &str) -> Option<(&str, &'static str, &str)>
    ensures some { IfSome result (λ parts.
        escaped value.now ≡ parts.0.now ++ parts.1.now ++ escaped parts.2.now) }
    ensures shorter { IfSome result (λ parts. length parts.2.now < length value.now) }
    ensures none { IfNone result (escaped value.now ≡ value.now) }
{
    let i = first_escaped(value)?;
    let reference = reference(value.as_bytes()[i]);
    Some((&value[..i], reference, &value[i + 1..]))
}

/// The index of the first byte that is written as a reference.
fn first_escaped(value: &str) -> Option<usize>
    ensures { result ≡ position is_escaped value.now }
{
    value.as_bytes().iter().position(|byte| is_escaped(*byte))
}

/// Whether a byte of a value is written as a reference.
fn is_escaped(byte: u8) -> bool
    ensures { result ≡ is_escaped byte }
{
    matches!(byte, b'&' | b'<' | b'>' | b'"' | b'\t' | b'\n' | b'\r')
}

/// The reference for such a byte (XML 1.0, section 4.1).
fn reference(byte: u8) -> &'static str
    requires { IsTrue (is_escaped byte) }
    ensures { result.now ≡ escape byte }
{
    match byte {
        b'&' => "&amp;",
        b'<' => "&lt;",
        b'>' => "&gt;",
        b'"' => "&quot;",
        b'\t' => "&#9;",
        b'\n' => "&#10;",
        b'\r' => "&#13;",
        _ => unreachable!(),
    }
}
