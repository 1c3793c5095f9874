ghost use Rattle.std.specs.Prelude.{◌≡◌, ◌<◌, ◌++◌, ℕ, true, false, is_some, length, drop, slice_index, IsTrue, IsUtf8, OnOk, IfOk, IfErr};
ghost use Rattle.pnml_grammar.specs.Values.{lines_ended};
ghost use Rattle.pnml_grammar.specs.Resolving.{literal, resolved, text_of, value_of};
ghost use Rattle.pnml_grammar.specs.Runs.{passed, beyond};
ghost use Rattle.pnml_token.specs.ByteClasses.{in_class};
ghost use Rattle.pnml_token.specs.Gives.{Gives};
ghost use Rattle.pnml_token.specs.Pieces.{meant, past_feed, IsPieceOf, IsMissOf, IsLineOf, reference_at};

use crate::miss::Miss;
use crate::references::reference_of;
use crate::runs::{ByteClass, PART_BYTES, long_run_length};
use net_values::{NoMemory, Text};
use std::alloc::Global;

/// A part of a value.
#[derive(Clone, Copy)]
pub(crate) enum Piece<'a> {
    /// Bytes that represent themselves.
    Run(&'a str),
    /// A character in the place of a reference, a line end or a tab.
    Character(char),
}

/// The value of an attribute, or of text between markup: line ends and references are resolved (sections
/// 2.11, End-of-Line Handling, 3.3.3, Attribute-Value Normalization, and 4.4).
#[tactic(auto, unfolding(pnml_grammar::specs::Resolving::value_of))]
pub(crate) fn value_of(alloc: Global, spaces: bool, bytes: &[u8]) -> Result<Text, Miss>
    ensures { Gives (λ value. value) result (value_of spaces bytes.now) }
{
    let text = text_in(bytes)?;
    resolve(alloc, spaces, text)
}

fn resolve(alloc: Global, spaces: bool, text: &str) -> Result<Text, Miss>
    ensures { Gives (λ value. value) result (resolved (literal spaces text.now)) }
{
    let mut value = Text::new(alloc);
    let mut rest = text;
    'more: while !rest.is_empty() {
        let (piece, beyond) = next_piece(spaces, rest)?;
        push_piece(&mut value, &piece)?;
        rest = beyond;
    }
    Ok(value)
}

/// Whether the bytes are told to have a value. No part of it is kept.
#[tactic(auto, using(crate::proofs::Texts::value_there))]
pub(crate) fn has_value(spaces: bool, bytes: &[u8]) -> bool
    ensures { IsTrue result → is_some (value_of spaces bytes.now) ≡ true }
{
    match text_in(bytes) {
        Ok(text) => is_resolved(spaces, text),
        Err(_) => false,
    }
}

/// The same of text.
fn is_resolved(spaces: bool, text: &str) -> bool
    ensures { IsTrue result → is_some (resolved (literal spaces text.now)) ≡ true }
{
    let mut rest = text;
    'more: while !rest.is_empty() {
        match next_piece(spaces, rest) {
            Ok((_, beyond)) => rest = beyond,
            Err(_) => return false,
        }
    }
    true
}

/// The first part of a value, and the text after what it was made of.
fn next_piece(spaces: bool, text: &str) -> Result<(Piece<'_>, &str), Miss>
    requires { 0 < length text.now }
    ensures found { IfOk result (λ x. IsPieceOf spaces text.now (meant x.0) x.1.now) }
    ensures missed { IfErr result (λ miss. IsMissOf spaces text.now miss) }
    ensures utf8 { IfOk result (λ x. IsUtf8 x.1.now) }
{
    let (run, rest) = split_text(ByteClass::Plain(spaces), text);
    if run.is_empty() {
        special_piece(spaces, text)
    } else {
        Ok((Piece::Run(run), rest))
    }
}

/// The part that a reference, a carriage return or other white space begins.
fn special_piece(spaces: bool, text: &str) -> Result<(Piece<'_>, &str), Miss>
    requires some { 0 < length text.now }
    requires special { in_class (ByteClass.Plain spaces) (slice_index text.now 0) ≡ false }
    ensures found { IfOk result (λ x. IsPieceOf spaces text.now (meant x.0) x.1.now) }
    ensures missed { IfErr result (λ miss. IsMissOf spaces text.now miss) }
    ensures utf8 { IfOk result (λ x. IsUtf8 x.1.now) }
{
    let first = text.as_bytes()[0];
    let rest = past_first(text);
    if first == b'&' {
        reference_piece(rest)
    } else if first == b'\r' {
        let line_end = if spaces { ' ' } else { '\n' };
        Ok((Piece::Character(line_end), past_line_feed(rest)))
    } else {
        Ok((Piece::Character(' '), rest))
    }
}

/// The character of a reference after its `&`.
fn reference_piece(text: &str) -> Result<(Piece<'_>, &str), Miss>
    ensures gives { Gives (λ x. (meant x.0, x.1.now)) result (reference_at text.now) }
    ensures utf8 { IfOk result (λ x. IsUtf8 x.1.now) }
{
    match reference_of(text.as_bytes()) {
        Some((character, rest)) => Ok((
            Piece::Character(character),
            &text[text.len() - rest.len()..],
        )),
        None => Err(Miss::NoToken),
    }
}

/// Appends a part. A refusal leaves the value unchanged.
fn push_piece(value: &mut Text, piece: &Piece<'_>) -> Result<(), NoMemory>
    ensures { OnOk result (value.new ≡ value.old ++ meant piece.now) }
{
    match piece {
        Piece::Run(run) => value.push(run),
        Piece::Character(character) => {
            let mut buffer = [0; 4];
            value.push(character.encode_utf8(&mut buffer))
        }
    }
}

/// The text with its line ends resolved (section 2.11, End-of-Line Handling).
pub(crate) fn end_lines(alloc: Global, text: &str) -> Result<Text, NoMemory>
    ensures { IfOk result (λ value. value ≡ lines_ended text.now) }
{
    let mut value = Text::new(alloc);
    let mut rest = text;
    'more: while !rest.is_empty() {
        let (piece, beyond) = next_line(rest);
        push_piece(&mut value, &piece)?;
        rest = beyond;
    }
    Ok(value)
}

/// The first line up to its end, or its end.
fn next_line(text: &str) -> (Piece<'_>, &str)
    requires { 0 < length text.now }
    ensures line { IsLineOf text.now (meant result.0) result.1.now }
    ensures utf8 { IsUtf8 result.1.now }
{
    let (line, rest) = split_text(ByteClass::Line, text);
    if line.is_empty() {
        (Piece::Character('\n'), past_line_feed(past_first(text)))
    } else {
        (Piece::Run(line), rest)
    }
}

/// The first bytes of the class, and the text after them. The class has all bytes that aren't ASCII.
fn split_text(class: ByteClass, text: &str) -> (&str, &str)
    requires { (byte : ℕ) → in_class class byte ≡ false → byte < 128 }
    ensures run { result.0.now ≡ passed (in_class class) text.now }
    ensures rest { result.1.now ≡ beyond (in_class class) text.now }
    ensures utf8 { IsUtf8 result.0.now × IsUtf8 result.1.now }
{
    text.split_at(long_run_length(class, text.as_bytes()))
}

/// What follows the first character, which is ASCII.
fn past_first(text: &str) -> &str
    requires some { 0 < length text.now }
    requires ascii { slice_index text.now 0 < 128 }
    ensures { result.now ≡ drop 1 text.now }
{
    &text[1..]
}

/// What follows a line feed, if one comes first.
fn past_line_feed(text: &str) -> &str
    ensures { result.now ≡ past_feed text.now }
{
    if !text.is_empty() && text.as_bytes()[0] == b'\n' {
        past_first(text)
    } else {
        text
    }
}

/// A copy of the bytes as text, where they are UTF-8.
pub(crate) fn text_of(alloc: Global, bytes: &[u8]) -> Result<Text, Miss>
    ensures { Gives (λ text. text) result (text_of bytes.now) }
{
    let text = text_in(bytes)?;
    let mut copy = Text::new(alloc);
    copy.push(text)?;
    Ok(copy)
}

/// The bytes as text, where they are UTF-8.
#[tactic(auto, unfolding(pnml_grammar::specs::Resolving::text_of))]
pub(crate) fn text_in(bytes: &[u8]) -> Result<&str, Miss>
    ensures { Gives (λ text. text.now) result (text_of bytes.now) }
{
    if bytes.len() < PART_BYTES {
        return short_text_in(bytes);
    }
    match simdutf8::compat::from_utf8(bytes) {
        Ok(text) => Ok(text),
        Err(_) => Err(Miss::NoToken),
    }
}

/// The same of bytes that are too few for many to be tested at once.
#[tactic(auto, unfolding(pnml_grammar::specs::Resolving::text_of))]
fn short_text_in(bytes: &[u8]) -> Result<&str, Miss>
    ensures { Gives (λ text. text.now) result (text_of bytes.now) }
{
    match std::str::from_utf8(bytes) {
        Ok(text) => Ok(text),
        Err(_) => Err(Miss::NoToken),
    }
}
