ghost use Rattle.std.specs.Prelude.{◌≡◌};
ghost use Rattle.pnml_grammar.specs.Declarations.{declare, is_version, is_encoding, is_standalone};
ghost use Rattle.pnml_grammar.specs.Reading.{markup_at, comment_at, cdata_at, declaration_at, instruction_at, instruction_closed, is_apart, tag_at, tag_closed, end_tag_at};
ghost use Rattle.pnml_token.specs.Gives.{Gives};
ghost use Rattle.pnml_token.specs.Views.{view, views};

use crate::attributes::{RawAttribute, distinct_attributes_of, raw_attributes_of};
use crate::miss::Miss;
use crate::runs::{is_space, name_of, past, past_space, past_text, until};
use crate::values::{end_lines, text_in, text_of};
use net_values::Text;
use pnml_grammar::{Attributes, Token};
use std::alloc::Global;

/// `Comment | CDSect | PI | XMLDecl | ETag | STag | EmptyElemTag` after the `'<'` that each begins with.
#[tactic(auto, unfolding(pnml_grammar::specs::Reading::markup_at))]
pub(crate) fn markup_of(alloc: Global, bytes: &[u8]) -> Result<(Token, &[u8]), Miss>
    ensures { Gives (λ x. (x.0, x.1.now)) result (markup_at bytes.now) }
{
    if let Some(rest) = past_text(b"!--", bytes) {
        comment_of(rest)
    } else if let Some(rest) = past_text(b"![CDATA[", bytes) {
        cdata_of(alloc, rest)
    } else if let Some(rest) = past(b'?', bytes) {
        instruction_of(alloc, rest)
    } else if let Some(rest) = past(b'/', bytes) {
        end_tag_of(alloc, rest)
    } else {
        tag_of(alloc, bytes)
    }
}

/// `'<!--' ((Char - '-') | ('-' (Char - '-')))* '-->'` after its front (production 15, Comment).
#[tactic(auto, unfolding(pnml_grammar::specs::Reading::comment_at))]
fn comment_of(bytes: &[u8]) -> Result<(Token, &[u8]), Miss>
    ensures { Gives (λ x. (x.0, x.1.now)) result (comment_at bytes.now) }
{
    let (_, rest) = until(b"--", bytes).ok_or(Miss::NoToken)?;
    let rest = past(b'>', rest).ok_or(Miss::NoToken)?;
    Ok((Token::Comment, rest))
}

/// `'<![CDATA[' (Char* - (Char* ']]>' Char*)) ']]>'` after its front (production 18, CDSect).
#[tactic(auto, unfolding(pnml_grammar::specs::Reading::cdata_at))]
fn cdata_of(alloc: Global, bytes: &[u8]) -> Result<(Token, &[u8]), Miss>
    ensures { Gives (λ x. (x.0, x.1.now)) result (cdata_at bytes.now) }
{
    let (body, rest) = until(b"]]>", bytes).ok_or(Miss::NoToken)?;
    let text = text_in(body)?;
    let value = end_lines(alloc, text)?;
    Ok((Token::Cdata(value), rest))
}

/// `'<?' PITarget (S (Char* - (Char* '?>' Char*)))? '?>'` after its front (production 16, PI); where its name
/// is `xml`, the declaration.
#[tactic(auto, unfolding(pnml_grammar::specs::Reading::instruction_at))]
fn instruction_of(alloc: Global, bytes: &[u8]) -> Result<(Token, &[u8]), Miss>
    ensures { Gives (λ x. (x.0, x.1.now)) result (instruction_at bytes.now) }
{
    let (name, rest) = name_of(bytes).ok_or(Miss::NoToken)?;
    if name == b"xml".as_slice() {
        declaration_of(alloc, rest)
    } else if name.eq_ignore_ascii_case(b"xml") {
        Err(Miss::NoToken)
    } else {
        close_instruction(rest)
    }
}

/// `(S (Char* - (Char* '?>' Char*)))? '?>'`.
#[tactic(auto, unfolding(pnml_grammar::specs::Reading::instruction_closed))]
fn close_instruction(bytes: &[u8]) -> Result<(Token, &[u8]), Miss>
    ensures { Gives (λ x. (x.0, x.1.now)) result (instruction_closed bytes.now) }
{
    let (body, rest) = until(b"?>", bytes).ok_or(Miss::NoToken)?;
    if is_apart(body) {
        Ok((Token::Instruction, rest))
    } else {
        Err(Miss::NoToken)
    }
}

/// Whether nothing or white space comes first.
fn is_apart(body: &[u8]) -> bool
    ensures { result ≡ is_apart body.now }
{
    match body {
        [] => true,
        [first, ..] => is_space(*first),
    }
}

/// `'<?xml' VersionInfo EncodingDecl? SDDecl? S? '?>'` after its front (production 23, XMLDecl).
#[tactic(auto, unfolding(pnml_grammar::specs::Reading::declaration_at))]
fn declaration_of(alloc: Global, bytes: &[u8]) -> Result<(Token, &[u8]), Miss>
    ensures { Gives (λ x. (x.0, x.1.now)) result (declaration_at bytes.now) }
{
    let (raw_attributes, rest) = raw_attributes_of(alloc, bytes)?;
    let rest = past_text(b"?>", past_space(rest)).ok_or(Miss::NoToken)?;
    if declare(raw_attributes.as_slice()) {
        Ok((Token::Declaration, rest))
    } else {
        Err(Miss::NoToken)
    }
}

/// `VersionInfo EncodingDecl? SDDecl?`.
fn declare(raw_attributes: &[RawAttribute<'_>]) -> bool
    ensures { result ≡ declare (views raw_attributes.now) }
{
    match raw_attributes {
        [version] => is_version(version),
        [version, other] => is_version(version) && (is_encoding(other) || is_standalone(other)),
        [version, encoding, standalone] => {
            is_version(version) && is_encoding(encoding) && is_standalone(standalone)
        }
        _ => false,
    }
}

/// `'version' Eq '1.0'` (production 24, VersionInfo, with the one version that is taken).
fn is_version(raw_attribute: &RawAttribute<'_>) -> bool
    ensures { result ≡ is_version (view raw_attribute.now) }
{
    raw_attribute.name == b"version".as_slice() && raw_attribute.body == b"1.0".as_slice()
}

/// `'encoding' Eq EncName` (production 80, EncodingDecl, with `UTF-8` in any letter case only).
fn is_encoding(raw_attribute: &RawAttribute<'_>) -> bool
    ensures { result ≡ is_encoding (view raw_attribute.now) }
{
    raw_attribute.name == b"encoding".as_slice()
        && raw_attribute.body.eq_ignore_ascii_case(b"utf-8")
}

/// `'standalone' Eq ('yes' | 'no')` (production 32, SDDecl).
fn is_standalone(raw_attribute: &RawAttribute<'_>) -> bool
    ensures { result ≡ is_standalone (view raw_attribute.now) }
{
    raw_attribute.name == b"standalone".as_slice()
        && (raw_attribute.body == b"yes".as_slice() || raw_attribute.body == b"no".as_slice())
}

/// `'</' Name S? '>'` after its front (production 42, ETag).
#[tactic(auto, unfolding(pnml_grammar::specs::Reading::end_tag_at), using(crate::proofs::Endings::open_tag_stops))]
fn end_tag_of(alloc: Global, bytes: &[u8]) -> Result<(Token, &[u8]), Miss>
    ensures { Gives (λ x. (x.0, x.1.now)) result (end_tag_at bytes.now) }
{
    let (name, rest) = name_of(bytes).ok_or(Miss::NoToken)?;
    let rest = past(b'>', past_space(rest)).ok_or(Miss::NoToken)?;
    let name = text_of(alloc, name)?;
    Ok((Token::End(name), rest))
}

/// `'<' Name (S Attribute)* S? ('>' | '/>')` after its front (productions 40, STag, and 44, EmptyElemTag).
#[tactic(auto, unfolding(pnml_grammar::specs::Reading::tag_at))]
fn tag_of(alloc: Global, bytes: &[u8]) -> Result<(Token, &[u8]), Miss>
    ensures { Gives (λ x. (x.0, x.1.now)) result (tag_at bytes.now) }
{
    let (name, rest) = name_of(bytes).ok_or(Miss::NoToken)?;
    let name = text_of(alloc, name)?;
    let (raw_attributes, rest) = raw_attributes_of(alloc, rest)?;
    let attributes = distinct_attributes_of(alloc, raw_attributes.as_slice())?;
    close_tag(name, attributes, past_space(rest))
}

/// `'>' | '/>'`, which tells a start tag from an empty one.
fn close_tag(name: Text, attributes: Attributes, bytes: &[u8]) -> Result<(Token, &[u8]), Miss>
    ensures { Gives (λ x. (x.0, x.1.now)) result (tag_closed name attributes bytes.now) }
{
    match bytes {
        [b'>', rest @ ..] => Ok((Token::Start(name, attributes), rest)),
        [b'/', b'>', rest @ ..] => Ok((Token::Empty(name, attributes), rest)),
        _ => Err(Miss::NoToken),
    }
}
