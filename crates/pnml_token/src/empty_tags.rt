//! Empty tags that are told to be there without memory: those of ASCII in whose values nothing is to be
//! resolved, with few attributes or such whose names are numbered in order. Most tags of graphics are so.

ghost use Rattle.std.specs.Prelude.{◌≤◌, IfSome, IsTrue, length};
ghost use Rattle.pnml_token.specs.EmptyTags.{HasReading, HasSimpleAttributes, IsEmptyTag, ReadsEmptyTag, StartsWithEmptyTag};
ghost use Rattle.pnml_token.specs.Steps.{EndsEmptyTag};
ghost use Rattle.pnml_token.specs.Views.{view};

use crate::attributes::{FEW_NAMES, RawAttribute, are_few_distinct, raw_attribute_of};
use crate::legality::{are_plain, is_spelling};
use crate::ranks::rank;
use crate::runs::{ByteClass, has_all, name_of, past, past_space};
use crate::token::window_length;

/// The end of the empty tag at the offset `offset` of the bytes, where one is there that is told without memory. It
/// isn't said that none is there.
pub fn past_empty_tag(bytes: &[u8], offset: usize) -> Option<usize>
    requires { offset ≤ length bytes.now }
    ensures { IfSome result (EndsEmptyTag bytes.now offset) }
{
    let length = empty_tag_length(&bytes[offset..])?;
    Some(offset + length)
}

/// How many bytes spell the empty tag at the front.
fn empty_tag_length(bytes: &[u8]) -> Option<usize>
    ensures { IfSome result (StartsWithEmptyTag bytes.now) }
{
    let window = &bytes[..window_length(bytes.len())];
    let rest = legal_empty_tag_of(window)?;
    Some(window.len() - rest.len())
}

/// What follows the empty tag at the front.
fn legal_empty_tag_of(bytes: &[u8]) -> Option<&[u8]>
    ensures { IfSome result (λ rest. IsEmptyTag bytes.now rest.now) }
{
    let rest = empty_tag_of(bytes)?;
    if is_spelling(&bytes[..bytes.len() - rest.len()]) {
        Some(rest)
    } else {
        None
    }
}

/// The same, whether it is short enough or not.
fn empty_tag_of(bytes: &[u8]) -> Option<&[u8]>
    ensures { IfSome result (λ rest. ReadsEmptyTag bytes.now rest.now) }
{
    let rest = past(b'<', bytes)?;
    let (name, rest) = name_of(rest)?;
    if !are_plain(name) {
        return None;
    }
    let rest = past_simple_attributes(rest)?;
    let rest = past(b'/', past_space(rest))?;
    past(b'>', rest)
}

/// What follows the attributes, where all are simple and told to be distinct without memory.
fn past_simple_attributes(bytes: &[u8]) -> Option<&[u8]>
    ensures { IfSome result (λ rest. HasSimpleAttributes bytes.now rest.now) }
{
    let mut raw_attributes = [RawAttribute {
        name: bytes,
        body: bytes,
    }; FEW_NAMES];
    let mut count = 0;
    let mut rest = bytes;
    'more: while let Some((raw_attribute, beyond)) = raw_attribute_of(rest) {
        if count == FEW_NAMES {
            return past_ascending_attributes(bytes);
        }
        if !is_simple(&raw_attribute) {
            return None;
        }
        raw_attributes[count] = raw_attribute;
        count += 1;
        rest = beyond;
    }
    if are_few_distinct(&raw_attributes[..count]) {
        Some(rest)
    } else {
        None
    }
}

/// The same where the numbers of the names ascend.
fn past_ascending_attributes(bytes: &[u8]) -> Option<&[u8]>
    ensures { IfSome result (λ rest. HasSimpleAttributes bytes.now rest.now) }
{
    let mut last = 0;
    let mut rest = bytes;
    'more: while let Some((raw_attribute, beyond)) = raw_attribute_of(rest) {
        let next = rank(raw_attribute.name);
        if next <= last || !is_simple(&raw_attribute) {
            return None;
        }
        last = next;
        rest = beyond;
    }
    Some(rest)
}

/// Whether an attribute is ASCII and its value represents itself.
fn is_simple(raw_attribute: &RawAttribute<'_>) -> bool
    ensures { IsTrue result → HasReading (view raw_attribute.now) }
{
    are_plain(raw_attribute.name) && has_all(ByteClass::Literal, raw_attribute.body)
}
