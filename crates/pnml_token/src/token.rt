ghost use Rattle.std.specs.Prelude.{◌≡◌, ◌+◌, ◌<◌, ◌≤◌, ℕ, false, min, length, IfOk, IfErr};
ghost use Rattle.pnml_grammar.specs.declared.token.Token.{Token as TheToken};
ghost use Rattle.pnml_grammar.specs.Reading.{token_from, shape_at, characters_at};
ghost use Rattle.pnml_grammar.specs.Tokens.{TokenAt};
ghost use Rattle.pnml_token.specs.Gives.{Gives};
ghost use Rattle.pnml_token.specs.Steps.{IfToken, IfEnd, IfBadToken, IsEndIfAny, Finds, fault_at};

use crate::legality::is_spelling;
use crate::markup::markup_of;
use crate::miss::Miss;
use crate::runs::{has_section_end, split_markup};
use crate::values::value_of;
use net_values::MAX_TOKEN_BYTES;
use pnml_grammar::Token;
use std::alloc::Global;

/// What occurs at an offset.
#[derive(Drop)]
pub enum Step {
    /// A token, and the offset of its end.
    Token(Token, usize),
    /// The end of the input.
    End,
}

/// Why no step is answered.
#[derive(Clone, Copy, Debug)]
pub enum TokenFault {
    /// Bytes occur at this offset, and no token does.
    BadToken(u64),
    /// The system refused memory.
    NoMemory,
}

/// The token that occurs at the offset `offset` of the bytes, with the offset of its end; `Step::End` at
/// their end, which takes no memory.
///
/// `TokenFault::BadToken(offset)` comes where bytes are there and none of the spellings of at most 1,048,576
/// bytes does. Tokens are those of XML 1.0 in a narrow profile: no document type, no entities but the five
/// of its section 4.6, version 1.0 in UTF-8 only.
pub fn token_at(alloc: Global, bytes: &[u8], offset: usize) -> Result<Step, TokenFault>
    requires { offset ≤ length bytes.now }
    // A token that is answered is there, and ends there; no other does, by pnml_grammar's one_token.
    ensures token { IfOk result (λ step. IfToken step (λ token e. TokenAt bytes.now offset token e)) }
    // The end is answered just where it is.
    ensures end { IfOk result (λ step. IfEnd step (offset ≡ length bytes.now)) }
    ensures at_end { offset ≡ length bytes.now → IsEndIfAny result }
    // Where a bad token is answered bytes occur, no token does, and the offset is the one asked for.
    ensures bad { IfErr result (λ fault. IfBadToken fault (λ at. at ≡ offset)) }
    ensures bytes { IfErr result (λ fault. IfBadToken fault (λ at. offset < length bytes.now)) }
    ensures none { IfErr result (λ fault. IfBadToken fault (λ at.
        (token : TheToken) (e : ℕ) → TokenAt bytes.now offset token e → ⊥)) }
{
    let rest = &bytes[offset..];
    if rest.is_empty() {
        return Ok(Step::End);
    }
    match token_within(alloc, rest) {
        Ok((token, length)) => Ok(Step::Token(token, offset + length)),
        Err(miss) => Err(fault_at(offset as u64, miss)),
    }
}

/// Why no step is answered at the offset.
pub(crate) fn fault_at(offset: u64, miss: Miss) -> TokenFault
    ensures { result ≡ fault_at offset miss }
{
    match miss {
        Miss::NoToken => TokenFault::BadToken(offset),
        Miss::NoMemory => TokenFault::NoMemory,
    }
}

/// The token at the front, and how many bytes spell it. No more bytes are looked at than tell it.
pub(crate) fn token_within(alloc: Global, bytes: &[u8]) -> Result<(Token, usize), Miss>
    requires { 0 < length bytes.now }
    ensures { Finds result bytes.now }
{
    let window = &bytes[..window_length(bytes.len())];
    let (token, rest) = token_of(alloc, window)?;
    Ok((token, window.len() - rest.len()))
}

/// As many bytes as a spelling has at most, and one more, by which characters are seen to end.
pub(crate) fn window_length(length: usize) -> usize
    ensures { result ≡ min length (MAX_TOKEN_BYTES + 1) }
{
    if length <= MAX_TOKEN_BYTES {
        length
    } else {
        MAX_TOKEN_BYTES + 1
    }
}

/// The token at the front, and the bytes after it.
#[tactic(auto, unfolding(pnml_grammar::specs::Reading::token_from))]
pub(crate) fn token_of(alloc: Global, bytes: &[u8]) -> Result<(Token, &[u8]), Miss>
    ensures { Gives (λ x. (x.0, x.1.now)) result (token_from bytes.now) }
{
    let (token, rest) = shape_of(alloc, bytes)?;
    if is_spelling(&bytes[..bytes.len() - rest.len()]) {
        Ok((token, rest))
    } else {
        Err(Miss::NoToken)
    }
}

/// The token that has its shape at the front, whether its characters are legal or not.
#[tactic(auto, unfolding(pnml_grammar::specs::Reading::shape_at))]
fn shape_of(alloc: Global, bytes: &[u8]) -> Result<(Token, &[u8]), Miss>
    ensures { Gives (λ x. (x.0, x.1.now)) result (shape_at bytes.now) }
{
    match bytes {
        [b'<', rest @ ..] => markup_of(alloc, rest),
        [_, ..] => characters_of(alloc, bytes),
        [] => Err(Miss::NoToken),
    }
}

/// `(CharData | Reference)+`: all up to the next `<`, in which no literal `]]>` is (productions 14, CharData,
/// and 67, Reference).
#[tactic(auto, unfolding(pnml_grammar::specs::Reading::characters_at), using(crate::proofs::Endings::section_end_stops))]
fn characters_of(alloc: Global, bytes: &[u8]) -> Result<(Token, &[u8]), Miss>
    ensures { Gives (λ x. (x.0, x.1.now)) result (characters_at bytes.now) }
{
    let (run, rest) = split_markup(bytes);
    if has_section_end(run) {
        return Err(Miss::NoToken);
    }
    let value = value_of(alloc, false, run)?;
    Ok((Token::Characters(value), rest))
}
