ghost use Rattle.std.specs.Prelude.{◌≡◌, ◌+◌, ◌<◌, ◌≤◌, [], ◌++◌, length, vec_len, vec_capacity, IfOk, IfErr, IfNone, IfSome};
ghost use Rattle.pnml_grammar.specs.Tokens.{Occurs};
ghost use Rattle.pnml_token.specs.Steps.{IfNoToken};
ghost use Rattle.pnml_token.specs.Gives.{Gives};
ghost use Rattle.pnml_token.specs.Scans.{reached, first_token, length_to};
ghost use Rattle.pnml_token.specs.Streams.{Settles, IsUnsettled, HasNoToken, IsHopeless, TellsReason};
ghost use Rattle.net_values.specs.declared.limits.TheConstants.{MAX_TOKEN_BYTES};

use crate::fed::Fed;
use crate::miss::Miss;
use crate::runs::length_before;
use crate::scan::Scan;
use crate::token::token_of;
use net_values::{MAX_TOKEN_BYTES, NoMemory};
use pnml_grammar::Token;
use std::alloc::Global;
use std::marker::Model;

/// The bytes of a token of which the last hasn't come. Their buffer has the room of the longest token.
#[derive(Drop)]
pub(crate) struct HeldBytes {
    bytes: Vec<u8>,
    scan: Scan,
}

impl Model for HeldBytes {
    ghost use Rattle.std.specs.Prelude.{ℕ, List, ◌≤◌, vec_len, vec_capacity};
    ghost use Rattle.net_values.specs.declared.limits.TheConstants.{MAX_TOKEN_BYTES};
    ghost use Rattle.pnml_token.specs.Scans.{IsScanOf};

    ghost Value = { List ℕ };

    ghost view = { λ h. h.bytes.items };

    ghost invariant = { λ h.
        (vec_len h.bytes ≤ MAX_TOKEN_BYTES) × (MAX_TOKEN_BYTES ≤ vec_capacity h.bytes) × IsScanOf h.scan h.bytes.items };
}

impl HeldBytes {
    /// No bytes.
    pub(crate) fn none(alloc: Global) -> Result<HeldBytes, NoMemory>
        ensures { IfOk result (λ held. held ≡ []) }
    {
        Ok(HeldBytes {
            bytes: Vec::with_capacity(alloc, MAX_TOKEN_BYTES)?,
            scan: Scan::Nothing,
        })
    }

    pub(crate) fn len(&self) -> usize
        ensures bytes { result ≡ length self.now }
        ensures limit { result ≤ MAX_TOKEN_BYTES }
    {
        self.bytes.len()
    }

    pub(crate) fn clear(&mut self)
        ensures { self.new ≡ [] }
    {
        self.bytes.clear();
        self.scan = Scan::Nothing;
    }

    /// Adds the bytes of the piece up to the last of the token, which is read then; or all of them, if it hasn't come.
    pub(crate) fn feed(&mut self, alloc: Global, piece: &[u8]) -> Result<Fed, Miss>
        ensures token { IfOk result (λ fed. IfSome fed.token (λ token. Settles self.old piece.now fed.taken token)) }
        ensures after { IfOk result (λ fed. IfSome fed.token (λ token. self.new ≡ [])) }
        ensures ahead { IfOk result (λ fed. IfSome fed.token (λ token. 0 < length self.old + fed.taken)) }
        ensures taken { IfOk result (λ fed. fed.taken ≤ length piece.now) }
        ensures whole { IfOk result (λ fed. IfNone fed.token (fed.taken ≡ length piece.now)) }
        ensures holds { IfOk result (λ fed. IfNone fed.token (self.new ≡ self.old ++ piece.now)) }
        ensures unsettled { IfOk result (λ fed. IfNone fed.token (IsUnsettled (self.old ++ piece.now))) }
        ensures cleared { IfErr result (λ miss. self.new ≡ []) }
        ensures bytes { IfErr result (λ miss. IfNoToken miss (0 < length (self.old ++ piece.now))) }
        ensures none { IfErr result (λ miss. IfNoToken miss (IsHopeless (self.old ++ piece.now))) }
        ensures reason { IfErr result (λ miss. IfNoToken miss (TellsReason (self.old ++ piece.now))) }
    {
        let (scan, taken) = end_within(self.scan, piece);
        if taken > MAX_TOKEN_BYTES - self.bytes.len() {
            self.clear();
            return Err(Miss::NoToken);
        }
        match self.bytes.extend_from_slice(&piece[..taken]) {
            Ok(()) => {}
            Err(_) => unreachable!(),
        }
        if !scan.has_ended() {
            self.scan = scan;
            return Ok(Fed { taken, token: None });
        }
        self.scan = Scan::Nothing;
        let token = take_token(alloc, &mut self.bytes)?;
        Ok(Fed {
            taken,
            token: Some(token),
        })
    }

    /// The token that the bytes spell at the end of the input.
    pub(crate) fn finish(&mut self, alloc: Global) -> Result<Token, Miss>
        ensures token { IfOk result (λ token. Occurs self.old token self.old []) }
        ensures none { IfErr result (λ miss. IfNoToken miss (HasNoToken self.old)) }
        ensures after { self.new ≡ [] }
    {
        self.scan = Scan::Nothing;
        take_token(alloc, &mut self.bytes)
    }
}

/// What is told of the piece up to the first byte by which the token has ended, and how many of these bytes belong to
/// the token.
fn end_within(scan: Scan, piece: &[u8]) -> (Scan, usize)
    ensures reached { result ≡ reached scan piece.now }
    ensures inside { result.1 ≤ length piece.now }
{
    let mut scan = scan;
    let mut index = 0;
    'bytes: while index < piece.len() {
        index += length_to(scan.awaited(), &piece[index..]);
        if index == piece.len() {
            return (scan, index);
        }
        scan = scan.next(piece[index]);
        if scan.has_ended() {
            return (scan, index + scan.own_bytes());
        }
        index += 1;
    }
    (scan, index)
}

/// How many bytes come before the one that is awaited.
fn length_to(awaited: Option<u8>, bytes: &[u8]) -> usize
    ensures length { result ≡ length_to awaited bytes.now }
    ensures inside { result ≤ length bytes.now }
{
    match awaited {
        Some(byte) => length_before(byte, bytes),
        None => 0,
    }
}

/// The token at the front of the bytes, which are let go with their room kept.
fn take_token(alloc: Global, bytes: &mut Vec<u8>) -> Result<Token, Miss>
    ensures token { Gives (λ token. token) result (first_token bytes.old.items) }
    ensures after { bytes.new.items ≡ [] }
    ensures len { vec_len bytes.new ≡ 0 }
    ensures room { vec_capacity bytes.new ≡ vec_capacity bytes.old }
{
    let token = first_token(alloc, bytes.as_slice());
    bytes.clear();
    token
}

/// The token at the front.
fn first_token(alloc: Global, bytes: &[u8]) -> Result<Token, Miss>
    ensures { Gives (λ token. token) result (first_token bytes.now) }
{
    let (token, _) = token_of(alloc, bytes)?;
    Ok(token)
}
