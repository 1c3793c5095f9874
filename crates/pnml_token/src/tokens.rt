//! The tokens of an input that comes in pieces. A token that lies in one piece is read where it lies. The bytes of one
//! that is cut are held until its last has come, which is told byte by byte, and it is read once then.

ghost use Rattle.std.specs.Prelude.{◌≡◌, ◌^◌, ◌+◌, ◌<◌, ◌≤◌, [], ◌++◌, length, None, Some, Ok, Err, IfOk, IfErr, IfNone, IfSome};
ghost use Rattle.net_values.specs.declared.limits.TheConstants.{MAX_TOKEN_BYTES};
ghost use Rattle.pnml_grammar.specs.Tokens.{Occurs};
ghost use Rattle.pnml_token.specs.Steps.{IfBadToken, is_characters};
ghost use Rattle.pnml_token.specs.Streams.{Live, Refused, next_offset, held_bytes, fed_bytes, IfLive, IfRefused, Settles, PassesEmptyTag, PassesCharacters, IsUnsettled, HasNoToken, IsHopeless, TellsReason};

use crate::characters::characters_length;
use crate::empty_tags::past_empty_tag;
use crate::fed::Fed;
use crate::held::HeldBytes;
use crate::miss::Miss;
use crate::token::{TokenFault, fault_at, token_within};
use net_values::NoMemory;
use pnml_grammar::Token;
use std::alloc::Global;
use std::marker::Model;

/// The tokens of an input that comes in pieces, one by one: the offset of the next token, and the bytes held of it; or
/// the fault that was answered.
#[derive(Drop)]
pub struct Tokens {
    alloc: Global,
    offset: u64,
    held: HeldBytes,
    refusal: Option<TokenFault>,
}

impl Model for Tokens {
    ghost use Rattle.std.specs.Prelude.{◌≡◌, ◌+◌, ◌^◌, ◌<◌, [], length, IfSome};
    ghost use Rattle.pnml_token.specs.Streams.{State, state_of};

    ghost Value = { State };

    ghost view = { λ s. state_of s.refusal s.offset s.held };

    ghost invariant = { λ s. (s.offset + length s.held < 2 ^ 63) × IfSome s.refusal (λ _. s.held ≡ []) };
}

impl Tokens {
    /// Nothing is fed, and the first token is at offset 0. The buffer for the bytes held is taken here, so holding
    /// them can't be refused later.
    pub fn new(alloc: Global) -> Result<Tokens, NoMemory>
        ensures { IfOk result (λ tokens. tokens ≡ Live 0 []) }
    {
        Ok(Tokens {
            alloc,
            offset: 0,
            held: HeldBytes::none(alloc)?,
            refusal: None,
        })
    }

    /// Takes bytes of the piece until one token is complete, or all of them, which are held then. Characters are
    /// complete where the `<` after them is in the piece.
    ///
    /// `TokenFault::BadToken(offset)` comes only where no token occurs at the offset of the next one, however the input
    /// goes on. From a refusal on, the same is answered and nothing is taken.
    pub fn feed(&mut self, piece: &[u8]) -> Result<Fed, TokenFault>
        requires { fed_bytes self.old + length piece.now < 2 ^ 63 }
        // A token that is given occurs at the offset whatever follows, and the bytes taken end it. Nothing is held then.
        ensures token { IfOk result (λ fed. IfSome fed.token (λ token. Settles (held_bytes self.old) piece.now fed.taken token)) }
        ensures after { IfOk result (λ fed. IfSome fed.token (λ token. self.new ≡ Live (fed_bytes self.old + fed.taken) [])) }
        ensures ahead { IfOk result (λ fed. IfSome fed.token (λ token. next_offset self.old < fed_bytes self.old + fed.taken)) }
        ensures taken { IfOk result (λ fed. fed.taken ≤ length piece.now) }
        // Where none is given, the whole piece is held besides, and there is no one token that occurs whatever follows.
        ensures whole { IfOk result (λ fed. IfNone fed.token (fed.taken ≡ length piece.now)) }
        ensures holds { IfOk result (λ fed. IfNone fed.token (self.new ≡ Live (next_offset self.old) (held_bytes self.old ++ piece.now))) }
        ensures unsettled { IfOk result (λ fed. IfNone fed.token (IsUnsettled (held_bytes self.old ++ piece.now))) }
        // Where a bad token is answered bytes are there, and none occurs whatever follows; why not is told by them.
        ensures bad { IfLive self.old (λ offset held. IfErr result (λ fault. IfBadToken fault (λ at. at ≡ offset))) }
        ensures bytes { IfLive self.old (λ offset held. IfErr result (λ fault. IfBadToken fault (λ at. 0 < length (held ++ piece.now)))) }
        ensures none { IfLive self.old (λ offset held. IfErr result (λ fault. IfBadToken fault (λ at. IsHopeless (held ++ piece.now)))) }
        ensures reason { IfLive self.old (λ offset held. IfErr result (λ fault. IfBadToken fault (λ at. TellsReason (held ++ piece.now)))) }
        // A refusal is kept, and the same is answered from then on.
        ensures refuses { IfErr result (λ fault. self.new ≡ Refused fault (fed_bytes self.old)) }
        ensures again { IfRefused self.old (λ fault. result ≡ Err fault) }
    {
        if let Some(fault) = self.refusal {
            return Err(fault);
        }
        if self.held.len() == 0 {
            match settled_token(self.alloc, piece) {
                Ok((token, taken)) => return Ok(self.pass(token, taken)),
                Err(Miss::NoMemory) => return Err(self.refuse(self.offset, TokenFault::NoMemory)),
                Err(Miss::NoToken) => {}
            }
        }
        self.feed_held(piece)
    }

    /// Takes the empty tag at the front of the piece and answers how many bytes spell it, where nothing is held and
    /// such a tag is there that is told without memory. It isn't said that none is there.
    pub fn pass_empty_tag(&mut self, piece: &[u8]) -> Option<usize>
        requires { fed_bytes self.old + length piece.now < 2 ^ 63 }
        ensures tag { IfSome result (λ taken. PassesEmptyTag (held_bytes self.old) piece.now taken) }
        ensures after { IfSome result (λ taken. self.new ≡ Live (fed_bytes self.old + taken) []) }
        ensures ahead { IfSome result (λ taken. next_offset self.old < fed_bytes self.old + taken) }
        ensures taken { IfSome result (λ taken. taken ≤ length piece.now) }
        ensures none { IfNone result (self.new ≡ self.old) }
    {
        if self.refusal.is_some() || self.held.len() != 0 {
            return None;
        }
        let taken = past_empty_tag(piece, 0)?;
        self.offset += taken as u64;
        Some(taken)
    }

    /// The same of characters, with the `<` after them in the piece.
    pub fn pass_characters(&mut self, piece: &[u8]) -> Option<usize>
        requires { fed_bytes self.old + length piece.now < 2 ^ 63 }
        ensures characters { IfSome result (λ taken. PassesCharacters (held_bytes self.old) piece.now taken) }
        ensures after { IfSome result (λ taken. self.new ≡ Live (fed_bytes self.old + taken) []) }
        ensures ahead { IfSome result (λ taken. next_offset self.old < fed_bytes self.old + taken) }
        ensures taken { IfSome result (λ taken. taken ≤ length piece.now) }
        ensures none { IfNone result (self.new ≡ self.old) }
    {
        if self.refusal.is_some() || self.held.len() != 0 {
            return None;
        }
        let taken = characters_length(piece)?;
        self.offset += taken as u64;
        Some(taken)
    }

    /// The token that the bytes held spell at the end of the input, or `None` where none are held. Nothing is held
    /// afterwards.
    ///
    /// `TokenFault::BadToken(offset)` comes where bytes are held and spell no token. From a refusal on, the same is
    /// answered.
    pub fn finish(&mut self) -> Result<Option<Token>, TokenFault>
        // A token that is given is spelled by the bytes held, with the end of the input after them.
        ensures token { IfOk result (λ found. IfSome found (λ token. Occurs (held_bytes self.old) token (held_bytes self.old) [])) }
        ensures end { IfOk result (λ found. IfNone found (held_bytes self.old ≡ [])) }
        ensures at_end { IfLive self.old (λ offset held. held ≡ [] → result ≡ Ok None) }
        ensures after { IfOk result (λ found. self.new ≡ Live (fed_bytes self.old) []) }
        // Where a bad token is answered bytes are held, and no token occurs in them.
        ensures bad { IfLive self.old (λ offset held. IfErr result (λ fault. IfBadToken fault (λ at. at ≡ offset))) }
        ensures bytes { IfLive self.old (λ offset held. IfErr result (λ fault. IfBadToken fault (λ at. 0 < length held))) }
        ensures none { IfLive self.old (λ offset held. IfErr result (λ fault. IfBadToken fault (λ at. HasNoToken held))) }
        // A refusal is kept, and the same is answered from then on.
        ensures refuses { IfErr result (λ fault. self.new ≡ Refused fault (fed_bytes self.old)) }
        ensures again { IfRefused self.old (λ fault. result ≡ Err fault) }
    {
        if let Some(fault) = self.refusal {
            return Err(fault);
        }
        if self.held.len() == 0 {
            return Ok(None);
        }
        let offset = self.offset;
        let fed = self.fed();
        let finished = self.held.finish(self.alloc);
        self.offset = fed;
        match finished {
            Ok(token) => Ok(Some(token)),
            Err(miss) => Err(self.refuse(fed, fault_at(offset, miss))),
        }
    }

    /// The number of all bytes taken so far. A refusal leaves it as it was before the refused call.
    pub fn fed(&self) -> u64
        ensures { result ≡ fed_bytes self.now }
    {
        self.offset + self.held.len() as u64
    }

    /// The offset of the next token.
    pub fn offset(&self) -> u64
        ensures { result ≡ next_offset self.now }
    {
        self.offset
    }

    /// The number of bytes held.
    pub fn held(&self) -> usize
        ensures bytes { result ≡ length (held_bytes self.now) }
        ensures limit { result ≤ MAX_TOKEN_BYTES }
    {
        self.held.len()
    }

    /// Takes the token that lies in the piece.
    fn pass(&mut self, token: Token, taken: usize) -> Fed
        requires live { self.old ≡ Live (next_offset self.old) [] }
        requires bound { next_offset self.old + taken < 2 ^ 63 }
        ensures token { result ≡ record { taken = taken; token = Some token } }
        ensures after { self.new ≡ Live (next_offset self.old + taken) [] }
    {
        self.offset += taken as u64;
        Fed {
            taken,
            token: Some(token),
        }
    }

    /// Feeds what is held.
    fn feed_held(&mut self, piece: &[u8]) -> Result<Fed, TokenFault>
        requires live { self.old ≡ Live (next_offset self.old) (held_bytes self.old) }
        requires bound { fed_bytes self.old + length piece.now < 2 ^ 63 }
        ensures token { IfOk result (λ fed. IfSome fed.token (λ token. Settles (held_bytes self.old) piece.now fed.taken token)) }
        ensures after { IfOk result (λ fed. IfSome fed.token (λ token. self.new ≡ Live (fed_bytes self.old + fed.taken) [])) }
        ensures ahead { IfOk result (λ fed. IfSome fed.token (λ token. next_offset self.old < fed_bytes self.old + fed.taken)) }
        ensures taken { IfOk result (λ fed. fed.taken ≤ length piece.now) }
        ensures whole { IfOk result (λ fed. IfNone fed.token (fed.taken ≡ length piece.now)) }
        ensures holds { IfOk result (λ fed. IfNone fed.token (self.new ≡ Live (next_offset self.old) (held_bytes self.old ++ piece.now))) }
        ensures unsettled { IfOk result (λ fed. IfNone fed.token (IsUnsettled (held_bytes self.old ++ piece.now))) }
        ensures bad { IfErr result (λ fault. IfBadToken fault (λ at. at ≡ next_offset self.old)) }
        ensures bytes { IfErr result (λ fault. IfBadToken fault (λ at. 0 < length (held_bytes self.old ++ piece.now))) }
        ensures none { IfErr result (λ fault. IfBadToken fault (λ at. IsHopeless (held_bytes self.old ++ piece.now))) }
        ensures reason { IfErr result (λ fault. IfBadToken fault (λ at. TellsReason (held_bytes self.old ++ piece.now))) }
        ensures refuses { IfErr result (λ fault. self.new ≡ Refused fault (fed_bytes self.old)) }
    {
        let offset = self.offset;
        let fed = self.fed();
        match self.held.feed(self.alloc, piece) {
            Ok(given) => {
                if given.token.is_some() {
                    self.offset = fed + given.taken as u64;
                }
                Ok(given)
            }
            Err(miss) => Err(self.refuse(fed, fault_at(offset, miss))),
        }
    }

    /// Keeps the fault, with nothing held, and gives it back.
    fn refuse(&mut self, fed: u64, fault: TokenFault) -> TokenFault
        requires { fed < 2 ^ 63 }
        ensures fault { result ≡ fault }
        ensures after { self.new ≡ Refused fault fed }
    {
        self.held.clear();
        self.offset = fed;
        self.refusal = Some(fault);
        fault
    }
}

/// The token at the front of the piece, and how many bytes spell it, where it is there whatever follows the piece.
fn settled_token(alloc: Global, piece: &[u8]) -> Result<(Token, usize), Miss>
    ensures token { IfOk result (λ found. Settles [] piece.now found.1 found.0) }
    ensures some { IfOk result (λ found. 0 < found.1) }
    ensures taken { IfOk result (λ found. found.1 ≤ length piece.now) }
{
    if piece.is_empty() {
        return Err(Miss::NoToken);
    }
    let (token, taken) = token_within(alloc, piece)?;
    if taken == piece.len() && is_characters(&token) {
        Err(Miss::NoToken)
    } else {
        Ok((token, taken))
    }
}

/// Whether a token goes on to the next `<`.
fn is_characters(token: &Token) -> bool
    ensures { result ≡ is_characters token.now }
{
    matches!(token, Token::Characters(_))
}
