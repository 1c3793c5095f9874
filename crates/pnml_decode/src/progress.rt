ghost use Rattle.std.specs.Prelude.{◌≡◌, ◌+◌, ◌<◌, ◌≤◌, ◌^◌, ℕ, List, [], ◌++◌, true, length, length as list_length, take, drop, IfOk, OnOk, IfErr, IfNone, IfSome, IsUtf8};
ghost use Rattle.pnml_grammar.specs.Tokens.{TokenAt, first_offset};
ghost use Rattle.pnml_grammar.specs.Documents.{DocBytes};
ghost use Rattle.pnml_grammar.specs.ReadTo.{IsReadTo};
ghost use Rattle.pnml_grammar.specs.Reasons.{reason_without_token as the_reason};
ghost use Rattle.pnml_token.specs.Streams.{Live, fed_bytes, held_bytes, next_offset};
ghost use Rattle.pnml_decode.specs.Views.{view};
ghost use Rattle.pnml_decode.specs.Taking.{PassesIdle};
ghost use Rattle.pnml_decode.specs.Faults.{NamesFirstFault};
ghost use Rattle.pnml_decode.specs.Standing.{Follows, HasRead, front_length, is_declared, is_past_mark, is_reading, next_place, reached};

use crate::fault::DocFault;
use crate::reader::Reader;
use crate::reader_fault::ReaderFault;
use net_values::{Document, NoMemory};
use pnml_grammar::{Reason, Token};
use pnml_token::{Fed, TokenFault, Tokens};
use std::alloc::Global;

/// How a text has been read so far.
#[derive(Clone, Copy)]
pub(crate) enum Stage {
    /// No byte was read: a byte order mark may come.
    AtMark,
    /// No token was read: a declaration may come.
    AtFirst,
    /// Some tokens were read.
    Going,
    /// At this offset the document is refused for this reason.
    Broke(u64, Reason),
}

impl Stage {
    /// Whether tokens are read.
    fn is_reading(self) -> bool
        ensures { result ≡ is_reading self }
    {
        matches!(self, Stage::AtFirst | Stage::Going)
    }

    /// Whether the token is the declaration in front.
    fn is_declared(self, token: &Token) -> bool
        ensures { result ≡ is_declared self token.now }
    {
        match self {
            Stage::AtFirst => matches!(token, Token::Declaration),
            _ => false,
        }
    }
}

/// A text that is read as it comes: its tokens, the elements that they open, and the first fault.
#[derive(Drop)]
pub(crate) struct Progress {
    pub(crate) tokens: Tokens,
    pub(crate) reader: Reader,
    /// The first bytes of those that are held, as many as tell a document type from other bytes.
    pub(crate) front: Vec<u8>,
    /// How many bytes the byte order mark has, which isn't fed to the tokens.
    pub(crate) skipped: u64,
    pub(crate) stage: Stage,
}

// How many bytes `<!DOCTYPE` has.
const FRONT_LENGTH: usize = 9;

impl Progress {
    /// No byte was read.
    pub(crate) fn new(alloc: Global) -> Result<Progress, NoMemory>
        ensures stands { IfOk result (λ progress. Follows progress [] []) }
        ensures reached { IfOk result (λ progress. reached progress ≡ 0) }
    {
        Ok(Progress {
            tokens: Tokens::new(alloc)?,
            reader: Reader::start(alloc),
            front: Vec::new(alloc),
            skipped: 0,
            stage: Stage::AtMark,
        })
    }

    /// Reads what comes next, which is whole characters.
    pub(crate) fn read(&mut self, text: &[u8]) -> Result<(), NoMemory>
        requires characters { IsUtf8 text.now }
        requires room { reached self.old + length text.now < 2 ^ 63 }
        ensures follows { OnOk result ((bytes : List ℕ) →
            Follows self.old bytes [] → Follows self.new (bytes ++ text.now) []) }
        ensures reached { OnOk result (reached self.new ≤ reached self.old + length text.now) }
    {
        if text.is_empty() {
            return Ok(());
        }
        let mut at = self.pass_mark(text);
        'tokens: while at < text.len() {
            at += self.read_token(&text[at..])?;
            at += self.pass_idle(&text[at..]);
        }
        Ok(())
    }

    /// Passes the byte order mark, and answers how many bytes it has.
    fn pass_mark(&mut self, text: &[u8]) -> usize
        requires characters { IsUtf8 text.now }
        requires some { 0 < length text.now }
        ensures follows { (bytes : List ℕ) → Follows self.old bytes text.now → Follows self.new bytes (drop result text.now) }
        ensures past { is_past_mark self.new.stage ≡ true }
        ensures within { result ≤ length text.now }
        ensures reached { reached self.new ≤ reached self.old + result }
    {
        let Stage::AtMark = self.stage else {
            return 0;
        };
        let count = mark_length(text);
        self.stage = Stage::AtFirst;
        self.skipped = count as u64;
        count
    }

    /// Reads one token, or the bytes ahead of one that is cut, and answers how many bytes it took.
    fn read_token(&mut self, ahead: &[u8]) -> Result<usize, NoMemory>
        requires some { 0 < length ahead.now }
        requires past { is_past_mark self.old.stage ≡ true }
        requires room { reached self.old + length ahead.now < 2 ^ 63 }
        ensures follows { IfOk result (λ n. (bytes : List ℕ) →
            Follows self.old bytes ahead.now → Follows self.new bytes (drop n ahead.now)) }
        ensures past { OnOk result (is_past_mark self.new.stage ≡ true) }
        ensures within { IfOk result (λ n. n ≤ length ahead.now) }
        ensures reached { IfOk result (λ n. reached self.new ≤ reached self.old + n) }
        ensures on { IfOk result (λ n. next_place self.old < next_place self.new + n) }
    {
        if !self.stage.is_reading() {
            return Ok(ahead.len());
        }
        let place = self.place();
        match self.tokens.feed(ahead) {
            Ok(
                Fed {
                    taken,
                    token: Some(token),
                },
            ) => {
                self.front.clear();
                self.take_token(place, token)?;
                Ok(taken)
            }
            Ok(Fed { taken, token: None }) => {
                keep_front(&mut self.front, ahead)?;
                Ok(taken)
            }
            Err(TokenFault::BadToken(_)) => {
                keep_front(&mut self.front, ahead)?;
                self.stage = Stage::Broke(place, reason_without_token(self.front.as_slice()));
                Ok(ahead.len())
            }
            Err(TokenFault::NoMemory) => Err(NoMemory),
        }
    }

    /// Passes the empty tags and the characters ahead that occur in a skipped part, as far as they are told without
    /// memory, and answers how many bytes they have. The reader isn't asked, since they change nothing.
    fn pass_idle(&mut self, ahead: &[u8]) -> usize
        requires room { reached self.old + length ahead.now < 2 ^ 63 }
        ensures follows { (bytes : List ℕ) → Follows self.old bytes ahead.now → Follows self.new bytes (drop result ahead.now) }
        ensures stage { self.new.stage ≡ self.old.stage }
        ensures within { result ≤ length ahead.now }
        ensures reached { reached self.new ≤ reached self.old + result }
        ensures on { next_place self.old ≤ next_place self.new }
    {
        let mut at = 0;
        let Stage::Going = self.stage else {
            return 0;
        };
        if !self.reader.skips() {
            return 0;
        }
        'tokens: while let Some(taken) = pass_one(&mut self.tokens, &ahead[at..]) {
            at += taken;
        }
        at
    }

    /// The one document that the text spells, or why it spells none.
    pub(crate) fn finish(self, length: u64) -> Result<Document, DocFault>
        requires { reached self < 2 ^ 63 }
        ensures found { IfOk result (λ document. (bytes : List ℕ) → Follows self bytes [] → DocBytes document bytes) }
        ensures fault { IfErr result (λ refusal. (bytes : List ℕ) → IsUtf8 bytes → length ≡ list_length bytes →
            Follows self bytes [] → NamesFirstFault refusal bytes) }
    {
        match self.stage {
            Stage::AtMark => Err(DocFault::Truncated(length)),
            Stage::Broke(offset, reason) => Err(DocFault::At(offset, reason)),
            Stage::AtFirst | Stage::Going => self.finish_tokens(length),
        }
    }

    /// The same where no fault was met.
    fn finish_tokens(self, length: u64) -> Result<Document, DocFault>
        requires room { reached self < 2 ^ 63 }
        requires reading { is_reading self.stage ≡ true }
        ensures found { IfOk result (λ document. (bytes : List ℕ) → Follows self bytes [] → DocBytes document bytes) }
        ensures fault { IfErr result (λ refusal. (bytes : List ℕ) → IsUtf8 bytes → length ≡ list_length bytes →
            Follows self bytes [] → NamesFirstFault refusal bytes) }
    {
        let mut last = self;
        let place = last.place();
        match last.tokens.finish() {
            Ok(None) => last.finish_reader(length),
            Ok(Some(token)) => {
                last.take_token(place, token)?;
                last.finish_reader(length)
            }
            Err(TokenFault::BadToken(_)) => Err(DocFault::At(
                place,
                reason_without_token(last.front.as_slice()),
            )),
            Err(TokenFault::NoMemory) => Err(DocFault::NoMemory),
        }
    }

    /// The same where all tokens were read.
    fn finish_reader(self, length: u64) -> Result<Document, DocFault>
        ensures found { IfOk result (λ document. (bytes : List ℕ) → is_past_mark self.stage ≡ true →
            HasRead self.stage (view self.reader) bytes (list_length bytes) → DocBytes document bytes) }
        ensures fault { IfErr result (λ refusal. (bytes : List ℕ) → is_past_mark self.stage ≡ true → IsUtf8 bytes →
            length ≡ list_length bytes → HasRead self.stage (view self.reader) bytes (list_length bytes) → NamesFirstFault refusal bytes) }
    {
        match self.stage {
            Stage::Broke(offset, reason) => Err(DocFault::At(offset, reason)),
            _ => match self.reader.finish() {
                Some(document) => Ok(document),
                None => Err(DocFault::Truncated(length)),
            },
        }
    }

    /// The offset of the next token.
    fn place(&self) -> u64
        requires { reached self.now < 2 ^ 63 }
        ensures { result ≡ next_place self.now }
    {
        self.skipped + self.tokens.offset()
    }

    /// Takes the token at the offset, or keeps the first reason that applies to it.
    fn take_token(&mut self, offset: u64, token: Token) -> Result<(), NoMemory>
        requires reading { is_reading self.old.stage ≡ true }
        ensures reads { OnOk result ((input : List ℕ) (e : ℕ) → HasRead self.old.stage (view self.old.reader) input offset →
            TokenAt input offset token e → HasRead self.new.stage (view self.new.reader) input e) }
        ensures past { OnOk result (is_past_mark self.new.stage ≡ true) }
        ensures tokens { self.new.tokens ≡ self.old.tokens }
        ensures front { self.new.front ≡ self.old.front }
        ensures skipped { self.new.skipped ≡ self.old.skipped }
    {
        if self.stage.is_declared(&token) {
            self.stage = Stage::Going;
            return Ok(());
        }
        self.take_later(offset, token)
    }

    /// The same for a token that is no declaration in front.
    fn take_later(&mut self, offset: u64, token: Token) -> Result<(), NoMemory>
        ensures reads { OnOk result ((input : List ℕ) (e : ℕ) → IsReadTo input offset (view self.old.reader) →
            TokenAt input offset token e → HasRead self.new.stage (view self.new.reader) input e) }
        ensures past { OnOk result (is_past_mark self.new.stage ≡ true) }
        ensures tokens { self.new.tokens ≡ self.old.tokens }
        ensures front { self.new.front ≡ self.old.front }
        ensures skipped { self.new.skipped ≡ self.old.skipped }
    {
        match self.reader.take(token) {
            Ok(()) => {
                self.stage = Stage::Going;
                Ok(())
            }
            Err(ReaderFault::NoMemory) => Err(NoMemory),
            Err(ReaderFault::Because(reason)) => {
                self.stage = Stage::Broke(offset, reason);
                Ok(())
            }
        }
    }
}

/// Takes the empty tag or the characters at the front of the piece, where one is told to be there without memory.
fn pass_one(tokens: &mut Tokens, piece: &[u8]) -> Option<usize>
    requires { fed_bytes tokens.old + length piece.now < 2 ^ 63 }
    ensures token { IfSome result (λ taken. PassesIdle (held_bytes tokens.old) piece.now taken) }
    ensures after { IfSome result (λ taken. tokens.new ≡ Live (fed_bytes tokens.old + taken) []) }
    ensures ahead { IfSome result (λ taken. next_offset tokens.old < fed_bytes tokens.old + taken) }
    ensures taken { IfSome result (λ taken. taken ≤ length piece.now) }
    ensures none { IfNone result (tokens.new ≡ tokens.old) }
{
    match tokens.pass_empty_tag(piece) {
        Some(taken) => Some(taken),
        None => tokens.pass_characters(piece),
    }
}

/// Keeps the first bytes of those that are held, where these come besides.
fn keep_front(front: &mut Vec<u8>, ahead: &[u8]) -> Result<(), NoMemory>
    ensures { OnOk result ((held : List ℕ) →
        front.old.items ≡ take front_length held → front.new.items ≡ take front_length (held ++ ahead.now)) }
{
    let room = FRONT_LENGTH.saturating_sub(front.len());
    front.extend_from_slice(&ahead[..room.min(ahead.len())])?;
    Ok(())
}

/// How many bytes the byte order mark at the front has.
fn mark_length(bytes: &[u8]) -> usize
    ensures length { result ≡ first_offset bytes.now }
    ensures inside { result ≤ length bytes.now }
{
    if bytes.starts_with(b"\xEF\xBB\xBF") {
        3
    } else {
        0
    }
}

/// Why bytes are refused that no token spells: they begin a document type, or nothing that is known.
fn reason_without_token(rest: &[u8]) -> Reason
    ensures { result ≡ the_reason rest.now }
{
    if rest.starts_with(b"<!DOCTYPE") {
        Reason::Doctype
    } else {
        Reason::BadToken
    }
}
