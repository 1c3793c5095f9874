ghost use Rattle.std.specs.Prelude.{◌≡◌, ◌+◌, ◌<◌, ◌≤◌, ◌^◌, ℕ, List, [], ◌++◌, false, length, take, drop, vec_len, IfOk, IfErr, OnOk, IsUtf8};
ghost use Rattle.pnml_grammar.specs.Documents.{DocBytes};
ghost use Rattle.pnml_decode.specs.Faults.{IfNoMemory, NamesFirstFault};
ghost use Rattle.pnml_decode.specs.Standing.{Counts, Follows, IsCut, IsTaken, character_length, is_text, reached, taken_by};

use crate::fault::DocFault;
use crate::progress::Progress;
use net_values::{Document, NoMemory};
use simdutf8::compat::from_utf8;
use std::alloc::Global;

/// The bytes of an input that comes in pieces, of which whole characters are read.
#[derive(Drop)]
pub(crate) struct Input {
    pub(crate) progress: Progress,
    /// How many bytes the characters that were read have.
    pub(crate) whole: u64,
    /// The bytes after them, which are no character yet.
    pub(crate) cut: Vec<u8>,
    /// Whether no character can come after those that were read.
    pub(crate) is_not_utf8: bool,
}

// How many bytes a character has at most.
const CHARACTER_LENGTH: usize = 4;

impl Input {
    /// No byte was taken.
    pub(crate) fn new(alloc: Global) -> Result<Input, NoMemory>
        ensures taken { IfOk result (λ input. IsTaken input []) }
        ensures counts { IfOk result (λ input. Counts input) }
        ensures none { IfOk result (λ input. taken_by input ≡ 0) }
    {
        Ok(Input {
            progress: Progress::new(alloc)?,
            whole: 0,
            cut: Vec::new(alloc),
            is_not_utf8: false,
        })
    }

    /// Takes the whole piece.
    pub(crate) fn take(&mut self, piece: &[u8]) -> Result<(), NoMemory>
        requires counts { Counts self.old }
        requires room { taken_by self.old + length piece.now < 2 ^ 63 }
        ensures taken { OnOk result ((bytes : List ℕ) → IsTaken self.old bytes → IsTaken self.new (bytes ++ piece.now)) }
        ensures counts { OnOk result (Counts self.new) }
        ensures room { OnOk result (taken_by self.new ≤ taken_by self.old + length piece.now) }
    {
        let mut at = 0;
        'pieces: while at < piece.len() {
            at += self.take_some(&piece[at..])?;
        }
        Ok(())
    }

    /// Takes the whole piece, or one byte of it for a character that is cut, and answers how many bytes it took.
    fn take_some(&mut self, piece: &[u8]) -> Result<usize, NoMemory>
        requires some { 0 < length piece.now }
        requires counts { Counts self.old }
        requires room { taken_by self.old + length piece.now < 2 ^ 63 }
        ensures taken { IfOk result (λ n. (bytes : List ℕ) → IsTaken self.old bytes → IsTaken self.new (bytes ++ take n piece.now)) }
        ensures counts { OnOk result (Counts self.new) }
        ensures room { IfOk result (λ n. taken_by self.new ≤ taken_by self.old + n) }
        ensures some { IfOk result (λ n. 0 < n) }
        ensures within { IfOk result (λ n. n ≤ length piece.now) }
    {
        if self.is_not_utf8 {
            return Ok(piece.len());
        }
        if self.cut.is_empty() {
            self.take_characters(piece)?;
            return Ok(piece.len());
        }
        let alloc = *self.cut.allocator();
        let mut joined = std::mem::replace(&mut self.cut, Vec::new(alloc));
        joined.push(piece[0])?;
        self.take_characters(joined.as_slice())?;
        Ok(1)
    }

    /// Reads the characters at the front of the bytes, where none was cut before, and keeps what follows them.
    fn take_characters(&mut self, bytes: &[u8]) -> Result<(), NoMemory>
        requires counts { Counts self.old }
        requires room { self.old.whole + length bytes.now < 2 ^ 63 }
        requires going { self.old.is_not_utf8 ≡ false }
        ensures taken { OnOk result ((characters : List ℕ) → IsUtf8 characters → self.old.whole ≡ length characters →
            Follows self.old.progress characters [] → IsTaken self.new (characters ++ bytes.now)) }
        ensures counts { OnOk result (Counts self.new) }
        ensures room { OnOk result (taken_by self.new ≤ self.old.whole + length bytes.now) }
    {
        let count = text_length(bytes);
        let (text, rest) = bytes.split_at(count);
        self.progress.read(text)?;
        self.whole += count as u64;
        self.cut.clear();
        if rest.len() < CHARACTER_LENGTH {
            self.cut.extend_from_slice(rest)?;
        } else {
            self.is_not_utf8 = true;
        }
        Ok(())
    }

    /// The one document that the bytes spell, or why they spell none.
    pub(crate) fn finish(self) -> Result<Document, DocFault>
        requires counts { Counts self }
        requires room { taken_by self < 2 ^ 63 }
        ensures found { IfOk result (λ document. (bytes : List ℕ) → IsTaken self bytes → DocBytes document bytes) }
        ensures fault { IfErr result (λ refusal. (bytes : List ℕ) → IsTaken self bytes → NamesFirstFault refusal bytes) }
        ensures memory { IfErr result (λ refusal. (bytes : List ℕ) → IsTaken self bytes → IfNoMemory refusal (IsUtf8 bytes)) }
    {
        if self.is_text() {
            self.progress.finish(self.whole)
        } else {
            Err(DocFault::NotUtf8(self.whole))
        }
    }

    /// Whether the bytes so far are whole characters.
    fn is_text(&self) -> bool
        ensures { result ≡ is_text self.now }
    {
        !self.is_not_utf8 && self.cut.is_empty()
    }
}

/// How many bytes at the front are UTF-8, at most; what follows them begins no character.
fn text_length(bytes: &[u8]) -> usize
    ensures within { result ≤ length bytes.now }
    ensures text { IsUtf8 (take result bytes.now) }
    ensures cut { IsCut (drop result bytes.now) }
{
    match from_utf8(bytes) {
        Ok(_) => bytes.len(),
        Err(error) => error.valid_up_to(),
    }
}
