ghost use Rattle.std.specs.Prelude.{◌≡◌, [], ◌++◌, IfOk, OnOk, OnErr, decimal};
ghost use Rattle.std.specs.Str.{IsUtf8};

use crate::no_memory::NoMemory;
use itoa::Buffer;
use std::alloc::Global;
use std::marker::Model;

/// UTF-8 text. Contracts see it as the list of its bytes.
#[derive(Drop)]
pub struct Text {
    text: String,
}

impl Model for Text {
    ghost use Rattle.std.specs.Prelude.{List, ℕ};
    ghost use Rattle.std.specs.String.{string_bytes};

    ghost Value = { List ℕ };

    ghost view = { λ t. string_bytes t.text };
}

impl Text {
    /// An empty text, which takes no memory until it grows.
    pub fn new(alloc: Global) -> Text
        ensures { result ≡ [] }
    {
        Text {
            text: String::new(alloc),
        }
    }

    /// The text of these bytes, which the caller knows to be UTF-8.
    pub fn from_bytes(alloc: Global, bytes: &[u8]) -> Result<Text, NoMemory>
        requires { IsUtf8 bytes.now }
        ensures { IfOk result (λ text. text ≡ bytes.now) }
    {
        match std::str::from_utf8(bytes) {
            Ok(text) => Ok(Text {
                text: String::from_str(alloc, text)?,
            }),
            Err(_) => unreachable!(),
        }
    }

    /// Appends a piece. A refusal leaves the text unchanged.
    pub fn push(&mut self, piece: &str) -> Result<(), NoMemory>
        ensures ok { OnOk result (self.new ≡ self.old ++ piece.now) }
        ensures err { OnErr result (self.new ≡ self.old) }
    {
        self.text.push_str(piece)?;
        Ok(())
    }

    /// Appends a number in decimal. A refusal leaves the text unchanged.
    pub fn push_number(&mut self, number: u128) -> Result<(), NoMemory>
        ensures ok { OnOk result (self.new ≡ self.old ++ decimal number) }
        ensures err { OnErr result (self.new ≡ self.old) }
    {
        let mut buffer = Buffer::new();
        self.push(buffer.format(number))
    }

    /// The bytes, which are UTF-8.
    pub fn as_bytes(&self) -> &[u8]
        ensures value { result.now ≡ self.now }
        ensures utf8 { IsUtf8 result.now }
    {
        self.as_str().as_bytes()
    }

    /// The same text, lent as a `str`.
    pub fn as_str(&self) -> &str
        ensures { result.now ≡ self.now }
    {
        self.text.as_str()
    }

    /// An equal text.
    pub fn copy(&self, alloc: Global) -> Result<Text, NoMemory>
        ensures { IfOk result (λ text. text ≡ self.now) }
    {
        Ok(Text {
            text: String::from_str(alloc, self.as_str())?,
        })
    }
}
