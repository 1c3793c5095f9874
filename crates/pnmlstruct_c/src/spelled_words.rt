ghost use Rattle.std.specs.Prelude.{◌≡◌, IfOk};
ghost use Rattle.pnmlstruct_c.specs.Memory.{Spells, words_of};

use net_values::{List, NoMemory, Text};
use std::alloc::Global;
use struct_core::Words;

/// The words that the bytes spell.
pub(crate) fn read_words(alloc: Global, bytes: &[u8]) -> Result<Words, NoMemory>
    ensures { IfOk result (Spells bytes.now) }
{
    match std::str::from_utf8(bytes) {
        Ok(text) => cut(alloc, text),
        Err(_) => Ok(List::new(alloc)),
    }
}

// The words of a text.
fn cut(alloc: Global, text: &str) -> Result<Words, NoMemory>
    ensures { IfOk result (λ words. words ≡ words_of text.now) }
{
    let mut words = List::new(alloc);
    for piece in text.split(' ') {
        let mut word = Text::new(alloc);
        word.push(piece)?;
        words.push(word)?;
    }
    Ok(words)
}
