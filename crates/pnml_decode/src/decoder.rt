ghost use Rattle.std.specs.Prelude.{◌≡◌, ◌≤◌, ◌<◌, ◌^◌, false};
ghost use Rattle.pnml_decode.specs.Standing.{Counts, taken_by};

use crate::fault::DocFault;
use crate::input::Input;
use net_values::{Document, NoMemory};
use std::alloc::Global;

/// Decodes a document that comes in pieces, however they are cut: it reads while it is fed, and keeps of the input
/// only what it needs of a token that isn't complete yet.
#[derive(Drop)]
pub struct Decoder {
    fed: u64,
    is_out_of_memory: bool,
    input: Input,
    ghost fits: { is_out_of_memory ≡ false → Counts input × (taken_by input ≤ fed) × (fed < 2 ^ 63) },
}

impl Decoder {
    ghost use Rattle.std.specs.Prelude.{◌≡◌, ◌+◌, ◌<◌, ◌^◌, ℕ, List, [], ◌++◌, length, IfOk, IfErr, OnOk, OnErr, IsUtf8};
    ghost use Rattle.pnml_grammar.specs.Documents.{DocBytes};
    ghost use Rattle.pnml_decode.specs.Faults.{IfNoMemory, NamesFirstFault};
    ghost use Rattle.pnml_decode.specs.Feeding.{IsOutOfMemory, StandsFor, fed_by};

    /// Nothing was fed.
    pub fn new(alloc: Global) -> Result<Decoder, NoMemory>
        ensures stands { IfOk result (λ decoder. StandsFor decoder []) }
    {
        Ok(Decoder {
            fed: 0,
            is_out_of_memory: false,
            input: Input::new(alloc)?,
        })
    }

    /// Takes the whole piece, which follows those before. A fault of the document is answered by `finish` alone.
    ///
    /// After `NoMemory` every later call answers the same.
    pub fn feed(&mut self, piece: &[u8]) -> Result<(), NoMemory>
        requires { fed_by self.old + length piece.now < 2 ^ 63 }
        ensures stands { OnOk result ((bytes : List ℕ) → StandsFor self.old bytes → StandsFor self.new (bytes ++ piece.now)) }
        ensures fed { OnOk result (fed_by self.new ≡ fed_by self.old + length piece.now) }
        // A refusal is kept, and the same is answered from then on.
        ensures kept { OnErr result (fed_by self.new ≡ fed_by self.old) }
        ensures refuses { OnErr result (IsOutOfMemory self.new) }
        ensures again { IsOutOfMemory self.old → OnOk result ⊥ }
    {
        if self.is_out_of_memory {
            return Err(NoMemory);
        }
        match self.input.take(piece) {
            Ok(()) => {
                self.fed += piece.len() as u64;
                Ok(())
            }
            Err(refusal) => {
                self.is_out_of_memory = true;
                Err(refusal)
            }
        }
    }

    /// The one document that the bytes fed spell, as [`decode`](crate::decode) answers on all of them.
    pub fn finish(self) -> Result<Document, DocFault>
        ensures found { IfOk result (λ document. (bytes : List ℕ) → StandsFor self bytes → DocBytes document bytes) }
        ensures fault { IfErr result (λ refusal. (bytes : List ℕ) → StandsFor self bytes → NamesFirstFault refusal bytes) }
        ensures memory { IfErr result (λ refusal. (bytes : List ℕ) → StandsFor self bytes → IfNoMemory refusal (IsUtf8 bytes)) }
        ensures again { IsOutOfMemory self → result ≡ Err DocFault.NoMemory }
    {
        if self.is_out_of_memory {
            return Err(DocFault::NoMemory);
        }
        self.input.finish()
    }

    /// How many bytes were fed. After `NoMemory` the piece that was refused doesn't count.
    pub fn fed(&self) -> u64
        ensures { result ≡ fed_by self.now }
    {
        self.fed
    }
}
