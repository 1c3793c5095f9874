ghost use Rattle.std.specs.Prelude.{IfOk, IfErr, IsUtf8};
ghost use Rattle.pnml_grammar.specs.Documents.{DocBytes};
ghost use Rattle.pnml_decode.specs.Faults.{NamesFirstFault, IfNoMemory};

use crate::decoder::Decoder;
use crate::fault::DocFault;
use net_values::Document;
use simdutf8::compat::from_utf8;
use std::alloc::Global;

/// The one document that the bytes spell. It is PNML (ISO/IEC 15909-2) in a narrow profile of XML 1.0.
///
/// Errors, in this order: `NotUtf8(length)` exactly where the bytes aren't UTF-8, with the length of their
/// longest front that is; `At(offset, reason)` exactly where an offset is faulty, the first such, with the
/// first reason that applies there; `Truncated(length)` exactly where the bytes begin a document and end
/// before it is whole. `NoMemory` where memory runs out; bytes that aren't UTF-8 are told without any.
pub fn decode(alloc: Global, bytes: &[u8]) -> Result<Document, DocFault>
    ensures found { IfOk result (λ document. DocBytes document bytes.now) }
    ensures fault { IfErr result (λ refusal. NamesFirstFault refusal bytes.now) }
    ensures memory { IfErr result (λ refusal. IfNoMemory refusal (IsUtf8 bytes.now)) }
{
    match decode_piece(alloc, bytes) {
        Err(DocFault::NoMemory) => Err(fault_without_memory(bytes)),
        answer => answer,
    }
}

/// The same, where bytes that aren't UTF-8 may be told to want memory.
fn decode_piece(alloc: Global, bytes: &[u8]) -> Result<Document, DocFault>
    ensures found { IfOk result (λ document. DocBytes document bytes.now) }
    ensures fault { IfErr result (λ refusal. NamesFirstFault refusal bytes.now) }
{
    let mut decoder = Decoder::new(alloc)?;
    decoder.feed(bytes)?;
    decoder.finish()
}

/// What is answered where memory was refused.
fn fault_without_memory(bytes: &[u8]) -> DocFault
    ensures fault { NamesFirstFault result bytes.now }
    ensures memory { IfNoMemory result (IsUtf8 bytes.now) }
{
    match from_utf8(bytes) {
        Ok(_) => DocFault::NoMemory,
        Err(error) => DocFault::NotUtf8(error.valid_up_to() as u64),
    }
}
