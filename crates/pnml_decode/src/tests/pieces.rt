use super::*;
use crate::Decoder;
use net_values::Document;

/// Bytes that are cut in each of these sizes.
const SIZES: [u8; 4] = [1, 2, 3, 7];

/// More bytes than a test feeds.
const MANY: u64 = 1 << 32;

/// The fault of the bytes in pieces of this size, if they spell no document.
fn fault_of_pieces(alloc: Global, bytes: &[u8], size: u8) -> Option<DocFault> {
    match decode_pieces(alloc, bytes, size) {
        Ok(_) => None,
        Err(fault) => Some(fault),
    }
}

/// What a decoder answers that is fed the bytes in pieces of this size.
fn decode_pieces(alloc: Global, bytes: &[u8], size: u8) -> Result<Document, DocFault> {
    let mut decoder = Decoder::new(alloc)?;
    for piece in bytes.chunks(size.max(1) as usize) {
        if decoder.fed() < MANY {
            decoder.feed(piece)?;
        }
    }
    decoder.finish()
}

const TEXTS: [&[u8]; 12] = [
    b"",
    b"\xEF\xBB\xBF",
    b"\xEF\xBB",
    b"\xEF\xBB\xBF<?xml version='1.0'?><pnml xmlns='u'/>",
    b"<pnml xmlns='http://www.pnml.org/version-2009/grammar/pnml'><net id='\xC3\xA9' type='http://www.pnml.org/version-2009/grammar/ptnet'/></pnml>",
    b"<pnml xmlns='http://www.pnml.org/version-2009/grammar/pnml'><net id='\xC3",
    b"<pnml xmlns='http://www.pnml.org/version-2009/grammar/pnml'><!DOCTYPE a>",
    b"<!DOCTYP",
    b"<!DOC \xFF>",
    b"<a/><b \xF0\x9F\x98\x80='",
    b"<pnml xmlns='http://www.pnml.org/version-2009/grammar/pnml'> \xEF\xBB\xBF",
    b"<!-- \xE2\x82 -->",
];

#[test]
fn pieces_are_decoded_as_the_whole(rt: HostRuntime) -> Result<(), Fail> {
    let alloc = rt.alloc();
    for text in &TEXTS {
        let whole = fault(alloc, *text);
        for size in &SIZES {
            assert_eq!(rt; fault_of_pieces(alloc, *text, *size), whole);
        }
    }
    Ok(())
}
