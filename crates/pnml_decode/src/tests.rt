//! Where a document is refused and why, row by row, and the limits from both sides.
mod faulty;
mod limits;
mod nets;
mod pieces;
mod whole;

use crate::{DocFault, Reason, decode};
use std::alloc::{AllocError, Global};
use std::process::Abort;
use std::test::Fail;

/// The front of a document, up to what its net has.
const OPENING: &[u8] =
    b"<pnml xmlns='http://www.pnml.org/version-2009/grammar/pnml'><net id='n' type='http://www.pnml.org/version-2009/grammar/ptnet'>";

/// The tag of a root, and fronts that go on to a place, an arc and the text of an initial marking in a net.
const ROOT: &[u8] = b"<pnml xmlns='http://www.pnml.org/version-2009/grammar/pnml'>";

const PLACE: &[u8] =
    b"<pnml xmlns='http://www.pnml.org/version-2009/grammar/pnml'><net id='n' type='http://www.pnml.org/version-2009/grammar/ptnet'><place id='p'>";

const ARC: &[u8] =
    b"<pnml xmlns='http://www.pnml.org/version-2009/grammar/pnml'><net id='n' type='http://www.pnml.org/version-2009/grammar/ptnet'><arc id='a' source='p' target='t'>";

const MARKING: &[u8] =
    b"<pnml xmlns='http://www.pnml.org/version-2009/grammar/pnml'><net id='n' type='http://www.pnml.org/version-2009/grammar/ptnet'><place id='p'><initialMarking><text>";

/// The end of a net and the front of the next one.
const NEXT_NET: &[u8] = b"</net><net id='m' type='http://www.pnml.org/version-2009/grammar/ptnet'>";

/// The end of a document.
const CLOSING: &[u8] = b"</net></pnml>";

/// The fault of the bytes, if they spell no document.
fn fault(alloc: Global, bytes: &[u8]) -> Option<DocFault> {
    match decode(alloc, bytes) {
        Ok(_) => None,
        Err(fault) => Some(fault),
    }
}

/// One text after the other.
fn joined(alloc: Global, first: &[u8], second: &[u8]) -> Result<Vec<u8>, AllocError> {
    let mut text = Vec::new(alloc);
    text.extend_from_slice(first)?;
    text.extend_from_slice(second)?;
    Ok(text)
}

/// Each fault is found after the head and what comes before it, for its reason.
fn check_faults(
    rt: &impl Abort,
    alloc: Global,
    head: &[u8],
    rows: &[(&[u8], &[u8], Reason)],
) -> Result<(), AllocError> {
    for row in rows.iter() {
        let front = joined(alloc, head, row.0)?;
        let text = joined(alloc, front.as_slice(), row.1)?;
        let wanted = Some(DocFault::At(front.len() as u64, row.2));
        assert_eq!(rt;
            fault(alloc, text.as_slice()),
            wanted,
            "{:?} {:?}",
            row.0,
            row.1
        );
    }
    Ok(())
}

#[test]
fn the_first_fault_is_named(rt: HostRuntime) -> Result<(), Fail> {
    check_faults(&rt, rt.alloc(), b"", faulty::FROM_THE_FRONT.as_slice())?;
    check_faults(&rt, rt.alloc(), ROOT, faulty::IN_THE_ROOT.as_slice())?;
    check_faults(
        &rt,
        rt.alloc(),
        whole::DOCUMENTS[0],
        faulty::AFTER_THE_ROOT.as_slice(),
    )?;
    check_faults(&rt, rt.alloc(), OPENING, faulty::IN_A_NET.as_slice())?;
    check_faults(&rt, rt.alloc(), PLACE, faulty::IN_A_PLACE.as_slice())?;
    check_faults(&rt, rt.alloc(), MARKING, faulty::IN_A_MARKING.as_slice())?;
    check_faults(&rt, rt.alloc(), ARC, faulty::IN_AN_ARC.as_slice())?;
    Ok(())
}

/// Bytes that stop before the document is whole or aren't UTF-8, and their fault.
const CUT: [(&[u8], DocFault); 11] = [
    (b"", DocFault::Truncated(0)),
    (b"\xEF\xBB\xBF", DocFault::Truncated(3)),
    (b" ", DocFault::Truncated(1)),
    (b"<?xml version='1.0'?>", DocFault::Truncated(21)),
    (b"<?xml version='1.0'?", DocFault::At(0, Reason::BadToken)),
    (b"<!---->\n", DocFault::Truncated(8)),
    (b"\xEF\xBB", DocFault::NotUtf8(0)),
    (b"\xFF", DocFault::NotUtf8(0)),
    (b"<1>\xC3\xA9\xC3", DocFault::NotUtf8(5)),
    (b"<!DOCTYPE \xED\xA0\x80>", DocFault::NotUtf8(10)),
    (b"x\xF4\x90\x80\x80", DocFault::NotUtf8(1)),
];

#[test]
fn cut_inputs_are_told(rt: HostRuntime) -> Result<(), Fail> {
    for row in CUT.iter() {
        assert_eq!(rt; fault(rt.alloc(), row.0), Some(row.1));
    }
    for inside in whole::IN_A_NET.iter() {
        let text = joined(rt.alloc(), OPENING, inside)?;
        let wanted = Some(DocFault::Truncated(text.len() as u64));
        assert_eq!(rt; fault(rt.alloc(), text.as_slice()), wanted);
    }
    Ok(())
}

#[test]
fn documents_are_decoded(rt: HostRuntime) -> Result<(), Fail> {
    for text in whole::DOCUMENTS.iter() {
        assert_eq!(rt; fault(rt.alloc(), text), None);
    }
    for inside in whole::IN_A_NET.iter() {
        let mut text = joined(rt.alloc(), OPENING, inside)?;
        text.extend_from_slice(CLOSING)?;
        assert_eq!(rt; fault(rt.alloc(), text.as_slice()), None);
    }
    Ok(())
}
