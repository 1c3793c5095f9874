use super::{CLOSING, NEXT_NET, OPENING, decode, fault, joined};
use crate::{Counted, DocFault, Reason};
use std::test::Fail;

/// A whole net.
const NET: &[u8] = b"<net id='n' type='http://www.pnml.org/version-2009/grammar/ptnet'/>";

/// As many nets after an open one as may occur are decoded, and a net after them is refused.
#[test]
fn nets_are_counted(rt: HostRuntime) -> Result<(), Fail> {
    let alloc = rt.alloc();
    let mut front = joined(alloc, OPENING, b"</net>")?;
    for _ in 1..64 {
        front.extend_from_slice(NET)?;
    }
    let whole = joined(alloc, front.as_slice(), b"</pnml>")?;
    assert_eq!(rt; fault(alloc, whole.as_slice()), None);
    let more = joined(alloc, front.as_slice(), NET)?;
    let refused = DocFault::At(front.len() as u64, Reason::TooMany(Counted::Nets));
    assert_eq!(rt; fault(alloc, more.as_slice()), Some(refused));
    Ok(())
}

/// The nets of a document are in the order in which they are written, each with its own items.
#[test]
fn nets_are_in_order(rt: HostRuntime) -> Result<(), Fail> {
    let alloc = rt.alloc();
    let mut text = joined(alloc, OPENING, b"<place id='p'/>")?;
    text.extend_from_slice(NEXT_NET)?;
    text.extend_from_slice(CLOSING)?;
    let document = decode(alloc, text.as_slice())?;
    let mut told = Vec::new(alloc);
    for net in document.nets.as_slice() {
        told.extend_from_slice(net.id.as_bytes())?;
        for _ in net.items.as_slice() {
            told.push(b'.')?;
        }
    }
    assert_eq!(rt; told.as_slice(), b"n.m".as_slice());
    Ok(())
}
