use super::{CLOSING, NEXT_NET, OPENING, fault, joined};
use crate::{Counted, DocFault, Reason};
use std::alloc::{AllocError, Global};
use std::process::Abort;
use std::test::Fail;

/// A value between two texts after what is in front of its token: it may have so many bytes, and with
/// one more the token is refused.
#[derive(Clone, Copy)]
struct Value {
    front: &'static [u8],
    before: &'static [u8],
    after: &'static [u8],
    limit: usize,
    reason: Reason,
}

const VALUES: [Value; 6] = [
    Value {
        front: b"",
        before: b"<place id='",
        after: b"'/>",
        limit: 4_096,
        reason: Reason::BadAttribute,
    },
    Value {
        front: b"",
        before: b"<arc id='a' target='t' source='",
        after: b"'/>",
        limit: 4_096,
        reason: Reason::BadAttribute,
    },
    Value {
        front: b"",
        before: b"<arc id='a' source='p' target='",
        after: b"'></arc>",
        limit: 4_096,
        reason: Reason::BadAttribute,
    },
    Value {
        front: b"",
        before: b"<referenceTransition id='r' ref='",
        after: b"'/>",
        limit: 4_096,
        reason: Reason::BadAttribute,
    },
    Value {
        front: b"<name><text>",
        before: b"",
        after: b"</text></name>",
        limit: 65_536,
        reason: Reason::TooMany(Counted::NameBytes),
    },
    Value {
        front: b"<name><text>a",
        before: b"<![CDATA[",
        after: b"]]></text></name>",
        limit: 65_535,
        reason: Reason::TooMany(Counted::NameBytes),
    },
];

/// A piece that may occur so many times, and the tag that is refused after the last one.
#[derive(Clone, Copy)]
struct Count {
    before: &'static [u8],
    piece: &'static [u8],
    limit: usize,
    next: &'static [u8],
    after: &'static [u8],
    reason: Reason,
}

const COUNTS: [Count; 10] = [
    Count {
        before: b"",
        piece: b"<place id='p'/>",
        limit: 2_048,
        next: b"<place id='p'>",
        after: b"",
        reason: Reason::TooMany(Counted::Places),
    },
    Count {
        before: b"",
        piece: b"<transition id='t'/>",
        limit: 2_048,
        next: b"<transition id='t'/>",
        after: b"",
        reason: Reason::TooMany(Counted::Transitions),
    },
    Count {
        before: b"",
        piece: b"<arc id='a' source='p' target='t'/>",
        limit: 65_536,
        next: b"<arc id='a' source='p' target='t'/>",
        after: b"",
        reason: Reason::TooMany(Counted::Arcs),
    },
    Count {
        before: b"",
        piece: b"<referencePlace id='r' ref='p'/><referenceTransition id='r' ref='t'/>",
        limit: 2_048,
        next: b"<referencePlace id='r' ref='p'/>",
        after: b"",
        reason: Reason::TooMany(Counted::References),
    },
    Count {
        before: b"<referencePlace id='r' ref='p'/>",
        piece: b"<referenceTransition id='r' ref='t'></referenceTransition>",
        limit: 4_095,
        next: b"<referenceTransition id='r' ref='t'>",
        after: b"",
        reason: Reason::TooMany(Counted::References),
    },
    Count {
        before: b"",
        piece: b"<page id='g'/>",
        limit: 1_024,
        next: b"<page id='g'>",
        after: b"",
        reason: Reason::TooMany(Counted::Pages),
    },
    Count {
        before: b"<graphics><page/><place/></graphics>",
        piece: b"<page id='g'></page>",
        limit: 1_024,
        next: b"<page id='g'/>",
        after: b"",
        reason: Reason::TooMany(Counted::Pages),
    },
    Count {
        before: b"",
        piece: b"<page id='g'>",
        limit: 126,
        next: b"<place id='p'/>",
        after: b"</page>",
        reason: Reason::TooDeep,
    },
    Count {
        before: b"",
        piece: b"<page id='g'>",
        limit: 126,
        next: b"<text/>",
        after: b"</page>",
        reason: Reason::Misplaced,
    },
    Count {
        before: b"",
        piece: b"<graphics>",
        limit: 126,
        next: b"<a/>",
        after: b"</graphics>",
        reason: Reason::TooDeep,
    },
];

/// The piece as many times as is said, one after the other.
fn repeated(alloc: Global, piece: &[u8], count: usize) -> Result<Vec<u8>, AllocError> {
    let mut text = Vec::new(alloc);
    for _ in 0..count {
        text.extend_from_slice(piece)?;
    }
    Ok(text)
}

/// The fault of a document whose net has this value.
fn fault_of_value(
    alloc: Global,
    row: &Value,
    value: &[u8],
) -> Result<Option<DocFault>, AllocError> {
    let mut text = joined(alloc, OPENING, row.front)?;
    text.extend_from_slice(row.before)?;
    text.extend_from_slice(value)?;
    text.extend_from_slice(row.after)?;
    text.extend_from_slice(CLOSING)?;
    Ok(fault(alloc, text.as_slice()))
}

/// A value of the limit's bytes is taken, and so is one that is a byte shorter; a longer one is refused.
fn check_value(rt: &impl Abort, alloc: Global, row: &Value) -> Result<(), AllocError> {
    let mut value = repeated(alloc, b"x", row.limit.saturating_sub(1))?;
    assert_eq!(rt; fault_of_value(alloc, row, value.as_slice())?, None);
    value.push(b'x')?;
    assert_eq!(rt; fault_of_value(alloc, row, value.as_slice())?, None);
    value.push(b'x')?;
    let front = joined(alloc, OPENING, row.front)?;
    let refused = DocFault::At(front.len() as u64, row.reason);
    assert_eq!(rt;
        fault_of_value(alloc, row, value.as_slice())?,
        Some(refused)
    );
    Ok(())
}

#[test]
fn values_are_bounded(rt: HostRuntime) -> Result<(), Fail> {
    for row in VALUES.iter() {
        check_value(&rt, rt.alloc(), row)?;
    }
    Ok(())
}

/// As many pieces as may occur are decoded, and the tag after them is refused.
fn check_count(rt: &impl Abort, alloc: Global, count: &Count) -> Result<(), AllocError> {
    let pieces = repeated(alloc, count.piece, count.limit)?;
    let ends = repeated(alloc, count.after, count.limit)?;
    let mut front = joined(alloc, OPENING, count.before)?;
    front.extend_from_slice(pieces.as_slice())?;
    let mut whole = joined(alloc, front.as_slice(), ends.as_slice())?;
    whole.extend_from_slice(CLOSING)?;
    assert_eq!(rt; fault(alloc, whole.as_slice()), None);
    let more = joined(alloc, front.as_slice(), count.next)?;
    let refused = DocFault::At(front.len() as u64, count.reason);
    assert_eq!(rt; fault(alloc, more.as_slice()), Some(refused));
    Ok(())
}

#[test]
fn elements_are_counted(rt: HostRuntime) -> Result<(), Fail> {
    for count in COUNTS.iter() {
        check_count(&rt, rt.alloc(), count)?;
    }
    Ok(())
}

/// The counts are of all nets together: as many pieces as may occur are decoded, the last one in a net of its own, and
/// the tag after them is refused.
fn check_count_over_nets(rt: &impl Abort, alloc: Global, count: &Count) -> Result<(), AllocError> {
    let pieces = repeated(alloc, count.piece, count.limit.saturating_sub(1))?;
    let mut front = joined(alloc, OPENING, pieces.as_slice())?;
    front.extend_from_slice(NEXT_NET)?;
    front.extend_from_slice(count.piece)?;
    let whole = joined(alloc, front.as_slice(), CLOSING)?;
    assert_eq!(rt; fault(alloc, whole.as_slice()), None);
    let more = joined(alloc, front.as_slice(), count.next)?;
    let refused = DocFault::At(front.len() as u64, count.reason);
    assert_eq!(rt; fault(alloc, more.as_slice()), Some(refused));
    Ok(())
}

#[test]
fn counts_go_on_from_net_to_net(rt: HostRuntime) -> Result<(), Fail> {
    for count in COUNTS.iter() {
        // the arcs would take long
        if count.before.is_empty() && count.after.is_empty() && count.limit <= 4_096 {
            check_count_over_nets(&rt, rt.alloc(), count)?;
        }
    }
    Ok(())
}
