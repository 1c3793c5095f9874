use crate::fixture::{CHECK, ItemsLine, Row, check_input, check_refused, check_row};
use crate::nets::{HEAD, REAR};
use net_values::NoMemory;
use std::alloc::Global;
use std::test::Fail;

/// The tag of the root.
const ROOT: &[u8] = b"<pnml xmlns=\"http://www.pnml.org/version-2009/grammar/pnml\">";

/// Nets with a fault in their items, in front of which there are 126 bytes.
const FAULTY_ITEMS: [ItemsLine; 16] = [
    (
        "two attributes of one name",
        b"<place id=\"p\" id=\"p\"/>",
        b"document refused at 126: bad token\n",
    ),
    (
        "an element in capitals",
        b"<Place id=\"p\"/>",
        b"document refused at 126: unknown element\n",
    ),
    (
        "an element with another namespace",
        b"<place id=\"p\" xmlns=\"x\"/>",
        b"document refused at 126: other namespace\n",
    ),
    (
        "an arc with a type",
        b"<place id=\"p\"/><transition id=\"t\"/><arc id=\"a\" source=\"p\" target=\"t\" type=\"inhibitor\"/>",
        b"document refused at 161: bad attribute\n",
    ),
    (
        "an arc without a target",
        b"<place id=\"p\"/><arc id=\"a\" source=\"p\"/>",
        b"document refused at 141: bad attribute\n",
    ),
    (
        "an empty id",
        b"<place id=\"\"/>",
        b"document refused at 126: bad attribute\n",
    ),
    (
        "a marking of 2^64",
        b"<place id=\"p\"><initialMarking><text>18446744073709551616</text></initialMarking></place>",
        b"document refused at 162: bad number\n",
    ),
    (
        "a weight of 0",
        b"<place id=\"p\"/><transition id=\"t\"/><arc id=\"a\" source=\"p\" target=\"t\"><inscription><text>0</text></inscription></arc>",
        b"document refused at 214: bad number\n",
    ),
    (
        "an empty number",
        b"<place id=\"p\"><initialMarking><text/></initialMarking></place>",
        b"document refused at 156: bad number\n",
    ),
    (
        "no number",
        b"<place id=\"p\"><initialMarking><text> </text></initialMarking></place>",
        b"document refused at 163: bad number\n",
    ),
    (
        "a late declaration",
        b"<?xml version=\"1.0\"?>",
        b"document refused at 126: misplaced\n",
    ),
    (
        "an element out of place",
        b"<text/>",
        b"document refused at 126: misplaced\n",
    ),
    (
        "a second name",
        b"<place id=\"p\"><name/><name/></place>",
        b"document refused at 147: misplaced\n",
    ),
    (
        "stray characters",
        b"x",
        b"document refused at 126: misplaced\n",
    ),
    (
        "a stray CDATA section",
        b"<![CDATA[ ]]>",
        b"document refused at 126: misplaced\n",
    ),
    (
        "an end tag without its start",
        b"</page>",
        b"document refused at 126: misplaced\n",
    ),
];

/// What is shown, an input, and the line that tells its fault.
type InputLine = (&'static str, &'static [&'static [u8]], &'static [u8]);

const FAULTY_INPUTS: [InputLine; 12] = [
    (
        "a byte that is no UTF-8, after a bad token",
        &[HEAD, b"<place id=p/>\xff"],
        b"document refused at 139: not UTF-8\n",
    ),
    (
        "a tag that is cut",
        &[HEAD, b"<place id=\"p"],
        b"document refused at 126: bad token\n",
    ),
    (
        "a document type",
        &[b"<!DOCTYPE pnml>", HEAD, REAR],
        b"document refused at 0: doctype\n",
    ),
    (
        "a root without a namespace",
        &[b"<pnml/>"],
        b"document refused at 0: other namespace\n",
    ),
    (
        "another type of net",
        &[
            ROOT,
            b"<net id=\"n\" type=\"http://www.pnml.org/version-2009/grammar/symmetricnet\"/></pnml>",
        ],
        b"document refused at 60: other net type\n",
    ),
    (
        "another root",
        &[b"<page id=\"g\"/>"],
        b"document refused at 0: misplaced\n",
    ),
    (
        "an element after the root",
        &[HEAD, REAR, b"<graphics/>"],
        b"document refused at 139: misplaced\n",
    ),
    (
        "characters between two nets",
        &[
            HEAD,
            b"</net>5<net id=\"m\" type=\"http://www.pnml.org/version-2009/grammar/ptnet\"/></pnml>",
        ],
        b"document refused at 132: misplaced\n",
    ),
    (
        "a root without a net",
        &[ROOT, b"</pnml>"],
        b"document refused at 60: misplaced\n",
    ),
    ("no byte", &[], b"document refused at 0: truncated\n"),
    (
        "the front only",
        &[HEAD],
        b"document refused at 126: truncated\n",
    ),
    (
        "no end of the root",
        &[HEAD, b"</net>"],
        b"document refused at 132: truncated\n",
    ),
];

#[test]
fn the_first_faulty_offset_is_told(rt: HostRuntime) -> Result<(), Fail> {
    check_refused(&rt, rt.alloc(), &FAULTY_ITEMS)?;
    for (shows, input, err) in &FAULTY_INPUTS {
        let row = Row {
            shows: *shows,
            input: *input,
            status: 3,
            err: *err,
            ..CHECK
        };
        check_row(&rt, rt.alloc(), &row)?;
    }
    Ok(())
}

/// A piece that may occur so many times in a net.
#[derive(Drop)]
struct Limit {
    shows: &'static str,
    before: &'static [u8],
    piece: &'static [u8],
    count: usize,
    next: &'static [u8],
    err: &'static [u8],
}

const LIMITS: [Limit; 7] = [
    Limit {
        shows: "places",
        before: b"",
        piece: b"<place id=\"p\"/>",
        count: 2_048,
        next: b"<place id=\"p\"/>",
        err: b"document refused at 30846: too many places\n",
    },
    Limit {
        shows: "transitions",
        before: b"",
        piece: b"<transition id=\"t\"/>",
        count: 2_048,
        next: b"<transition id=\"t\"/>",
        err: b"document refused at 41086: too many transitions\n",
    },
    Limit {
        shows: "arcs",
        before: b"",
        piece: b"<arc id=\"a\" source=\"p\" target=\"t\"/>",
        count: 65_536,
        next: b"<arc id=\"a\" source=\"p\" target=\"t\"/>",
        err: b"document refused at 2293886: too many arcs\n",
    },
    Limit {
        shows: "reference nodes",
        before: b"<referenceTransition id=\"r\" ref=\"t\"/>",
        piece: b"<referencePlace id=\"r\" ref=\"p\"/>",
        count: 4_095,
        next: b"<referencePlace id=\"r\" ref=\"p\"/>",
        err: b"document refused at 131203: too many reference nodes\n",
    },
    Limit {
        shows: "pages",
        before: b"",
        piece: b"<page id=\"g\"/>",
        count: 1_024,
        next: b"<page id=\"g\"/>",
        err: b"document refused at 14462: too many pages\n",
    },
    Limit {
        shows: "bytes of a name",
        before: b"<place id=\"p\"><name><text>",
        piece: b"x",
        count: 65_536,
        next: b"x</text></name></place>",
        err: b"document refused at 152: too many name bytes\n",
    },
    Limit {
        shows: "open elements",
        before: b"",
        piece: b"<page id=\"g001\">",
        count: 126,
        next: b"<page id=\"g127\">",
        err: b"document refused at 2142: too deep\n",
    },
];

/// The front of a net up to where one more piece than may occur begins, and the next piece.
fn crowded(alloc: Global, limit: &Limit) -> Result<Vec<u8>, NoMemory> {
    let mut bytes = Vec::from_slice(alloc, HEAD)?;
    bytes.extend_from_slice(limit.before)?;
    for _ in 0..limit.count {
        bytes.extend_from_slice(limit.piece)?;
    }
    bytes.extend_from_slice(limit.next)?;
    Ok(bytes)
}

#[test]
fn one_more_than_a_limit_is_told(rt: HostRuntime) -> Result<(), Fail> {
    for limit in &LIMITS {
        let row = Row {
            shows: limit.shows,
            status: 3,
            err: limit.err,
            ..CHECK
        };
        check_input(&rt, rt.alloc(), &row, crowded(rt.alloc(), limit)?, b"")?;
    }
    Ok(())
}
