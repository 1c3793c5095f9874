use crate::fixture::{CHECK, Row, check_input, check_row, joined};
use crate::nets::{HEAD, REAR};
use net_values::NoMemory;
use std::alloc::Global;
use std::test::Fail;

/// A place, and then a second net.
const FRONT: &[u8] =
    b"<place id=\"p\"/></net><net id=\"m\" type=\"http://www.pnml.org/version-2009/grammar/ptnet\">";

/// Its items.
const SECOND: &[u8] = b"<place id=\"q\"/><transition id=\"u\"/>";

/// A document of two nets.
const TWO: &[&[u8]] = &[HEAD, FRONT, SECOND, REAR];

const NETS: [Row<'static>; 9] = [
    Row {
        shows: "the first net without an option",
        input: TWO,
        out: b"places 1 transitions 0 arcs 0\n",
        ..CHECK
    },
    Row {
        shows: "the first net by its number",
        words: &["check", "--net", "1"],
        input: TWO,
        out: b"places 1 transitions 0 arcs 0\n",
        ..CHECK
    },
    Row {
        shows: "the second net",
        words: &["check", "--net", "2"],
        input: TWO,
        out: b"places 1 transitions 1 arcs 0\n",
        ..CHECK
    },
    Row {
        shows: "the siphons of the second net, with a limit",
        words: &["siphons", "--net", "2", "--sets", "1"],
        input: TWO,
        out: b"q\nsiphons 1\n",
        ..CHECK
    },
    Row {
        shows: "no third net",
        words: &["check", "--net", "3"],
        input: TWO,
        status: 3,
        err: b"document refused: no net 3\n",
        ..CHECK
    },
    Row {
        shows: "no second net",
        words: &["canon", "--net", "2"],
        input: &[HEAD, REAR],
        status: 3,
        err: b"document refused: no net 2\n",
        ..CHECK
    },
    Row {
        shows: "an arc from a node of the other net",
        input: &[
            HEAD,
            FRONT,
            SECOND,
            b"<arc id=\"a\" source=\"p\" target=\"u\"/>",
            REAR,
        ],
        status: 3,
        err: b"document refused: unknown id p in a\n",
        ..CHECK
    },
    Row {
        shows: "a broken rule before a net that isn't there",
        words: &["check", "--net", "3"],
        input: &[HEAD, FRONT, b"<place id=\"p\"/>", REAR],
        status: 3,
        err: b"document refused: duplicate id p\n",
        ..CHECK
    },
    Row {
        shows: "the id of the first net",
        input: &[HEAD, FRONT, b"<place id=\"n\"/>", REAR],
        status: 3,
        err: b"document refused: duplicate id n\n",
        ..CHECK
    },
];

#[test]
fn a_run_is_of_the_chosen_net(rt: HostRuntime) -> Result<(), Fail> {
    for row in &NETS {
        check_row(&rt, rt.alloc(), row)?;
    }
    Ok(())
}

/// The canonical text of the two nets.
const WHOLE: &[u8] =
    b"<?xml version=\"1.0\" encoding=\"UTF-8\"?><pnml xmlns=\"http://www.pnml.org/version-2009/grammar/pnml\"><net id=\"n\" type=\"http://www.pnml.org/version-2009/grammar/ptnet\"><place id=\"p\"/></net><net id=\"m\" type=\"http://www.pnml.org/version-2009/grammar/ptnet\"><place id=\"q\"/><transition id=\"u\"/></net></pnml>\n";

#[test]
fn the_canonical_text_has_all_nets(rt: HostRuntime) -> Result<(), Fail> {
    let row = Row {
        shows: "the second net is chosen",
        words: &["canon", "--net", "2"],
        input: TWO,
        out: WHOLE,
        ..CHECK
    };
    check_row(&rt, rt.alloc(), &row)?;
    Ok(())
}

/// The tag of a net.
fn tag(alloc: Global, id: u32) -> Result<Vec<u8>, NoMemory> {
    let text = format!(in alloc;
        "<net id=\"m{id}\" type=\"http://www.pnml.org/version-2009/grammar/ptnet\"/>"
    )?;
    joined(alloc, &[text.as_bytes()])
}

/// One net, and so many more.
fn nets(alloc: Global, more: u32) -> Result<Vec<u8>, NoMemory> {
    let mut bytes = joined(alloc, &[HEAD, b"</net>"])?;
    for before in 0..more {
        bytes.extend_from_slice(tag(alloc, before + 1)?.as_slice())?;
    }
    bytes.extend_from_slice(b"</pnml>")?;
    Ok(bytes)
}

#[test]
fn a_document_has_64_nets_at_most(rt: HostRuntime) -> Result<(), Fail> {
    let alloc = rt.alloc();
    let last = Row {
        shows: "the last of 64 nets",
        words: &["check", "--net", "64"],
        out: b"places 0 transitions 0 arcs 0\n",
        ..CHECK
    };
    check_input(&rt, alloc, &last, nets(alloc, 63)?, last.out)?;
    let more = Row {
        shows: "65 nets",
        status: 3,
        err: b"document refused at 4470: too many nets\n",
        ..CHECK
    };
    check_input(&rt, alloc, &more, nets(alloc, 64)?, more.out)?;
    Ok(())
}
