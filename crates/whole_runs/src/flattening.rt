use crate::fixture::{CHECK, ItemsLine, Row, check_refused, check_row};
use crate::nets::{HEAD, REAR};
use std::test::Fail;

/// References over pages.
const REFERENCES: &[u8] =
    b"<page id=\"g1\"><place id=\"p\"/></page><page id=\"g2\"><referencePlace id=\"r\" ref=\"s\"/><referencePlace id=\"s\" ref=\"p\"/><transition id=\"t\"/><arc id=\"a\" source=\"r\" target=\"t\"/></page>";

/// Parallel arcs, one of them between reference nodes, and one more arc.
const PARALLEL: &[u8] =
    b"<place id=\"p\"/><place id=\"q\"/><transition id=\"t\"/><referencePlace id=\"r\" ref=\"p\"/><referenceTransition id=\"s\" ref=\"t\"/><arc id=\"a\" source=\"r\" target=\"s\"/><arc id=\"b\" source=\"p\" target=\"t\"/><arc id=\"c\" source=\"s\" target=\"q\"/>";

/// References that lead to each other.
const LOOP: &[u8] = b"<referencePlace id=\"r\" ref=\"s\"/><referencePlace id=\"s\" ref=\"r\"/>";

const BROKEN: [ItemsLine; 6] = [
    (
        "a chain that doesn't end",
        LOOP,
        b"document refused: reference cycle r\n",
    ),
    (
        "the id of the net",
        b"<place id=\"n\"/>",
        b"document refused: duplicate id n\n",
    ),
    (
        "a source that is no node",
        b"<transition id=\"t\"/><arc id=\"a\" source=\"x\" target=\"t\"/>",
        b"document refused: unknown id x in a\n",
    ),
    (
        "a reference place to a transition",
        b"<transition id=\"t\"/><referencePlace id=\"r\" ref=\"t\"/>",
        b"document refused: wrong reference kind r\n",
    ),
    (
        "an arc from place to place",
        b"<place id=\"p\"/><place id=\"q\"/><arc id=\"a\" source=\"p\" target=\"q\"/>",
        b"document refused: wrong arc ends a\n",
    ),
    (
        "every rule broken, the first of which is told",
        b"<place id=\"p\"/><referencePlace id=\"r\" ref=\"r\"/><referenceTransition id=\"s\" ref=\"p\"/><arc id=\"a\" source=\"p\" target=\"p\"/><arc id=\"b\" source=\"x\" target=\"p\"/><page id=\"p\"/>",
        b"document refused: duplicate id p\n",
    ),
];

#[test]
fn documents_are_flattened_or_their_first_broken_rule_is_told(rt: HostRuntime) -> Result<(), Fail> {
    check_refused(&rt, rt.alloc(), &BROKEN)?;
    let unwritten = Row {
        shows: "a document that breaks a rule isn't written either",
        words: &["canon"],
        input: &[HEAD, LOOP, REAR],
        status: 3,
        err: b"document refused: reference cycle r\n",
        ..CHECK
    };
    check_row(&rt, rt.alloc(), &unwritten)?;
    let references = Row {
        shows: "references over pages",
        input: &[HEAD, REFERENCES, REAR],
        out: b"places 1 transitions 1 arcs 1\n",
        ..CHECK
    };
    check_row(&rt, rt.alloc(), &references)?;
    let parallel = Row {
        shows: "parallel arcs, one of them between references",
        words: &["places"],
        input: &[HEAD, PARALLEL, REAR],
        out: b"1*p 2*q\nsemiflows 1\n",
        ..CHECK
    };
    Ok(check_row(&rt, rt.alloc(), &parallel)?)
}
