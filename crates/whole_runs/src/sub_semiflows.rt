use crate::fixture::{CHECK, NetText, Row, check_net, check_row, check_texts};
use crate::nets::{CYCLE, HEAD, ISLES, LINE, REAR};
use std::test::Fail;

const SUBS: [NetText; 3] = [
    (
        "a place that empties into another one",
        LINE,
        b"1*p\n1*p 1*q\nsub-semiflows 2\nstructurally bounded 2 of 2\n",
    ),
    (
        "a token that goes round",
        CYCLE,
        b"1*p 1*q\nsub-semiflows 1\nstructurally bounded 2 of 2\n",
    ),
    (
        "places without transitions",
        ISLES,
        b"1*b\n1*a\nsub-semiflows 2\nstructurally bounded 2 of 2\n",
    ),
];

/// A transition that takes nothing and gives to a place.
const SOURCE: &[u8] =
    b"<place id=\"p\"/><transition id=\"t\"/><arc id=\"a\" source=\"t\" target=\"p\"/>";

#[test]
fn places_are_structurally_bounded(rt: HostRuntime) -> Result<(), Fail> {
    let alloc = rt.alloc();
    check_texts(&rt, alloc, &["sub"], &SUBS)?;
    let source = Row {
        shows: "a source",
        words: &["sub"],
        input: &[HEAD, SOURCE, REAR],
        out: b"sub-semiflows 0\nstructurally bounded 0 of 1\n",
        ..CHECK
    };
    check_row(&rt, alloc, &source)?;
    let budget = Row {
        shows: "more candidates than the budget",
        words: &["sub", "--rows", "1"],
        status: 5,
        err: b"row budget 1 passed at t: 2 candidates\n",
        ..CHECK
    };
    Ok(check_net(&rt, alloc, &LINE, &budget)?)
}
