use crate::certified::lines;
use crate::fixture::{CHECK, Row, check_input, check_row};
use crate::nets::{CYCLE, MUTEX};
use std::test::Fail;

const REPLAY: Row<'static> = Row {
    words: &["replay"],
    ..CHECK
};

/// What is shown, a firing list after the canonical line of a cycle, and what `replay` does.
type Replayed = (
    &'static str,
    &'static [u8],
    u8,
    &'static [u8],
    &'static [u8],
);

const REPLAYED: [Replayed; 7] = [
    (
        "a token that goes round",
        b"t\nu\n",
        0,
        b"p 1\nq 0\nfired 2\nt-semiflow yes\n",
        b"",
    ),
    (
        "a token that goes on",
        b"t\nu\nt\n",
        0,
        b"p 0\nq 1\nfired 3\nt-semiflow no\n",
        b"",
    ),
    (
        "no firing",
        b"",
        0,
        b"p 1\nq 0\nfired 0\nt-semiflow no\n",
        b"",
    ),
    (
        "a transition that isn't enabled",
        b"t\nt\n",
        1,
        b"",
        b"firing list rejected at line 2: p lacks tokens\n",
    ),
    (
        "an id that no transition has, after one that isn't enabled",
        b"u\nx\n",
        1,
        b"",
        b"firing list malformed at line 2\n",
    ),
    (
        "the id of a place",
        b"p\n",
        1,
        b"",
        b"firing list malformed at line 1\n",
    ),
    (
        "a line without its line feed",
        b"t",
        1,
        b"",
        b"firing list malformed at line 1\n",
    ),
];

#[test]
fn firing_lists_are_replayed(rt: HostRuntime) -> Result<(), Fail> {
    let alloc = rt.alloc();
    for (shows, list, status, out, err) in &REPLAYED {
        let row = Row {
            shows: *shows,
            status: *status,
            err: *err,
            ..REPLAY
        };
        check_input(&rt, alloc, &row, lines(alloc, &CYCLE, *list)?, *out)?;
    }
    let many_lines = Row {
        shows: "a document of many lines",
        input: MUTEX,
        status: 3,
        err: b"document refused at 22: truncated\n",
        ..REPLAY
    };
    Ok(check_row(&rt, alloc, &many_lines)?)
}
