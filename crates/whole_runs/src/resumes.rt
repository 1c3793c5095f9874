use crate::certified::lines;
use crate::fixture::{CHECK, Row, check_input};
use crate::nets::ISLES;
use std::test::Fail;

const RESUME: Row<'static> = Row {
    words: &["resume"],
    ..CHECK
};

/// What is shown, the words, what follows the canonical line of two places, and what `resume` writes after that line.
type Resumed = (
    &'static str,
    &'static [&'static str],
    &'static [u8],
    &'static [u8],
);

const RESUMED: [Resumed; 5] = [
    (
        "a search for all siphons",
        &["resume"],
        b"",
        b"pending\nend\nb\na\nsiphons 2\n",
    ),
    (
        "a search for the siphons of one class",
        &["resume"],
        b"pending\nclass +0 -1\nend\n",
        b"pending\nend\na\nsiphons 1\n",
    ),
    (
        "a search that ends after one siphon",
        &["resume", "--sets", "1"],
        b"",
        b"pending\nclass -0\nend\na\nsiphons 1\n",
    ),
    (
        "a search that goes on from there",
        &["resume", "--sets", "1"],
        b"pending\nclass -0\nend\na\nsiphons 1\n",
        b"pending\nend\nb\nsiphons 1\n",
    ),
    (
        "no class",
        &["resume"],
        b"pending\nend\nclass\n",
        b"pending\nend\nsiphons 0\n",
    ),
];

#[test]
fn searches_are_resumed(rt: HostRuntime) -> Result<(), Fail> {
    let alloc = rt.alloc();
    for (shows, words, rest, out) in &RESUMED {
        let row = Row {
            shows: *shows,
            words: *words,
            ..RESUME
        };
        let wanted = lines(alloc, &ISLES, *out)?;
        let input = lines(alloc, &ISLES, *rest)?;
        check_input(&rt, alloc, &row, input, wanted.as_slice())?;
    }
    Ok(())
}

/// What is shown, what follows the canonical line, and the line that tells why `resume` refuses it.
const REFUSED: [(&str, &[u8], &[u8]); 5] = [
    (
        "classes that overlap",
        b"pending\nclass +0\nclass -1\nend\n",
        b"pending rejected at line 3\n",
    ),
    (
        "a place that the net lacks",
        b"pending\nclass +2\nclass +2\nend\n",
        b"pending rejected at line 2\n",
    ),
    (
        "words out of order",
        b"pending\nclass -1 +0\nend\n",
        b"pending malformed at line 2\n",
    ),
    (
        "a malformed line after a class that is rejected",
        b"pending\nclass +2\nclas\nend\n",
        b"pending malformed at line 3\n",
    ),
    (
        "a missing line",
        b"pending\n",
        b"pending malformed at line 2\n",
    ),
];

#[test]
fn tokens_are_refused(rt: HostRuntime) -> Result<(), Fail> {
    let alloc = rt.alloc();
    for (shows, rest, err) in &REFUSED {
        let row = Row {
            shows: *shows,
            status: 1,
            err: *err,
            ..RESUME
        };
        check_input(&rt, alloc, &row, lines(alloc, &ISLES, *rest)?, b"")?;
    }
    Ok(())
}
