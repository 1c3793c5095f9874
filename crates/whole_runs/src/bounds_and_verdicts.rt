use crate::fixture::{CHECK, NetText, Row, check_net, check_row, check_texts};
use crate::nets::{ALONE, CHAIN_OF_2, CYCLE, HEAD, ISLES, LINE, MUTEX, REAR, SCALE, WIDE_BOUND};
use std::test::Fail;

const PLACE_BOUNDS: [NetText; 4] = [
    (
        "a token that goes round",
        CYCLE,
        b"p 1\nq 1\ncovered 2 of 2\n",
    ),
    (
        "a bound that is rounded down",
        SCALE,
        b"p 5\nq 7\ncovered 2 of 2\n",
    ),
    (
        "a bound of 2^126",
        CHAIN_OF_2,
        b"p1 1\np2 9223372036854775808\np3 85070591730234615865843651857942052864\ncovered 3 of 3\n",
    ),
    ("no place", ALONE, b"covered 0 of 0\n"),
];

const VERDICTS: [NetText; 4] = [
    (
        "a marked trap",
        CYCLE,
        b"commoner yes\ndeadlock-free proved\n",
    ),
    (
        "a siphon that can run empty",
        LINE,
        b"commoner no\nsiphon p\ndeadlock-free unknown\n",
    ),
    (
        "no transition",
        ISLES,
        b"commoner yes\ndeadlock-free unknown\n",
    ),
    ("no place", ALONE, b"commoner yes\ndeadlock-free proved\n"),
];

const LIVENESS: [NetText; 4] = [
    ("a marked trap in each siphon", CYCLE, b"live proved\n"),
    (
        "a siphon that can run empty",
        LINE,
        b"live unknown\nsiphon p\n",
    ),
    ("no transition", ISLES, b"live unknown\nno transition\n"),
    ("weights", SCALE, b"live unknown\nnot free-choice\n"),
];

#[test]
fn bounds_of_places_are_told(rt: HostRuntime) -> Result<(), Fail> {
    check_texts(&rt, rt.alloc(), &["bounds"], &PLACE_BOUNDS)?;
    let wide = Row {
        shows: "weighted tokens above the range",
        words: &["bounds"],
        status: 4,
        err: b"wide bound in semiflow 1\n",
        ..CHECK
    };
    check_net(&rt, rt.alloc(), &WIDE_BOUND, &wide)?;
    let padded = Row {
        shows: "white space and zeros in front of a number",
        words: &["bounds"],
        input: &[
            HEAD,
            b"<place id=\"p\"><initialMarking><text> 007 </text></initialMarking></place>",
            REAR,
        ],
        out: b"p 7\ncovered 1 of 1\n",
        ..CHECK
    };
    Ok(check_row(&rt, rt.alloc(), &padded)?)
}

#[test]
fn verdicts_are_told(rt: HostRuntime) -> Result<(), Fail> {
    check_texts(&rt, rt.alloc(), &["commoner"], &VERDICTS)?;
    let mutex = Row {
        shows: "a shared lock",
        words: &["commoner"],
        input: MUTEX,
        out: b"commoner yes\ndeadlock-free proved\n",
        ..CHECK
    };
    check_row(&rt, rt.alloc(), &mutex)?;
    check_texts(&rt, rt.alloc(), &["live"], &LIVENESS)?;
    let shared = Row {
        shows: "a choice that isn't free",
        words: &["live"],
        input: MUTEX,
        out: b"live unknown\nnot free-choice\n",
        ..CHECK
    };
    Ok(check_row(&rt, rt.alloc(), &shared)?)
}
