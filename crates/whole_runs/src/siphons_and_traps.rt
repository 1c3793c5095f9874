use crate::fixture::{CHECK, NetText, Row, check_input, check_row, check_texts};
use crate::nets::{ALONE, CYCLE, ISLES, LINE, MUTEX, PRUNE, choices};
use std::test::Fail;

const MINIMAL_SIPHONS: [NetText; 5] = [
    ("a siphon", CYCLE, b"p q\nsiphons 1\n"),
    ("a place that gets no token", LINE, b"p\nsiphons 1\n"),
    ("no place, no siphon", ALONE, b"siphons 0\n"),
    ("the order of the list", ISLES, b"b\na\nsiphons 2\n"),
    ("siphons of two sizes", PRUNE, b"d\nb c\nsiphons 2\n"),
];

const MINIMAL_TRAPS: [NetText; 4] = [
    ("a trap", CYCLE, b"p q\ntraps 1\n"),
    ("a trap that isn't minimal", LINE, b"q\ntraps 1\n"),
    ("no place, no trap", ALONE, b"traps 0\n"),
    ("traps of two sizes", PRUNE, b"b c\na\ntraps 2\n"),
];

#[test]
fn minimal_siphons_and_traps_are_listed(rt: HostRuntime) -> Result<(), Fail> {
    check_texts(&rt, rt.alloc(), &["siphons"], &MINIMAL_SIPHONS)?;
    check_texts(&rt, rt.alloc(), &["traps"], &MINIMAL_TRAPS)?;
    let siphons = Row {
        shows: "siphons that share a place",
        words: &["siphons"],
        input: MUTEX,
        out: b"idle2 crit2\ncrit1 crit2 lock\nidle1 crit1\nsiphons 3\n",
        ..CHECK
    };
    check_row(&rt, rt.alloc(), &siphons)?;
    let traps = Row {
        shows: "traps that share a place",
        words: &["traps"],
        input: MUTEX,
        out: b"idle2 crit2\ncrit1 crit2 lock\nidle1 crit1\ntraps 3\n",
        ..CHECK
    };
    Ok(check_row(&rt, rt.alloc(), &traps)?)
}

#[test]
fn more_siphons_than_the_limit_are_told(rt: HostRuntime) -> Result<(), Fail> {
    let few = Row {
        shows: "four siphons that are grown and not minimal",
        words: &["siphons"],
        ..CHECK
    };
    check_input(
        &rt,
        rt.alloc(),
        &few,
        choices(rt.alloc(), 2, 2)?,
        b"p1.1\np1.0\np0.1\np0.0\nsiphons 4\n",
    )?;
    let many = Row {
        shows: "10^5 siphons with the first place and 50 without it",
        words: &["siphons"],
        status: 6,
        err: b"set limit 100000 passed\n",
        ..CHECK
    };
    check_input(&rt, rt.alloc(), &many, choices(rt.alloc(), 5, 10)?, b"")?;
    let turned = Row {
        shows: "the first place is the least trap",
        words: &["traps"],
        ..CHECK
    };
    Ok(check_input(
        &rt,
        rt.alloc(),
        &turned,
        choices(rt.alloc(), 5, 10)?,
        b"p\ntraps 1\n",
    )?)
}
