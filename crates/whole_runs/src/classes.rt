use crate::fixture::{CHECK, NetText, Row, check_input, check_row, check_texts};
use crate::nets::{ALONE, CYCLE, ISLES, LINE, MUTEX, PRUNE, SCALE, TWIN, fan};
use std::test::Fail;

const ALL: &[u8] = b"ordinary yes\nstate-machine yes\nmarked-graph yes\nfree-choice yes\n";

const NONE: &[u8] = b"ordinary no\nstate-machine no\nmarked-graph no\nfree-choice no\n";

const ORDINARY_ALONE: &[u8] = b"ordinary yes\nstate-machine no\nmarked-graph no\nfree-choice no\n";

const FREE_CHOICE: &[u8] = b"ordinary yes\nstate-machine no\nmarked-graph no\nfree-choice yes\n";

const STATE_MACHINE: &[u8] = b"ordinary yes\nstate-machine yes\nmarked-graph no\nfree-choice yes\n";

const MARKED_GRAPH: &[u8] = b"ordinary yes\nstate-machine no\nmarked-graph yes\nfree-choice yes\n";

const TEXTS: [NetText; 7] = [
    ("a cycle", CYCLE, ALL),
    ("parallel arcs, which add up", TWIN, NONE),
    ("written weights", SCALE, NONE),
    ("places with one arc", LINE, STATE_MACHINE),
    ("places without arcs", ISLES, STATE_MACHINE),
    ("a transition without arcs", ALONE, MARKED_GRAPH),
    ("a shared place beside others", PRUNE, ORDINARY_ALONE),
];

#[test]
fn classes_of_nets_are_told(rt: HostRuntime) -> Result<(), Fail> {
    check_texts(&rt, rt.alloc(), &["class"], &TEXTS)?;
    let mutex = Row {
        shows: "a shared lock",
        words: &["class"],
        input: MUTEX,
        out: ORDINARY_ALONE,
        ..CHECK
    };
    check_row(&rt, rt.alloc(), &mutex)?;
    let synchronized = Row {
        shows: "a transition with two inputs and two outputs",
        words: &["class"],
        ..CHECK
    };
    let input = fan(rt.alloc(), 2)?;
    Ok(check_input(&rt, rt.alloc(), &synchronized, input, FREE_CHOICE)?)
}
