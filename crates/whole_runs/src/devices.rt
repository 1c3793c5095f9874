use crate::fixture::{CHECK, Row, USAGE, check_input, check_net, check_row};
use crate::nets::{CHAIN_OF_3, CYCLE, HEAD, REAR};
use std::test::Fail;

const MEANINGLESS: [(&str, &[&str]); 6] = [
    ("no words", &[]),
    ("an unknown word", &["place"]),
    ("a word more", &["check", "check"]),
    ("help", &["--help"]),
    ("capitals", &["Check"]),
    ("an empty word", &[""]),
];

#[test]
fn words_that_mean_nothing_end_a_run_before_it_reads(rt: HostRuntime) -> Result<(), Fail> {
    for (shows, words) in &MEANINGLESS {
        let row = Row {
            shows: *shows,
            words: *words,
            failing_reads: &[0],
            status: 2,
            err: USAGE,
            ..CHECK
        };
        check_row(&rt, rt.alloc(), &row)?;
    }
    Ok(())
}

/// Runs on a cycle.
const FAILING_DEVICES: [Row<'static>; 8] = [
    Row {
        shows: "one byte a read",
        pieces: &[1],
        out: b"places 2 transitions 2 arcs 4\n",
        ..CHECK
    },
    Row {
        shows: "reads of many sizes",
        words: &["siphons"],
        pieces: &[64, 0, 3],
        out: b"p q\nsiphons 1\n",
        ..CHECK
    },
    Row {
        shows: "the first read fails",
        failing_reads: &[0],
        status: 8,
        err: b"read fault\n",
        ..CHECK
    },
    Row {
        shows: "the read at the end fails",
        words: &["traps"],
        failing_reads: &[1],
        status: 8,
        err: b"read fault\n",
        ..CHECK
    },
    Row {
        shows: "the first write fails",
        failing_writes: &[0],
        status: 9,
        err: b"write fault\n",
        ..CHECK
    },
    Row {
        shows: "the second write fails",
        words: &["places"],
        failing_writes: &[1],
        status: 9,
        out: b"1*p 1",
        err: b"write fault\n",
        ..CHECK
    },
    Row {
        shows: "a sink with room for four bytes",
        words: &["places"],
        room: 4,
        status: 9,
        out: b"1*p ",
        err: b"write fault\n",
        ..CHECK
    },
    Row {
        shows: "neither sink takes anything",
        failing_writes: &[0],
        failing_lines: &[0],
        status: 9,
        ..CHECK
    },
];

#[test]
fn devices_that_cut_and_fail_end_a_run_by_their_status(rt: HostRuntime) -> Result<(), Fail> {
    for row in &FAILING_DEVICES {
        check_net(&rt, rt.alloc(), &CYCLE, row)?;
    }
    Ok(())
}

/// Runs whose line is cut.
const CUT_LINES: [Row<'static>; 5] = [
    Row {
        shows: "no byte of the line",
        failing_lines: &[0],
        status: 3,
        ..CHECK
    },
    Row {
        shows: "a piece of its first words",
        failing_lines: &[1],
        status: 3,
        err: b"documen",
        ..CHECK
    },
    Row {
        shows: "the line up to its number",
        input: &[HEAD],
        failing_lines: &[3],
        status: 3,
        err: b"document refused at ",
        ..CHECK
    },
    Row {
        shows: "the line of a broken rule",
        input: &[HEAD, b"<place id=\"n\"/>", REAR],
        failing_lines: &[5],
        status: 3,
        err: b"document refused: duplicate id",
        ..CHECK
    },
    Row {
        shows: "the usage",
        words: &[],
        failing_lines: &[1],
        status: 2,
        err: b"usage: ",
        ..CHECK
    },
];

/// The same for a net whose semiflows are out of range.
const CUT_LINES_OF_A_CHAIN: [Row<'static>; 2] = [
    Row {
        shows: "a net without a list, whose line is cut",
        words: &["places"],
        failing_lines: &[2],
        status: 4,
        err: b"wide row",
        ..CHECK
    },
    Row {
        shows: "the same line, cut in its first piece",
        words: &["places"],
        failing_lines: &[0],
        status: 4,
        ..CHECK
    },
];

#[test]
fn a_line_that_cannot_be_written_whole_leaves_its_front(rt: HostRuntime) -> Result<(), Fail> {
    for row in &CUT_LINES {
        check_row(&rt, rt.alloc(), row)?;
    }
    for row in &CUT_LINES_OF_A_CHAIN {
        check_net(&rt, rt.alloc(), &CHAIN_OF_3, row)?;
    }
    Ok(())
}

#[test]
fn a_read_fault_midway_gives_no_line_of_the_document(rt: HostRuntime) -> Result<(), Fail> {
    let mut input = Vec::from_slice(rt.alloc(), b"<x>")?;
    for _ in 0..100 {
        input.push(b' ')?;
    }
    let row = Row {
        shows: "the second read fails",
        pieces: &[64],
        failing_reads: &[1],
        status: 8,
        err: b"read fault\n",
        ..CHECK
    };
    Ok(check_input(&rt, rt.alloc(), &row, input, b"")?)
}

#[test]
fn one_byte_above_the_limit_is_too_long(rt: HostRuntime) -> Result<(), Fail> {
    let longest = Row {
        shows: "as many spaces as may be read",
        status: 3,
        err: b"document refused at 0: bad token\n",
        ..CHECK
    };
    let spaces = vec![in rt.alloc(); b' '; 67_108_864]?;
    check_input(&rt, rt.alloc(), &longest, spaces, b"")?;
    let longer = Row {
        shows: "one more",
        status: 7,
        err: b"input too long\n",
        ..CHECK
    };
    let spaces = vec![in rt.alloc(); b' '; 67_108_865]?;
    Ok(check_input(&rt, rt.alloc(), &longer, spaces, b"")?)
}
