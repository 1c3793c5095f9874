use crate::fixture::{CHECK, Row, USAGE, check_input, check_net, check_row};
use crate::nets::{CYCLE, FAN, ISLES, document};
use net_values::NoMemory;
use std::alloc::Global;
use std::test::Fail;

const MEANINGLESS: [(&str, &[&str]); 35] = [
    ("a leading zero", &["places", "--rows", "007"]),
    ("a zero", &["places", "--rows", "0"]),
    ("two zeros", &["places", "--sets", "00"]),
    ("a plus sign", &["places", "--rows", "+5"]),
    ("a minus sign", &["siphons", "--sets", "-5"]),
    ("a space in front", &["places", "--rows", " 5"]),
    ("a fraction", &["places", "--rows", "5.0"]),
    ("an exponent", &["places", "--rows", "1e3"]),
    ("a separator", &["siphons", "--sets", "1_000"]),
    ("an empty number", &["places", "--rows", ""]),
    ("no number", &["places", "--rows"]),
    (
        "no number for the second",
        &["places", "--rows", "5", "--sets"],
    ),
    (
        "an option as a number",
        &["places", "--rows", "--sets", "5"],
    ),
    ("rows above the range", &["places", "--rows", "100001"]),
    ("rows of sub above its range", &["sub", "--rows", "50001"]),
    ("sets above the range", &["siphons", "--sets", "1000001"]),
    (
        "a number above 2^128",
        &[
            "places",
            "--rows",
            "340282366920938463463374607431768211457",
        ],
    ),
    ("the other order", &["places", "--sets", "5", "--rows", "5"]),
    ("rows twice", &["places", "--rows", "5", "--rows", "5"]),
    ("sets twice", &["siphons", "--sets", "5", "--sets", "5"]),
    ("one word with a sign", &["places", "--rows=5"]),
    ("another option", &["places", "--nets", "1"]),
    ("a net of 0", &["check", "--net", "0"]),
    ("a net above the range", &["check", "--net", "65"]),
    ("no number of a net", &["check", "--net"]),
    ("the net twice", &["check", "--net", "1", "--net", "1"]),
    (
        "the net after the rows",
        &["check", "--rows", "5", "--net", "1"],
    ),
    (
        "the net after the sets",
        &["check", "--sets", "5", "--net", "1"],
    ),
    ("a sample of a net", &["sample", "3", "--net", "1"]),
    ("an option in front", &["--rows", "5", "places"]),
    ("a word after it", &["places", "--rows", "5", "x"]),
    ("a sample of 1", &["sample", "1"]),
    ("a sample of 201", &["sample", "201"]),
    ("a sample of no number", &["sample"]),
    ("a sample with an option", &["sample", "3", "--rows", "5"]),
];

#[test]
fn options_that_mean_nothing_end_a_run_before_it_reads(rt: HostRuntime) -> Result<(), Fail> {
    for (shows, words) in &MEANINGLESS {
        let row = Row {
            shows: *shows,
            words: *words,
            failing_reads: &[0],
            status: 2,
            err: USAGE,
            ..CHECK
        };
        check_row(&rt, rt.alloc(), &row)?;
    }
    Ok(())
}

/// Options that have no effect on the task.
const WITHOUT_EFFECT: [(&str, &[&str]); 6] = [
    ("the first net", &["check", "--net", "1"]),
    (
        "the first net with both",
        &["check", "--net", "1", "--rows", "1", "--sets", "1"],
    ),
    ("the least rows", &["check", "--rows", "1"]),
    ("the most rows", &["check", "--rows", "100000"]),
    (
        "the least of both",
        &["check", "--rows", "1", "--sets", "1"],
    ),
    (
        "the most of both",
        &["check", "--rows", "100000", "--sets", "1000000"],
    ),
];

/// Two places without arcs, of which each is a siphon that is grown.
const LIMITS_OF_ISLES: [Row<'static>; 3] = [
    Row {
        shows: "a limit of sets that is passed",
        words: &["siphons", "--sets", "1"],
        status: 6,
        err: b"set limit 1 passed\n",
        ..CHECK
    },
    Row {
        shows: "a limit of sets that is met",
        words: &["siphons", "--sets", "2"],
        out: b"b\na\nsiphons 2\n",
        ..CHECK
    },
    Row {
        shows: "a limit of sets beside one of rows",
        words: &["traps", "--rows", "1", "--sets", "1"],
        status: 6,
        err: b"set limit 1 passed\n",
        ..CHECK
    },
];

/// The digits that end the names of a fan's places, the greatest first.
const DIGITS: [u64; 10] = [9, 8, 7, 6, 5, 4, 3, 2, 1, 0];

/// The text of `places` for ten inputs and ten outputs of one transition.
fn pairs(alloc: Global) -> Result<Vec<u8>, NoMemory> {
    let mut text = Vec::new(alloc);
    for input in &DIGITS {
        for output in &DIGITS {
            let line = format!(in alloc; "1*i{input} 1*o{output}\n")?;
            text.extend_from_slice(line.as_bytes())?;
        }
    }
    text.extend_from_slice(b"semiflows 100\n")?;
    Ok(text)
}

#[test]
fn options_bound_what_a_task_may_take(rt: HostRuntime) -> Result<(), Fail> {
    for (shows, words) in &WITHOUT_EFFECT {
        let row = Row {
            shows: *shows,
            words: *words,
            out: b"places 2 transitions 2 arcs 4\n",
            ..CHECK
        };
        check_net(&rt, rt.alloc(), &CYCLE, &row)?;
    }
    for row in &LIMITS_OF_ISLES {
        check_net(&rt, rt.alloc(), &ISLES, row)?;
    }
    let passed = Row {
        shows: "a budget of rows that is passed",
        words: &["places", "--rows", "99"],
        status: 5,
        err: b"row budget 99 passed at t: 100 candidates\n",
        ..CHECK
    };
    check_net(&rt, rt.alloc(), &FAN, &passed)?;
    let met = Row {
        shows: "a budget of rows that is met",
        words: &["places", "--rows", "100"],
        ..CHECK
    };
    let wanted = pairs(rt.alloc())?;
    Ok(check_input(
        &rt,
        rt.alloc(),
        &met,
        document(rt.alloc(), &FAN)?,
        wanted.as_slice(),
    )?)
}

/// Samples, which read nothing.
const SAMPLES: [(&[&str], &[u8]); 3] = [
    (
        &["sample", "2"],
        b"places 6\ntransitions 4\narcs 16\nplace-semiflows 4\ntransition-semiflows 2\nsiphons 4\ngreatest-bound 1\ncommoner yes\n",
    ),
    (
        &["sample", "3"],
        b"places 9\ntransitions 6\narcs 24\nplace-semiflows 6\ntransition-semiflows 3\nsiphons 6\ngreatest-bound 1\ncommoner yes\n",
    ),
    (
        &["sample", "100"],
        b"places 300\ntransitions 200\narcs 800\nplace-semiflows 200\ntransition-semiflows 100\nsiphons 200\ngreatest-bound 1\ncommoner yes\n",
    ),
];

#[test]
fn samples_are_summed_up_without_reading(rt: HostRuntime) -> Result<(), Fail> {
    for (words, out) in &SAMPLES {
        let row = Row {
            shows: "a sample",
            words: *words,
            failing_reads: &[0],
            out: *out,
            ..CHECK
        };
        check_row(&rt, rt.alloc(), &row)?;
    }
    Ok(())
}
