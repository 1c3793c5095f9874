use crate::fixture::{CHECK, NetText, Row, check_input, check_net, check_row, check_texts};
use crate::nets::{
    ALONE, CHAIN_OF_2, CHAIN_OF_3, CYCLE, DIVIDED, ISLES, LINE, MUTEX, PRUNE, SCALE, TWIN,
    WIDE_SUM, fan,
};
use net_values::NoMemory;
use std::alloc::Global;
use std::process::Abort;
use std::test::Fail;

const OF_PLACES: [NetText; 7] = [
    ("semiflows of places", CYCLE, b"1*p 1*q\nsemiflows 1\n"),
    ("coefficients above 1", SCALE, b"3*p 2*q\nsemiflows 1\n"),
    (
        "a combination whose support isn't minimal",
        PRUNE,
        b"1*b 1*c\n1*a 1*d\nsemiflows 2\n",
    ),
    (
        "a coefficient of 2^126",
        CHAIN_OF_2,
        b"85070591730234615865843651857942052864*p1 9223372036854775808*p2 1*p3\nsemiflows 1\n",
    ),
    (
        "rows divided by their common divisor",
        DIVIDED,
        b"85070591730234615865843651857942052864*p 85070591730234615865843651857942052864*q 9223372036854775808*r 1*s\nsemiflows 1\n",
    ),
    (
        "a net without transitions",
        ISLES,
        b"1*b\n1*a\nsemiflows 2\n",
    ),
    (
        "parallel arcs, which add up",
        TWIN,
        b"1*p 2*q\nsemiflows 1\n",
    ),
];

const OF_TRANSITIONS: [NetText; 6] = [
    ("semiflows of transitions", CYCLE, b"1*t 1*u\nsemiflows 1\n"),
    (
        "weights that the transitions bring back",
        SCALE,
        b"1*t 1*u\nsemiflows 1\n",
    ),
    ("an empty list", LINE, b"semiflows 0\n"),
    (
        "no transition, no semiflow of transitions",
        ISLES,
        b"semiflows 0\n",
    ),
    ("a net without places", ALONE, b"1*t\nsemiflows 1\n"),
    ("the same net by its places", CHAIN_OF_3, b"semiflows 0\n"),
];

/// Nets whose semiflows are out of range, and the lines that say so.
const WIDE: [NetText; 2] = [
    (
        "a combination above the range",
        CHAIN_OF_3,
        b"wide row at t3\n",
    ),
    ("a sum above the range", WIDE_SUM, b"wide sum at t3\n"),
];

/// Runs `places` on nets whose semiflows are out of range.
fn check_wide(rt: &impl Abort, alloc: Global, nets: &[NetText]) -> Result<(), NoMemory> {
    for (shows, net, err) in nets {
        let row = Row {
            shows: *shows,
            words: &["places"],
            status: 4,
            err: *err,
            ..CHECK
        };
        check_net(rt, alloc, net, &row)?;
    }
    Ok(())
}

#[test]
fn minimal_semiflows_are_listed(rt: HostRuntime) -> Result<(), Fail> {
    check_texts(&rt, rt.alloc(), &["places"], &OF_PLACES)?;
    check_texts(&rt, rt.alloc(), &["transitions"], &OF_TRANSITIONS)?;
    check_wide(&rt, rt.alloc(), &WIDE)?;
    let mutex = Row {
        shows: "supports of two sizes",
        words: &["places"],
        input: MUTEX,
        out: b"1*idle2 1*crit2\n1*crit1 1*crit2 1*lock\n1*idle1 1*crit1\nsemiflows 3\n",
        ..CHECK
    };
    check_row(&rt, rt.alloc(), &mutex)?;
    let cycles = Row {
        shows: "two cycles of transitions",
        words: &["transitions"],
        input: MUTEX,
        out: b"1*enter2 1*leave2\n1*enter1 1*leave1\nsemiflows 2\n",
        ..CHECK
    };
    Ok(check_row(&rt, rt.alloc(), &cycles)?)
}

#[test]
fn more_candidates_than_the_budget_are_counted(rt: HostRuntime) -> Result<(), Fail> {
    let small = Row {
        shows: "each pair of an input and an output",
        words: &["places"],
        ..CHECK
    };
    check_input(
        &rt,
        rt.alloc(),
        &small,
        fan(rt.alloc(), 2)?,
        b"1*i1 1*o1\n1*o0 1*i1\n1*i0 1*o1\n1*i0 1*o0\nsemiflows 4\n",
    )?;
    let wide = Row {
        shows: "142 * 142 pairs",
        words: &["places"],
        status: 5,
        err: b"row budget 20000 passed at t: 20164 candidates\n",
        ..CHECK
    };
    check_input(&rt, rt.alloc(), &wide, fan(rt.alloc(), 142)?, b"")?;
    let turned = Row {
        shows: "the first place leaves no transition",
        words: &["transitions"],
        out: b"semiflows 0\n",
        ..CHECK
    };
    Ok(check_input(&rt, rt.alloc(), &turned, fan(rt.alloc(), 142)?, turned.out)?)
}
