use crate::fixture::{CHECK, Row, check_input, check_net, check_row, run_input};
use crate::nets::{CYCLE, DIVIDED, LINE, MUTEX, Net, document};
use net_values::NoMemory;
use std::alloc::Global;
use std::process::Abort;
use std::test::Fail;

const DECLARATION: &[u8] = b"<?xml version=\"1.0\" encoding=\"UTF-8\"?>";

pub const OF_BOUNDS: &[u8] = b"bounds\nflow 0:1 1:1\nbound 0 1 1\nbound 1 1 1\nend\n";

const OF_SIPHON: &[u8] = b"bad-siphon\nsiphon 0\nend\n";

const TREE: &[u8] = b"commoner\nsplit 0\nempty\nsplit 1\nempty\ntrap\nend\n";

/// The canonical line of a net, and what follows it.
pub fn lines(alloc: Global, net: &Net, rest: &[u8]) -> Result<Vec<u8>, NoMemory> {
    let mut bytes = Vec::from_slice(alloc, DECLARATION)?;
    bytes.extend_from_slice(document(alloc, net)?.as_slice())?;
    bytes.extend_from_slice(b"\n")?;
    bytes.extend_from_slice(rest)?;
    Ok(bytes)
}

/// What is shown, a task, a net, and the certificate that the task makes of it.
type Made = (&'static str, &'static [&'static str], Net, &'static [u8]);

const MADE: [Made; 2] = [
    ("of the bounds", &["cert-bounds"], CYCLE, OF_BOUNDS),
    ("of a no", &["cert-commoner"], LINE, OF_SIPHON),
];

#[test]
fn certificates_are_made(rt: HostRuntime) -> Result<(), Fail> {
    let alloc = rt.alloc();
    for (shows, words, net, certificate) in &MADE {
        let row = Row {
            shows: *shows,
            words: *words,
            ..CHECK
        };
        let wanted = lines(alloc, net, *certificate)?;
        check_input(&rt, alloc, &row, document(alloc, net)?, wanted.as_slice())?;
    }
    let wide = Row {
        shows: "a sum above the range",
        words: &["cert-bounds"],
        status: 4,
        err: b"wide sum in semiflow 1 at t1\n",
        ..CHECK
    };
    Ok(check_net(&rt, alloc, &DIVIDED, &wide)?)
}

/// What is shown, a net, a certificate after its canonical line, and what `verify` writes.
type Accepted = (&'static str, Net, &'static [u8], &'static [u8]);

const ACCEPTED: [Accepted; 4] = [
    ("bounds", CYCLE, OF_BOUNDS, b"accepted bounds\n"),
    (
        "a tree",
        CYCLE,
        TREE,
        b"accepted commoner\ndeadlock-free proved\n",
    ),
    ("a siphon", LINE, OF_SIPHON, b"accepted bad-siphon\n"),
    (
        "numbers of 2^127 - 1",
        CYCLE,
        b"bounds\nflow 0:170141183460469231731687303715884105727 1:170141183460469231731687303715884105727\nend\n",
        b"accepted bounds\n",
    ),
];

/// What is shown, what follows the canonical line of a cycle, and the line that tells why `verify` refuses it.
type Forged = (&'static str, &'static [u8], &'static [u8]);

const FORGED: [Forged; 12] = [
    (
        "a bound that is too low",
        b"bounds\nflow 0:1 1:1\nbound 0 1 1\nbound 1 0 1\nend\n",
        b"certificate rejected at line 4\n",
    ),
    (
        "a line that is left out",
        b"commoner\nsplit 0\nsplit 1\nempty\ntrap\nend\n",
        b"certificate malformed at line 6\n",
    ),
    (
        "a trap in the place of a tree",
        b"commoner\nsplit 0\nempty\ntrap\nend\n",
        b"certificate rejected at line 4\n",
    ),
    ("no line", b"", b"certificate malformed at line 1\n"),
    (
        "a byte after the end",
        b"bounds\nend\nx",
        b"certificate malformed at line 3\n",
    ),
    (
        "a flow whose sums differ",
        b"bounds\nflow 0:1\nend\n",
        b"certificate rejected at line 2\n",
    ),
    (
        "a number of 2^127",
        b"bounds\nflow 0:170141183460469231731687303715884105728 1:170141183460469231731687303715884105727\nend\n",
        b"certificate malformed at line 2\n",
    ),
    (
        "a set that is no siphon",
        b"bad-siphon\nsiphon 0\nend\n",
        b"certificate rejected at line 2\n",
    ),
    (
        "a trap for all siphons",
        b"commoner\ntrap\nend\n",
        b"certificate rejected at line 2\n",
    ),
    (
        "no siphon at all",
        b"commoner\nempty\nend\n",
        b"certificate rejected at line 2\n",
    ),
    (
        "a place beyond the net",
        b"commoner\nsplit 2\nempty\nempty\nend\n",
        b"certificate rejected at line 2\n",
    ),
    (
        "a second split at a place",
        b"commoner\nsplit 0\nsplit 0\nempty\nempty\ntrap\nend\n",
        b"certificate rejected at line 3\n",
    ),
];

const VERIFY: Row<'static> = Row {
    words: &["verify"],
    ..CHECK
};

#[test]
fn certificates_are_verified(rt: HostRuntime) -> Result<(), Fail> {
    let alloc = rt.alloc();
    for (shows, net, certificate, out) in &ACCEPTED {
        let row = Row {
            shows: *shows,
            ..VERIFY
        };
        check_input(&rt, alloc, &row, lines(alloc, net, *certificate)?, *out)?;
    }
    Ok(())
}

#[test]
fn forged_certificates_are_refused(rt: HostRuntime) -> Result<(), Fail> {
    let alloc = rt.alloc();
    for (shows, certificate, err) in &FORGED {
        let row = Row {
            shows: *shows,
            status: 1,
            err: *err,
            ..VERIFY
        };
        check_input(&rt, alloc, &row, lines(alloc, &CYCLE, *certificate)?, b"")?;
    }
    let many_lines = Row {
        shows: "a document of many lines",
        input: MUTEX,
        status: 3,
        err: b"document refused at 22: truncated\n",
        ..VERIFY
    };
    Ok(check_row(&rt, alloc, &many_lines)?)
}

#[test]
fn a_certificate_of_a_yes_is_verified(rt: HostRuntime) -> Result<(), Fail> {
    let alloc = rt.alloc();
    let made = Row {
        shows: "a certificate of a yes",
        words: &["cert-commoner"],
        ..CHECK
    };
    let (status, out, _) = run_input(alloc, &made, document(alloc, &CYCLE)?)?;
    assert_eq!(rt; status, 0);
    let verified = Row {
        shows: "the same certificate",
        ..VERIFY
    };
    let input = Vec::from_slice(alloc, out.bytes())?;
    let text = b"accepted commoner\ndeadlock-free proved\n";
    Ok(check_input(&rt, alloc, &verified, input, text)?)
}
