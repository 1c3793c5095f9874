use crate::certified::{OF_BOUNDS, lines};
use crate::fixture::{CHECK, Row, check_row, joined};
use crate::nets::{CYCLE, HEAD, MUTEX, REAR};
use net_values::{NoMemory, Text};
use pnml_source::{MemorySink, MemorySource};
use std::alloc::Global;
use std::process::Abort;
use std::test::Fail;
use struct_core::{Words, run};

/// Inputs whose characters or faults come in pieces.
const CUT: [Row<'static>; 5] = [
    Row {
        shows: "a letter of two bytes in an id",
        input: &[HEAD, b"<place id=\"\xc3\xa9\"/>", REAR],
        pieces: &[1],
        out: b"places 1 transitions 0 arcs 0\n",
        ..CHECK
    },
    Row {
        shows: "a character that is cut by the end",
        input: &[HEAD, b"<place id=\"\xc3"],
        status: 3,
        err: b"document refused at 137: not UTF-8\n",
        ..CHECK
    },
    Row {
        shows: "a byte that isn't UTF-8 in a piece after a fault",
        input: &[b"x", HEAD, b"\xff"],
        pieces: &[1],
        status: 3,
        err: b"document refused at 127: not UTF-8\n",
        ..CHECK
    },
    Row {
        shows: "a fault that later pieces leave",
        input: &[b"x", HEAD, REAR],
        pieces: &[3],
        status: 3,
        err: b"document refused at 0: misplaced\n",
        ..CHECK
    },
    Row {
        shows: "a read that fails after a fault",
        input: &[b"x", HEAD],
        pieces: &[64],
        failing_reads: &[1],
        status: 8,
        err: b"read fault\n",
        ..CHECK
    },
];

#[test]
fn inputs_in_pieces_are_told_as_the_whole(rt: HostRuntime) -> Result<(), Fail> {
    for row in &CUT {
        check_row(&rt, rt.alloc(), row)?;
    }
    Ok(())
}

/// Runs a task on an input whose first piece has so many bytes, and compares its text. No read asks for more than 64 KiB.
fn check_cut(
    rt: &impl Abort,
    alloc: Global,
    task: &str,
    input: Vec<u8>,
    cut: usize,
    wanted: &[u8],
) -> Result<(), NoMemory> {
    let mut word = Text::new(alloc);
    word.push(task)?;
    let mut words = Words::new(alloc);
    words.push(word)?;
    let pieces = Vec::from_slice(alloc, &[cut, 65_536])?;
    let mut source = MemorySource::new(input, pieces, Vec::new(alloc));
    let mut out = MemorySink::new(alloc, 100, Vec::new(alloc), Vec::new(alloc))?;
    let mut err = MemorySink::new(alloc, 100, Vec::new(alloc), Vec::new(alloc))?;
    let status = run(alloc, &words, &mut source, &mut out, &mut err);
    assert_eq!(rt; status, 0, "cut at {cut}");
    assert_eq!(rt; out.bytes(), wanted, "cut at {cut}");
    assert!(rt; source.largest_request() <= 65_536);
    Ok(())
}

#[test]
fn an_input_may_be_cut_in_two_anywhere(rt: HostRuntime) -> Result<(), Fail> {
    let alloc = rt.alloc();
    let counts = b"places 5 transitions 4 arcs 12\n".as_slice();
    let length = joined(alloc, MUTEX)?.len();
    for k in 0..length / 16 {
        check_cut(&rt, alloc, "check", joined(alloc, MUTEX)?, 16 * k, counts)?;
    }
    let accepted = b"accepted bounds\n".as_slice();
    let line = lines(alloc, &CYCLE, b"")?.len();
    for cut in line.saturating_sub(2)..line + 3 {
        let input = lines(alloc, &CYCLE, OF_BOUNDS)?;
        check_cut(&rt, alloc, "verify", input, cut, accepted)?;
    }
    Ok(())
}
