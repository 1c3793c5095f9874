use crate::nets::{HEAD, Net, REAR, document};
use net_values::{NoMemory, Text};
use pnml_source::{MemorySink, MemorySource};
use std::alloc::Global;
use std::process::Abort;
use struct_core::{Words, run};

pub const USAGE: &[u8] =
    b"usage: pnmlstruct TASK [--net K] [--rows N] [--sets N], or pnmlstruct sample N\n";

/// A run, and what it leaves.
#[derive(Drop)]
pub struct Row<'a> {
    pub shows: &'static str,
    pub words: &'static [&'static str],
    /// The input, in parts that occur one after the other.
    pub input: &'a [&'a [u8]],
    /// How the source cuts the input, and which of its reads fail.
    pub pieces: &'static [usize],
    pub failing_reads: &'static [u64],
    /// How much the sink for the text takes at most, and which of its writes fail.
    pub room: u16,
    pub failing_writes: &'static [u64],
    /// Which writes of the sink for the fault line fail.
    pub failing_lines: &'static [u64],
    pub status: u8,
    pub out: &'static [u8],
    pub err: &'static [u8],
}

/// `check` on an input in one piece, over devices that don't fail.
pub const CHECK: Row<'static> = Row {
    shows: "",
    words: &["check"],
    input: &[],
    pieces: &[],
    failing_reads: &[],
    room: 10_000,
    failing_writes: &[],
    failing_lines: &[],
    status: 0,
    out: b"",
    err: b"",
};

fn words(alloc: Global, given: &[&str]) -> Result<Words, NoMemory> {
    let mut words = Words::new(alloc);
    for one in given {
        let mut word = Text::new(alloc);
        word.push(one)?;
        words.push(word)?;
    }
    Ok(words)
}

/// The parts of an input, one after the other.
pub fn joined(alloc: Global, parts: &[&[u8]]) -> Result<Vec<u8>, NoMemory> {
    let mut bytes = Vec::new(alloc);
    for part in parts {
        bytes.extend_from_slice(part)?;
    }
    Ok(bytes)
}

/// Runs a row, and compares what it leaves.
pub fn check_row(rt: &impl Abort, alloc: Global, row: &Row<'_>) -> Result<(), NoMemory> {
    check_input(rt, alloc, row, joined(alloc, row.input)?, row.out)
}

/// Runs a row on a net.
pub fn check_net(rt: &impl Abort, alloc: Global, net: &Net, row: &Row<'_>) -> Result<(), NoMemory> {
    check_input(rt, alloc, row, document(alloc, net)?, row.out)
}

/// What is shown, a net, and the text that a task writes of it.
pub type NetText = (&'static str, Net, &'static [u8]);

/// Runs a task on each net.
pub fn check_texts(
    rt: &impl Abort,
    alloc: Global,
    words: &'static [&'static str],
    texts: &[NetText],
) -> Result<(), NoMemory> {
    for (shows, net, out) in texts {
        let row = Row {
            shows: *shows,
            words,
            out: *out,
            ..CHECK
        };
        check_net(rt, alloc, net, &row)?;
    }
    Ok(())
}

/// What is shown, the items of a net, and the line that tells why `check` refuses it.
pub type ItemsLine = (&'static str, &'static [u8], &'static [u8]);

/// Runs `check` on each net, which it refuses.
pub fn check_refused(rt: &impl Abort, alloc: Global, lines: &[ItemsLine]) -> Result<(), NoMemory> {
    for (shows, items, err) in lines {
        let row = Row {
            shows: *shows,
            input: &[HEAD, *items, REAR],
            status: 3,
            err: *err,
            ..CHECK
        };
        check_row(rt, alloc, &row)?;
    }
    Ok(())
}

/// Runs a row on an input and with an output of its own.
pub fn check_input(
    rt: &impl Abort,
    alloc: Global,
    row: &Row<'_>,
    input: Vec<u8>,
    wanted: &[u8],
) -> Result<(), NoMemory> {
    let (status, out, err) = run_input(alloc, row, input)?;
    assert_eq!(rt; status, row.status, "{}", row.shows);
    assert_eq!(rt; out.bytes(), wanted, "{}", row.shows);
    assert_eq!(rt; err.bytes(), row.err, "{}", row.shows);
    Ok(())
}

/// Runs a row on an input, and gives its status and the two sinks.
pub fn run_input(
    alloc: Global,
    row: &Row<'_>,
    input: Vec<u8>,
) -> Result<(u8, MemorySink, MemorySink), NoMemory> {
    let words = words(alloc, row.words)?;
    let mut source = MemorySource::new(
        input,
        Vec::from_slice(alloc, row.pieces)?,
        Vec::from_slice(alloc, row.failing_reads)?,
    );
    let mut out = MemorySink::new(
        alloc,
        row.room as usize,
        Vec::from_slice(alloc, &[5])?,
        Vec::from_slice(alloc, row.failing_writes)?,
    )?;
    let mut err = MemorySink::new(
        alloc,
        1_000,
        Vec::from_slice(alloc, &[7])?,
        Vec::from_slice(alloc, row.failing_lines)?,
    )?;
    let status = run(alloc, &words, &mut source, &mut out, &mut err);
    Ok((status, out, err))
}
