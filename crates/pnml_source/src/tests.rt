use super::*;
use std::io::{self, ErrorKind, Read, Write};
use std::test::Fail;

/// The answer of a whole read.
type Whole = Result<&'static [u8], ReadAllFault>;

/// A source in memory: its bytes, how its calls are cut and which of them fail; a limit, and the answer of a
/// whole read with it.
type SourceRow = (&'static [u8], &'static [usize], &'static [u64], u32, Whole);

const SOURCES: [SourceRow; 11] = [
    (b"", &[], &[], 0, Ok(b"")),
    (b"a", &[], &[], 0, Err(ReadAllFault::TooLong)),
    (b"abc", &[], &[], 9, Ok(b"abc")),
    (b"abc", &[], &[], 3, Ok(b"abc")),
    (b"abc", &[], &[], 2, Err(ReadAllFault::TooLong)),
    (b"abcde", &[0], &[6], 5, Ok(b"abcde")),
    (b"abcde", &[2, 1], &[5], 5, Ok(b"abcde")),
    (b"abcde", &[2, 1], &[3], 5, Err(ReadAllFault::ReadFault)),
    (b"abcde", &[2, 1], &[3], 4, Err(ReadAllFault::TooLong)),
    (b"abcde", &[], &[7, 0], 5, Err(ReadAllFault::ReadFault)),
    (b"ab", &[2], &[1], 2, Err(ReadAllFault::ReadFault)),
];

#[test]
fn sources_in_memory_cut_and_fail_as_told(rt: HostRuntime) -> Result<(), Fail> {
    let alloc = rt.alloc();
    for (bytes, pieces, failing, limit, wanted) in &SOURCES {
        let mut source = MemorySource::new(
            Vec::from_slice(alloc, *bytes)?,
            Vec::from_slice(alloc, *pieces)?,
            Vec::from_slice(alloc, *failing)?,
        );
        let answer = read_all(alloc, &mut source, *limit as usize);
        assert_eq!(rt; lent(&answer), *wanted);
    }
    Ok(())
}

#[test]
fn the_longest_request_is_told(rt: HostRuntime) -> Result<(), Fail> {
    let alloc = rt.alloc();
    let bytes = Vec::from_slice(alloc, b"abcde".as_slice())?;
    let pieces = Vec::from_slice(alloc, [1].as_slice())?;
    let failing = Vec::from_slice(alloc, [2].as_slice())?;
    let mut source = MemorySource::new(bytes, pieces, failing);
    assert_eq!(rt; source.largest_request(), 0);
    let mut buffer = read_buffer(alloc)?;
    assert_eq!(rt; buffer.len(), READ_SIZE);
    let too_long = read_piece(&mut source, buffer.as_mut_slice(), 0, 0);
    assert_eq!(rt; too_long, Err(ReadPieceFault::TooLong));
    assert_eq!(rt; source.largest_request(), 1);
    let one = read_piece(&mut source, buffer.as_mut_slice(), 1, 9);
    assert_eq!(rt; one, Ok(1));
    assert_eq!(rt; source.largest_request(), 9);
    let failed = read_piece(&mut source, buffer.as_mut_slice(), 1, 3);
    assert_eq!(rt; failed, Err(ReadPieceFault::ReadFault));
    assert_eq!(rt; source.largest_request(), 9);
    Ok(())
}

/// The answer of a whole read with its bytes lent.
fn lent(answer: &Result<Vec<u8>, ReadAllFault>) -> Result<&[u8], ReadAllFault> {
    match answer {
        Ok(bytes) => Ok(bytes.as_slice()),
        Err(fault) => Err(*fault),
    }
}

/// A sink in memory: its room, how its calls are cut and which of them fail; bytes, the answer of a whole
/// write of them, and what the sink then holds.
type SinkRow = (
    usize,
    &'static [usize],
    &'static [u64],
    &'static [u8],
    Result<(), WriteFault>,
    &'static [u8],
);

const SINKS: [SinkRow; 6] = [
    (0, &[], &[0], b"", Ok(()), b""),
    (3, &[], &[], b"abc", Ok(()), b"abc"),
    (2, &[], &[], b"abc", Err(WriteFault), b"ab"),
    (9, &[0], &[3], b"abc", Ok(()), b"abc"),
    (9, &[2, 1], &[2], b"abcde", Err(WriteFault), b"abc"),
    (9, &[], &[7, 0], b"abc", Err(WriteFault), b""),
];

#[test]
fn sinks_in_memory_cut_and_fail_as_told(rt: HostRuntime) -> Result<(), Fail> {
    let alloc = rt.alloc();
    for (room, pieces, failing, bytes, wanted, held) in &SINKS {
        let pieces = Vec::from_slice(alloc, *pieces)?;
        let failing = Vec::from_slice(alloc, *failing)?;
        let mut sink = MemorySink::new(alloc, *room, pieces, failing)?;
        assert_eq!(rt; write_all(&mut sink, *bytes), *wanted);
        assert_eq!(rt; sink.bytes(), *held);
    }
    Ok(())
}

/// A reader of std that gives a byte a call, fails at one call, and counts its calls.
#[derive(Drop)]
struct Reader {
    left: &'static [u8],
    failing: Option<u32>,
    reads: u32,
}

impl Read for Reader {
    fn read(&mut self, buf: &mut [u8]) -> io::Result<usize> {
        let call = self.reads;
        self.reads = call.saturating_add(1);
        if self.failing == Some(call) {
            return Err(ErrorKind::BrokenPipe.into());
        }
        let count = buf.len().min(self.left.len()).min(1);
        let (given, left) = self.left.split_at(count);
        buf[..count].copy_from_slice(given);
        self.left = left;
        Ok(count)
    }
}

/// The read of the bytes `ab` that fails, if one does; a limit, the answer of a whole read with it, and the
/// number of reads. None is made after one that failed, nor is that one made again.
const READS: [(Option<u32>, u32, Whole, u32); 6] = [
    (None, 9, Ok(b"ab"), 3),
    (None, 1, Err(ReadAllFault::TooLong), 2),
    (Some(0), 9, Err(ReadAllFault::ReadFault), 1),
    (Some(1), 9, Err(ReadAllFault::ReadFault), 2),
    (Some(2), 9, Err(ReadAllFault::ReadFault), 3),
    (Some(3), 9, Ok(b"ab"), 3),
];

#[test]
fn a_failed_read_is_the_last_call(rt: HostRuntime) -> Result<(), Fail> {
    for (failing, limit, wanted, reads) in &READS {
        let mut reader = Reader {
            left: b"ab",
            failing: *failing,
            reads: 0,
        };
        let mut source = StdSource::new(&mut reader);
        let answer = read_all(rt.alloc(), &mut source, *limit as usize);
        assert_eq!(rt; lent(&answer), *wanted);
        assert_eq!(rt; reader.reads, *reads);
    }
    Ok(())
}

/// A call of a writer, by its number among those of its kind.
#[derive(Clone, Copy, PartialEq, Eq)]
enum Call {
    Write(u32),
    Flush(u32),
}

/// A writer of std that takes at most so many bytes a call, fails at one call, and counts its calls.
#[derive(Drop)]
struct Writer {
    most: usize,
    failing: Option<Call>,
    held: Vec<u8>,
    writes: u32,
    flushes: u32,
}

impl Write for Writer {
    fn write(&mut self, buf: &[u8]) -> io::Result<usize> {
        let call = self.writes;
        self.writes = call.saturating_add(1);
        if self.failing == Some(Call::Write(call)) {
            return Err(ErrorKind::BrokenPipe.into());
        }
        let count = buf.len().min(self.most);
        self.held.extend_from_slice(&buf[..count])?;
        Ok(count)
    }

    fn flush(&mut self) -> io::Result<()> {
        let call = self.flushes;
        self.flushes = call.saturating_add(1);
        if self.failing == Some(Call::Flush(call)) {
            return Err(ErrorKind::BrokenPipe.into());
        }
        Ok(())
    }
}

/// How many bytes a write takes at most, and the call that fails, if one does; the answer of a whole write of
/// `abc`, what the writer then holds, and the numbers of writes and of flushes. Each write that took bytes is
/// flushed, and no call is made after one that failed, nor is that one made again.
type WriteRow = (
    usize,
    Option<Call>,
    Result<(), WriteFault>,
    &'static [u8],
    u32,
    u32,
);

const WRITES: [WriteRow; 9] = [
    (9, None, Ok(()), b"abc", 1, 1),
    (2, None, Ok(()), b"abc", 2, 2),
    (0, None, Err(WriteFault), b"", 1, 0),
    (1, Some(Call::Write(0)), Err(WriteFault), b"", 1, 0),
    (1, Some(Call::Write(1)), Err(WriteFault), b"a", 2, 1),
    (1, Some(Call::Write(3)), Ok(()), b"abc", 3, 3),
    (1, Some(Call::Flush(0)), Err(WriteFault), b"a", 1, 1),
    (1, Some(Call::Flush(2)), Err(WriteFault), b"abc", 3, 3),
    (1, Some(Call::Flush(3)), Ok(()), b"abc", 3, 3),
];

#[test]
fn a_failed_write_or_flush_is_the_last_call(rt: HostRuntime) -> Result<(), Fail> {
    for (most, failing, wanted, held, writes, flushes) in &WRITES {
        let mut writer = Writer {
            most: *most,
            failing: *failing,
            held: Vec::new(rt.alloc()),
            writes: 0,
            flushes: 0,
        };
        let answer = write_all(&mut StdSink::new(&mut writer), b"abc");
        assert_eq!(rt; answer, *wanted);
        assert_eq!(rt; writer.held.as_slice(), *held);
        assert_eq!(rt; (writer.writes, writer.flushes), (*writes, *flushes));
    }
    Ok(())
}
