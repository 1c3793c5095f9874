ghost use Rattle.std.specs.Prelude.{◌≡◌, ◌+◌, ◌-◌, ◌^◌, ◌≤◌, [], ◌++◌, length, max, take, drop, is_err, IfOk, OnErr};
ghost use Rattle.std.specs.Io.{ReadsAtMost};
ghost use Rattle.pnml_source.specs.Causes.{HasCause};
ghost use Rattle.pnml_source.specs.Streams.{GivesNext};
ghost use Rattle.pnml_source.specs.Memory.{before_calls, after_call, after_fault, is_failing, bytes_given};

use crate::failed::Failed;
use crate::schedule::Schedule;
use crate::source::Source;
use std::marker::Model;

/// A source over bytes in memory that cuts its input and fails as it is told.
///
/// Its calls are numbered from 0. Call `k` gives at most `pieces[k mod pieces.len()]` bytes, where an
/// entry 0 counts as 1 and an empty list sets no limit. A call whose number is in `failing` fails: it
/// takes nothing and raises the count. Both numbers stay at 2^64 - 1 once they reach it.
#[derive(Drop)]
pub struct MemorySource {
    bytes: Vec<u8>,
    at: usize,
    schedule: Schedule,
    largest: usize,
}

impl Model for MemorySource {
    ghost use Rattle.std.specs.Prelude.{◌≤◌, drop, vec_len};
    ghost use Rattle.pnml_source.specs.Memory.{MemoryInput};

    ghost Value = { MemoryInput };

    ghost view = { λ s. record { left = drop s.at s.bytes.items; schedule = s.schedule; largest = s.largest } };

    ghost invariant = { λ s. s.at ≤ vec_len s.bytes };
}

impl MemorySource {
    /// The source before its call 0.
    pub fn new(bytes: Vec<u8>, pieces: Vec<usize>, failing: Vec<u64>) -> MemorySource
        ensures { result ≡
            record { left = bytes.items; schedule = before_calls pieces.items failing.items; largest = 0 } }
    {
        MemorySource {
            bytes,
            at: 0,
            schedule: Schedule::new(pieces, failing),
            largest: 0,
        }
    }

    /// The length of the longest `buf` that any call was given so far, 0 before the first.
    pub fn largest_request(&self) -> usize
        ensures { result ≡ self.now.largest }
    {
        self.largest
    }
}

impl Source for MemorySource {
    ghost use Rattle.std.specs.Prelude.{Some};

    ghost left = { λ s. Some s.left };

    ghost faults = { λ s. s.schedule.faults };

    fn read(&mut self, buf: &mut [u8]) -> Result<usize, Failed>
        ensures bound { ReadsAtMost result buf.new }
        ensures bytes { GivesNext (Some self.old.left) (Some self.new.left) result buf.new }
        ensures cause { HasCause self.old.schedule.faults self.new.schedule.faults result }
        ensures last { self.new.schedule.faults ≤ 2 ^ 64 - 1 }

        // The calls that fail are those that were named.
        ensures fails { is_err result ≡ is_failing self.old.schedule }
        ensures count { IfOk result (λ n. n ≡ bytes_given self.old (length buf.old)) }
        ensures ok { IfOk result (λ n. self.new ≡
            record { left = drop n self.old.left; schedule = after_call self.old.schedule; largest = max self.old.largest (length buf.old) }) }
        ensures err { OnErr result (self.new ≡
            record self.old { schedule = after_fault self.old.schedule; largest = max self.old.largest (length buf.old) }) }
    {
        self.largest = self.largest.max(buf.len());
        let left = self.bytes.len() - self.at;
        let count = self.schedule.next_call(left.min(buf.len()), false)?;
        give(self.bytes.as_slice(), self.at, count, buf);
        self.at += count;
        Ok(count)
    }
}

// Copies this many bytes from an offset on to the front of the buffer.
pub(crate) fn give(bytes: &[u8], at: usize, count: usize, buf: &mut [u8])
    requires within { at + count ≤ length bytes.now }
    requires room { count ≤ length buf.old }
    ensures given { drop at bytes.now ≡ take count buf.new ++ drop (at + count) bytes.now }
    ensures length { length buf.new ≡ length buf.old }
    ensures end { length bytes.now ≤ at → drop (at + count) bytes.now ≡ [] }
{
    let front = &mut buf[..count];
    front.copy_from_slice(&bytes[at..at + count]);
}
