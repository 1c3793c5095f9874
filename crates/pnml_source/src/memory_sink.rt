ghost use Rattle.std.specs.Prelude.{◌≡◌, ◌-◌, ◌^◌, ◌≤◌, ◌||◌, [], ◌++◌, length, take, is_err, IfOk, OnErr};
ghost use Rattle.std.specs.Io.KnownBytes.{WriteAppends};
ghost use Rattle.pnml_source.specs.Causes.{HasCause};
ghost use Rattle.pnml_source.specs.Streams.{TakesSome};
ghost use Rattle.pnml_source.specs.Memory.{before_calls, after_call, after_fault, is_failing, meets_full, bytes_taken};

use crate::failed::Failed;
use crate::schedule::Schedule;
use crate::sink::Sink;
use net_values::NoMemory;
use std::alloc::Global;
use std::marker::Model;

/// A sink in memory that holds at most `room` bytes, and cuts and fails as it is told.
///
/// Its calls are numbered from 0. Call `k` takes at most `pieces[k mod pieces.len()]` bytes, where an
/// entry 0 counts as 1 and an empty list sets no limit. A call whose number is in `failing` fails, and so
/// does one whose nonempty piece meets a full sink: it takes nothing and raises the count. Both numbers
/// stay at 2^64 - 1 once they reach it.
#[derive(Drop)]
pub struct MemorySink {
    held: Vec<u8>,
    room: usize,
    schedule: Schedule,
}

impl Model for MemorySink {
    ghost use Rattle.std.specs.Prelude.{◌≤◌, vec_len, vec_capacity};
    ghost use Rattle.pnml_source.specs.Memory.{MemoryOutput};

    ghost Value = { MemoryOutput };

    ghost view = { λ s. record { held = s.held.items; room = s.room; schedule = s.schedule } };

    ghost invariant = { λ s. (vec_len s.held ≤ s.room) × (s.room ≤ vec_capacity s.held) };
}

impl MemorySink {
    /// The empty sink before its call 0. It takes its whole room at once.
    pub fn new(
        alloc: Global,
        room: usize,
        pieces: Vec<usize>,
        failing: Vec<u64>,
    ) -> Result<MemorySink, NoMemory>
        ensures { IfOk result (λ sink.
            sink ≡ record { held = []; room = room; schedule = before_calls pieces.items failing.items }) }
    {
        Ok(MemorySink {
            held: Vec::with_capacity(alloc, room)?,
            room,
            schedule: Schedule::new(pieces, failing),
        })
    }

    /// The bytes held.
    pub fn bytes(&self) -> &[u8]
        ensures { result.now ≡ self.now.held }
    {
        self.held.as_slice()
    }
}

impl Sink for MemorySink {
    ghost use Rattle.std.specs.Prelude.{Some};

    ghost held = { λ s. Some s.held };

    ghost faults = { λ s. s.schedule.faults };

    fn write(&mut self, piece: &[u8]) -> Result<usize, Failed>
        ensures bound { TakesSome result piece.now }
        ensures bytes { WriteAppends (Some self.old.held) (Some self.new.held) result piece.now }
        ensures cause { HasCause self.old.schedule.faults self.new.schedule.faults result }
        ensures last { self.new.schedule.faults ≤ 2 ^ 64 - 1 }

        // The calls that fail are those that were named, and those that meet a full sink.
        ensures fails { is_err result ≡ (is_failing self.old.schedule || meets_full self.old piece.now) }
        ensures count { IfOk result (λ n. n ≡ bytes_taken self.old (length piece.now)) }
        ensures ok { IfOk result (λ n.
            self.new ≡ record self.old { held = self.old.held ++ take n piece.now; schedule = after_call self.old.schedule }) }
        ensures err { OnErr result (self.new ≡ record self.old { schedule = after_fault self.old.schedule }) }
    {
        let free = self.room - self.held.len();
        let is_full = free == 0 && !piece.is_empty();
        let count = self.schedule.next_call(free.min(piece.len()), is_full)?;
        match self.held.extend_from_slice(&piece[..count]) {
            Ok(()) => Ok(count),
            Err(_) => unreachable!(),
        }
    }
}
