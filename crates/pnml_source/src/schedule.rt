ghost use Rattle.std.specs.Prelude.{◌≡◌, ◌≤◌, ◌<◌, ◌-◌, ◌^◌, ◌||◌, is_err, IfOk, OnOk, OnErr};
ghost use Rattle.pnml_source.specs.Causes.{HasCause};
ghost use Rattle.pnml_source.specs.Memory.{before_calls, after_call, after_fault, is_failing, bytes_moved, within_piece};

use crate::failed::Failed;
use std::marker::Model;

/// How the calls of a device in memory, which are numbered from 0, are cut and fail.
///
/// Call `k` moves at most `pieces[k mod pieces.len()]` bytes, where an entry 0 counts as 1 and an empty
/// list sets no limit. A call whose number is in `failing` fails. The number of the next call and the
/// count of the faults stay at 2^64 - 1 once they reach it.
#[derive(Drop)]
pub(crate) struct Schedule {
    pieces: Vec<usize>,
    failing: Vec<u64>,
    call: u64,
    faults: u64,
}

impl Model for Schedule {
    ghost use Rattle.pnml_source.specs.Memory.{Schedule as Calls};

    ghost Value = { Calls };

    ghost view = { λ s.
        record { pieces = s.pieces.items; failing = s.failing.items; call = s.call; faults = s.faults } };
}

impl Schedule {
    /// The schedule before call 0.
    pub(crate) fn new(pieces: Vec<usize>, failing: Vec<u64>) -> Schedule
        ensures { result ≡ before_calls pieces.items failing.items }
    {
        Schedule {
            pieces,
            failing,
            call: 0,
            faults: 0,
        }
    }

    /// Makes the next call: how many of the available bytes it moves. It fails where the schedule says
    /// so, and where it is blocked.
    pub(crate) fn next_call(&mut self, available: usize, is_blocked: bool) -> Result<usize, Failed>
        ensures fails { is_err result ≡ (is_failing self.old || is_blocked) }
        ensures count { IfOk result (λ n. n ≡ bytes_moved self.old available) }
        ensures bound { IfOk result (λ n. n ≤ available) }
        ensures some { IfOk result (λ n. 0 < available → 0 < n) }
        ensures ok { OnOk result (self.new ≡ after_call self.old) }
        ensures err { OnErr result (self.new ≡ after_fault self.old) }
        ensures cause { HasCause self.old.faults self.new.faults result }
        ensures last { self.new.faults ≤ 2 ^ 64 - 1 }
    {
        let call = self.call;
        let faults = self.faults;
        self.call = call.saturating_add(1);
        if self.failing.contains(&call) || is_blocked {
            self.faults = faults.saturating_add(1);
            return Err(Failed);
        }
        Ok(moved(self.pieces.as_slice(), call, available))
    }
}

// How many of `available` bytes the call with this number moves.
fn moved(pieces: &[usize], call: u64, available: usize) -> usize
    ensures count { result ≡ within_piece pieces.now call available }
    ensures bound { result ≤ available }
    ensures some { 0 < available → 0 < result }
{
    if pieces.is_empty() {
        return available;
    }
    let k = (call % pieces.len() as u64) as usize;
    available.min(pieces[k].max(1))
}
