ghost use Rattle.std.specs.Prelude.{◌≡◌, [], IfOk, IfSome};
ghost use Rattle.pnmlstruct_c.specs.Memory.{IsHeld};

use net_values::NoMemory;
use pnml_source::{Failed, Sink};
use std::alloc::Global;
use std::marker::Model;

/// A sink in memory that fails only where it is full.
#[derive(Drop)]
pub(crate) struct BoundedSink {
    held: Vec<u8>,
    room: usize,
    faults: u64,
}

impl Model for BoundedSink {
    ghost use Rattle.std.specs.Prelude.{◌≡◌, ◌≤◌, ◌<◌, vec_len, vec_capacity};
    ghost use Rattle.pnmlstruct_c.specs.Memory.{Bounded};

    ghost Value = { Bounded };

    ghost view = { λ s. record { held = s.held.items; room = s.room; faults = s.faults } };

    ghost invariant = { λ s. (vec_len s.held ≤ s.room) × (s.room ≤ vec_capacity s.held) × (0 < s.faults → vec_len s.held ≡ s.room) };
}

impl BoundedSink {
    /// The empty sink. It takes its whole room at once.
    pub(crate) fn new(alloc: Global, room: usize) -> Result<BoundedSink, NoMemory>
        ensures { IfOk result (λ sink. sink ≡ record { held = []; room = room; faults = 0 }) }
    {
        Ok(BoundedSink {
            held: Vec::with_capacity(alloc, room)?,
            room,
            faults: 0,
        })
    }

    /// What it holds, where this is its room.
    pub(crate) fn into_held(self, room: usize) -> Option<Vec<u8>>
        ensures { IfSome result (λ bytes. IsHeld self bytes.items room) }
    {
        if self.room == room {
            Some(self.held)
        } else {
            None
        }
    }
}

impl Sink for BoundedSink {
    ghost use Rattle.std.specs.Prelude.{Some};

    ghost held = { λ s. Some s.held };

    ghost faults = { λ s. s.faults };

    fn write(&mut self, piece: &[u8]) -> Result<usize, Failed> {
        let free = self.room - self.held.len();
        let count = free.min(piece.len());
        if count == 0 && !piece.is_empty() {
            self.faults = self.faults.saturating_add(1);
            return Err(Failed);
        }
        match self.held.extend_from_slice(&piece[..count]) {
            Ok(()) => Ok(count),
            Err(_) => unreachable!(),
        }
    }
}
