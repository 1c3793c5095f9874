ghost use Rattle.std.specs.Prelude.{◌≡◌};

use crate::failed::Failed;
use crate::memory_source::give;
use crate::source::Source;
use std::marker::Model;

/// A source over bytes in memory that never fails.
#[derive(Drop)]
pub struct SteadySource {
    bytes: Vec<u8>,
    at: usize,
}

impl Model for SteadySource {
    ghost use Rattle.std.specs.Prelude.{ℕ, List, ◌≤◌, drop, vec_len};

    ghost Value = { List ℕ };

    ghost view = { λ s. drop s.at s.bytes.items };

    ghost invariant = { λ s. s.at ≤ vec_len s.bytes };
}

impl SteadySource {
    /// The source that gives these bytes.
    pub fn new(bytes: Vec<u8>) -> SteadySource
        ensures { result ≡ bytes.items }
    {
        SteadySource { bytes, at: 0 }
    }
}

impl Source for SteadySource {
    ghost use Rattle.std.specs.Prelude.{Some};

    ghost left = { λ s. Some s };

    ghost faults = { λ _. 0 };

    fn read(&mut self, buf: &mut [u8]) -> Result<usize, Failed> {
        let left = self.bytes.len() - self.at;
        let count = left.min(buf.len());
        give(self.bytes.as_slice(), self.at, count, buf);
        self.at += count;
        Ok(count)
    }
}
