ghost use Rattle.std.specs.Prelude.{◌≡◌};

use pnml_source::{Failed, Source};
use std::marker::Model;

/// A source over bytes of the caller that never fails.
#[derive(Drop)]
pub(crate) struct SliceSource<'a> {
    left: &'a [u8],
}

impl<'a> Model for SliceSource<'a> {
    ghost use Rattle.std.specs.Prelude.{ℕ, List};

    ghost Value = { List ℕ };

    ghost view = { λ s. s.left.now };
}

impl<'a> SliceSource<'a> {
    /// The source that gives these bytes.
    pub(crate) fn new(bytes: &'a [u8]) -> SliceSource<'a>
        ensures { result ≡ bytes.now }
    {
        SliceSource { left: bytes }
    }
}

impl<'a> Source for SliceSource<'a> {
    ghost use Rattle.std.specs.Prelude.{Some};

    ghost left = { λ s. Some s };

    ghost faults = { λ _. 0 };

    fn read(&mut self, buf: &mut [u8]) -> Result<usize, Failed> {
        let count = self.left.len().min(buf.len());
        let (front, rest) = self.left.split_at(count);
        let given = &mut buf[..count];
        given.copy_from_slice(front);
        self.left = rest;
        Ok(count)
    }
}
