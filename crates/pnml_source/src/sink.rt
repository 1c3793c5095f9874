ghost use Rattle.std.specs.Prelude.{ℕ, ◌≤◌, ◌-◌, ◌^◌, List, Option};
ghost use Rattle.std.specs.Io.KnownBytes.{WriteAppends};
ghost use Rattle.pnml_source.specs.Causes.{HasCause};
ghost use Rattle.pnml_source.specs.Streams.{TakesSome};

use crate::failed::Failed;

/// Something that bytes are written to.
pub trait Sink {
    // The bytes held, where the sink tells them.
    ghost held: { Self → Option (List ℕ) };

    // How many faults there were so far.
    ghost faults: { Self → ℕ };

    /// Appends the front of `piece` and gives the number of bytes taken, at least 1 for a nonempty
    /// `piece`. A `Failed` raises the count and appends nothing.
    fn write(&mut self, piece: &[u8]) -> Result<usize, Failed>
        ensures bound { TakesSome result piece.now }
        ensures bytes { WriteAppends (held self.old) (held self.new) result piece.now }
        ensures cause { HasCause (faults self.old) (faults self.new) result }
        ensures last { faults self.new ≤ 2 ^ 64 - 1 };
}
