ghost use Rattle.std.specs.Prelude.{ℕ, ◌≤◌, ◌-◌, ◌^◌, List, Option};
ghost use Rattle.std.specs.Io.{ReadsAtMost};
ghost use Rattle.pnml_source.specs.Causes.{HasCause};
ghost use Rattle.pnml_source.specs.Streams.{GivesNext};

use crate::failed::Failed;

/// Something that bytes are read from.
pub trait Source {
    // The bytes left, where the source tells them.
    ghost left: { Self → Option (List ℕ) };

    // How many faults there were so far.
    ghost faults: { Self → ℕ };

    /// Puts the next bytes into the front of `buf` and gives their number, which is 0 for a nonempty
    /// `buf` at the end of input only. A `Failed` raises the count, and may have taken bytes.
    fn read(&mut self, buf: &mut [u8]) -> Result<usize, Failed>
        ensures bound { ReadsAtMost result buf.new }
        ensures bytes { GivesNext (left self.old) (left self.new) result buf.new }
        ensures cause { HasCause (faults self.old) (faults self.new) result }
        ensures last { faults self.new ≤ 2 ^ 64 - 1 };
}
