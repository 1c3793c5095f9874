ghost use Rattle.std.specs.Prelude.{◌≡◌, ◌≤◌, ◌-◌, ◌^◌};
ghost use Rattle.std.specs.Io.KnownBytes.{WriteAppends};
ghost use Rattle.pnml_source.specs.Causes.{HasCause};
ghost use Rattle.pnml_source.specs.Streams.{TakesSome};
ghost use Rattle.pnml_source.specs.Adapters.{WritesThrough, writer_of};

use crate::failed::Failed;
use crate::sink::Sink;
use std::io::Write;

/// A writer of std as a sink. It counts the writer's errors, and tells no bytes, since a flush may fail
/// after a write that took some.
#[derive(Drop)]
pub struct StdSink<W> {
    inner: W,
    faults: u64,
}

impl<W: Write> StdSink<W> {
    /// The writer as a sink without a fault so far.
    pub fn new(inner: W) -> StdSink<W>
        ensures { ⟦<StdSink<W> as Sink>⟧.faults result ≡ 0 }
    {
        StdSink { inner, faults: 0 }
    }
}

impl<W: Write> Sink for StdSink<W> {
    ghost use Rattle.std.specs.Prelude.{None};

    ghost held = { λ _. None };

    ghost faults = { λ s. s.faults };

    fn write(&mut self, piece: &[u8]) -> Result<usize, Failed>
        ensures bound { TakesSome result piece.now }
        ensures bytes { WriteAppends (⟦<StdSink<W> as Sink>⟧.held self.old) (⟦<StdSink<W> as Sink>⟧.held self.new) result piece.now }
        ensures cause { HasCause (⟦<StdSink<W> as Sink>⟧.faults self.old) (⟦<StdSink<W> as Sink>⟧.faults self.new) result }
        ensures last { ⟦<StdSink<W> as Sink>⟧.faults self.new ≤ 2 ^ 64 - 1 }

        // What was told as taken was written to std's writer, where that tells its bytes.
        ensures through { WritesThrough
            (W.contents (writer_of self.old)) (W.contents (writer_of self.new)) result piece.now }
    {
        let faults = self.faults;
        let taken = write_through(&mut self.inner, piece);
        if taken.is_err() {
            self.faults = faults.saturating_add(1);
        }
        taken
    }
}

// Writes some of the piece and flushes it. A writer that takes nothing of a nonempty piece fails.
fn write_through<W: Write>(writer: &mut W, piece: &[u8]) -> Result<usize, Failed>
    ensures bound { TakesSome result piece.now }
    ensures through { WritesThrough (W.contents writer.old) (W.contents writer.new) result piece.now }
{
    match writer.write(piece) {
        Ok(0) if !piece.is_empty() => Err(Failed),
        Ok(count) => match writer.flush() {
            Ok(()) => Ok(count),
            Err(_) => Err(Failed),
        },
        Err(_) => Err(Failed),
    }
}
