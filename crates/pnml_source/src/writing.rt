ghost use Rattle.std.specs.Prelude.{◌-◌, ◌≤◌, ◌<◌, length, take, drop, IfOk, OnErr};
ghost use Rattle.std.specs.Io.KnownBytes.{Appends, Keeps};
ghost use Rattle.pnml_source.specs.Causes.{HasCause};
ghost use Rattle.pnml_source.specs.Writing.{IsWritten};

use crate::sink::Sink;

/// The sink failed before it had taken all bytes.
#[derive(Clone, Copy, Debug, PartialEq, Eq)]
pub struct WriteFault;

/// Writes all bytes in order. It takes no memory.
///
/// `WriteFault` where the sink failed, which then holds what it held and a prefix of the bytes.
#[tactic(auto, using(crate::proofs::Chained::write_follows, crate::proofs::Chained::write_stops))]
pub fn write_all<O: Sink>(sink: &mut O, bytes: &[u8]) -> Result<(), WriteFault>
    ensures { IsWritten (O.held sink.old) (O.held sink.new) (O.faults sink.old) (O.faults sink.new) bytes.now result }
{
    let mut at = 0;
    while at < bytes.len() {
        at = write_piece(sink, bytes, at)?;
    }
    Ok(())
}

// Writes once what occurs from `at` on, and gives where the rest starts.
fn write_piece<O: Sink>(sink: &mut O, bytes: &[u8], at: usize) -> Result<usize, WriteFault>
    requires { at < length bytes.now }
    ensures within { IfOk result (λ end. end ≤ length bytes.now) }
    ensures further { IfOk result (λ end. at < end) }
    ensures taken { IfOk result (λ end.
        Appends (O.held sink.old) (O.held sink.new) (take (end - at) (drop at bytes.now))) }
    ensures cut { OnErr result (Keeps (O.held sink.old) (O.held sink.new)) }
    ensures cause { HasCause (O.faults sink.old) (O.faults sink.new) result }
{
    let (_, rest) = bytes.split_at(at);
    match sink.write(rest) {
        Ok(count) => Ok(at + count),
        Err(_) => Err(WriteFault),
    }
}
