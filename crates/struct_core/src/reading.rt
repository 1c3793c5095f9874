ghost use Rattle.std.specs.Prelude.{IfOk, IfErr};
ghost use Rattle.struct_core.specs.Obtaining.{HasTakenAll, StopsBy};
ghost use Rattle.struct_core.specs.Run.{device};

use crate::intake::Intake;
use crate::order::Task;
use net_values::MAX_INPUT_BYTES;
use pnml_source::{Source, read_buffer, read_piece};
use report::Refusal;
use std::alloc::Global;

/// Takes the input of a task as it is read, to its end, also where its document is faulty.
pub(crate) fn read_input<S: Source>(
    alloc: Global,
    task: Task,
    source: &mut S,
) -> Result<Intake, Refusal>
    ensures taken { IfOk result
        (HasTakenAll task (device (S.left source.old) (S.faults source.old)) (device (S.left source.new) (S.faults source.new))) }
    ensures refused { IfErr result
        (StopsBy task (device (S.left source.old) (S.faults source.old)) (device (S.left source.new) (S.faults source.new))) }
{
    let mut intake = Intake::new(alloc, task)?;
    let mut room = read_buffer(alloc)?;
    let buffer = room.as_mut_slice();
    let mut taken = 0;
    'pieces: loop {
        let count = read_piece(source, buffer, taken, MAX_INPUT_BYTES)?;
        if count == 0 {
            return Ok(intake);
        }
        intake.take(&buffer[..count])?;
        taken += count;
    }
}
