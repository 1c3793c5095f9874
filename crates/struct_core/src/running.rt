ghost use Rattle.struct_core.specs.Run.{device, Ran, HasRun};
ghost use Rattle.struct_core.specs.Answers.{status_after, line_after};
ghost use Rattle.std.specs.Prelude.{IfOk, IfErr};
ghost use Rattle.struct_core.specs.Words.{IsInRange, Means};
ghost use Rattle.struct_core.specs.Obtaining.{HasText, EndsBy};

use crate::answer::answer;
use crate::order::Order;
use crate::reading::read_input;
use crate::sample::sample_report;
use crate::words::{Words, read_words};
use net_values::Text;
use pnml_source::{Sink, Source, write_all};
use report::{Refusal, status, tell};
use std::alloc::Global;

/// The text of an order: of a task for the whole input, and of `sample` without reading.
fn obtain<S: Source>(alloc: Global, order: Order, source: &mut S) -> Result<Text, Refusal>
    requires { IsInRange order }
    ensures text { IfOk result
        (HasText order (device (S.left source.old) (S.faults source.old)) (device (S.left source.new) (S.faults source.new))) }
    ensures refused { IfErr result
        (EndsBy order (device (S.left source.old) (S.faults source.old)) (device (S.left source.new) (S.faults source.new))) }
{
    match order {
        Order::Run(task, net, budgets) => {
            let intake = read_input(alloc, task, source)?;
            answer(alloc, task, net, budgets, intake)
        }
        Order::Sample(n) => sample_report(alloc, n),
    }
}

/// Writes the text of an order.
fn work<S: Source, O: Sink>(
    alloc: Global,
    words: &Words,
    order: Order,
    source: &mut S,
    out: &mut O,
) -> Result<(), Refusal>
    requires { Means words.now order }
    ensures { Ran words.now (device (S.left source.old) (S.faults source.old)) (device (S.left source.new) (S.faults source.new))
        (device (O.held out.old) (O.faults out.old)) (device (O.held out.new) (O.faults out.new)) (status_after result) (line_after result) }
{
    let text = obtain(alloc, order, source)?;
    Ok(write_all(out, text.as_bytes())?)
}

/// The same for words, where they mean an order.
fn attempt<S: Source, O: Sink>(
    alloc: Global,
    words: &Words,
    source: &mut S,
    out: &mut O,
) -> Result<(), Refusal>
    ensures { Ran words.now (device (S.left source.old) (S.faults source.old)) (device (S.left source.new) (S.faults source.new))
        (device (O.held out.old) (O.faults out.old)) (device (O.held out.new) (O.faults out.new)) (status_after result) (line_after result) }
{
    match read_words(words) {
        None => Err(Refusal::Usage),
        Some(order) => work(alloc, words, order, source, out),
    }
}

/// Runs what the words mean on the input of `source`. The text is made whole before its first byte goes to
/// `out`; on each status but 0 one line goes to `err`. The status is the exit status of the program.
pub fn run<S: Source, O: Sink, E: Sink>(
    alloc: Global,
    words: &Words,
    source: &mut S,
    out: &mut O,
    err: &mut E,
) -> u8
    ensures { HasRun words.now (device (S.left source.old) (S.faults source.old)) (device (S.left source.new) (S.faults source.new))
        (device (O.held out.old) (O.faults out.old)) (device (O.held out.new) (O.faults out.new))
        (device (E.held err.old) (E.faults err.old)) (device (E.held err.new) (E.faults err.new)) result }
{
    match attempt(alloc, words, source, out) {
        Ok(()) => 0,
        Err(refusal) => {
            let _ = tell(err, &refusal);
            status(&refusal)
        }
    }
}
