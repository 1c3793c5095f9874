ghost use Rattle.std.specs.Prelude.{◌≤◌, IfOk, IfErr};
ghost use Rattle.net_values.specs.FlatNets.{net_of};
ghost use Rattle.net_values.specs.Nodes.{place_id};
ghost use Rattle.struct_core.specs.Answers.{FailsWith};
ghost use Rattle.struct_core.specs.Resuming.{ResumeOutcome};

use branch_resume::{PendingFault, read_pending, resume, resume_text};
use net_values::{Document, FlatNet, Text};
use report::Refusal;
use std::alloc::Global;

/// The text of `resume` for the bytes that follow the document.
pub(crate) fn resume_report(
    alloc: Global,
    document: &Document,
    net: &FlatNet,
    bytes: &[u8],
    leaves: u32,
) -> Result<Text, Refusal>
    requires { 1 ≤ leaves }
    ensures text { IfOk result (ResumeOutcome document.now (net_of net.now) (place_id net.now) leaves bytes.now 0) }
    ensures refused { IfErr result (FailsWith (ResumeOutcome document.now (net_of net.now) (place_id net.now) leaves bytes.now)) }
{
    let classes = match read_pending(alloc, net, bytes) {
        Ok(classes) => classes,
        Err(PendingFault::BadLine(number)) => return Err(Refusal::MalformedPending(number)),
        Err(PendingFault::Rejected(number)) => return Err(Refusal::RejectedPending(number)),
        Err(PendingFault::NoMemory) => return Err(Refusal::NoMemory),
    };
    let resumed = resume(alloc, net, classes, leaves)?;
    Ok(resume_text(alloc, document, net, &resumed)?)
}
