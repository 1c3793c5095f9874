ghost use Rattle.std.specs.Prelude.{IfOk, IfErr};
ghost use Rattle.net_values.specs.FlatNets.{net_of};
ghost use Rattle.net_values.specs.Nodes.{place_id, transition_id};
ghost use Rattle.net_replay.specs.Failures.{ExplainsFailure};
ghost use Rattle.struct_core.specs.Answers.{FailsWith};
ghost use Rattle.struct_core.specs.FiringLists.{FailedFiring, ReplayOutcome};

use net_replay::{FiringFault, Firings, ReplayFault, read_firings, replay, replay_text};
use net_values::{FlatNet, NoMemory, Text};
use report::{Excess, Refusal};
use std::alloc::Global;

/// The text of `replay` for the bytes that follow the document.
pub(crate) fn replay_report(alloc: Global, net: &FlatNet, bytes: &[u8]) -> Result<Text, Refusal>
    ensures text { IfOk result (ReplayOutcome (net_of net.now) (place_id net.now) (transition_id net.now) bytes.now 0) }
    ensures refused { IfErr result (FailsWith (ReplayOutcome (net_of net.now) (place_id net.now) (transition_id net.now) bytes.now)) }
{
    let list = match read_firings(alloc, net, bytes) {
        Ok(list) => list,
        Err(FiringFault::BadLine(number)) => return Err(Refusal::MalformedFiring(number)),
        Err(FiringFault::NoMemory) => return Err(Refusal::NoMemory),
    };
    match replay(alloc, net, &list) {
        Ok(replay) => Ok(replay_text(alloc, net, &list, &replay)?),
        Err(fault) => Err(refusal_of(alloc, net, &list, fault)),
    }
}

/// The refusal for a member that doesn't fire.
fn refusal_of(alloc: Global, net: &FlatNet, list: &Firings, fault: ReplayFault) -> Refusal
    requires { ExplainsFailure (net_of net.now) list.now fault }
    ensures { FailsWith (FailedFiring (net_of net.now) (place_id net.now) list.now) result }
{
    match told(alloc, net, list, fault) {
        Ok(refusal) => refusal,
        Err(NoMemory) => Refusal::NoMemory,
    }
}

/// The same where memory suffices for a copy of the place's id.
fn told(
    alloc: Global,
    net: &FlatNet,
    _list: &Firings,
    fault: ReplayFault,
) -> Result<Refusal, NoMemory>
    requires { ExplainsFailure (net_of net.now) _list.now fault }
    ensures { IfOk result (FailsWith (FailedFiring (net_of net.now) (place_id net.now) _list.now)) }
{
    match fault {
        ReplayFault::NoMemory => Err(NoMemory),
        ReplayFault::NotEnabled(index, p) => {
            let id = net.place_id(p).copy(alloc)?;
            Ok(Refusal::RejectedFiring(index, id))
        }
        ReplayFault::WideMarking(index, p) => {
            let id = net.place_id(p).copy(alloc)?;
            Ok(Refusal::Excess(Excess::WideMarking(index, id)))
        }
    }
}
