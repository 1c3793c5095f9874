ghost use Rattle.std.specs.Prelude.{IfOk, IfErr};
ghost use Rattle.net_values.specs.FlatNets.{net_of};
ghost use Rattle.net_values.specs.Nodes.{place_id};
ghost use Rattle.struct_core.specs.Answers.{FailsWith};
ghost use Rattle.struct_core.specs.Verdicts.{CommonerOutcome, LiveOutcome};

use crate::siphons::list_siphons;
use free_choice_live::{live, live_text};
use net_class::commoner;
use net_values::{FlatNet, Text};
use report::{Excess, Refusal, commoner_text};
use siphon_branch::SetFault;
use std::alloc::Global;

/// The text of `commoner`, where at most `limit` siphons are grown.
pub(crate) fn commoner_report(alloc: Global, net: &FlatNet, limit: u32) -> Result<Text, Refusal>
    ensures text { IfOk result (CommonerOutcome (net_of net.now) (place_id net.now) limit 0) }
    ensures refused { IfErr result (FailsWith (CommonerOutcome (net_of net.now) (place_id net.now) limit)) }
{
    let siphons = list_siphons(alloc, net, limit)?;
    let verdict = commoner(alloc, net, &siphons)?;
    Ok(commoner_text(alloc, net, &verdict)?)
}

/// The text of `live`, where at most `limit` siphons are grown. They are searched for only in a free-choice net
/// with a transition.
pub(crate) fn live_report(alloc: Global, net: &FlatNet, limit: u32) -> Result<Text, Refusal>
    ensures text { IfOk result (LiveOutcome (net_of net.now) (place_id net.now) limit 0) }
    ensures refused { IfErr result (FailsWith (LiveOutcome (net_of net.now) (place_id net.now) limit)) }
{
    match live(alloc, net, limit) {
        Ok(liveness) => Ok(live_text(alloc, net, &liveness)?),
        Err(SetFault::SetLimit(_)) => Err(Refusal::Excess(Excess::SetLimit(limit))),
        Err(SetFault::NoMemory) => Err(Refusal::NoMemory),
    }
}
