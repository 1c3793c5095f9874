ghost use Rattle.std.specs.Prelude.{◌≡◌, codes, All, IfOk, IfErr, OnOk, length};
ghost use Rattle.std.specs.Cmp.Lexicographic.{slice_cmp};
ghost use Rattle.std.specs.Ordering.{bool_cmp};
ghost use Rattle.net_values.specs.FlatNets.{net_of};
ghost use Rattle.net_values.specs.Nodes.{place_id};
ghost use Rattle.net_values.specs.TheList.{IsTheList};
ghost use Rattle.closed_sets.specs.MinimalSets.{IsMinimalSet, IsMinimalTrapSet};
ghost use Rattle.siphon_branch.specs.Limits.{HasAtMostGrown, IsGrownSet, IsGrownTrapSet};
ghost use Rattle.struct_core.specs.Answers.{FailsWith};
ghost use Rattle.struct_core.specs.Enumerations.{PassedLimit, SetOutcome};

use net_values::{FlatNet, Sets, Text};
use report::{Excess, Refusal, siphons_text, traps_text};
use siphon_branch::{SetFault, minimal_siphons};
use std::alloc::Global;

/// The text of `siphons`, where at most `limit` are grown.
pub(crate) fn siphon_report(alloc: Global, net: &FlatNet, limit: u32) -> Result<Text, Refusal>
    ensures text { IfOk result (SetOutcome (IsMinimalSet (net_of net.now)) (IsGrownSet (net_of net.now))
        (codes "siphons") (place_id net.now) limit 0) }
    ensures refused { IfErr result (FailsWith (SetOutcome (IsMinimalSet (net_of net.now)) (IsGrownSet (net_of net.now))
        (codes "siphons") (place_id net.now) limit)) }
{
    let sets = list_siphons(alloc, net, limit)?;
    Ok(siphons_text(alloc, net, &sets)?)
}

/// The text of `traps`, where at most `limit` are grown. They are the siphons of the net with every arc turned
/// round.
pub(crate) fn trap_report(alloc: Global, net: &FlatNet, limit: u32) -> Result<Text, Refusal>
    ensures text { IfOk result (SetOutcome (IsMinimalTrapSet (net_of net.now)) (IsGrownTrapSet (net_of net.now))
        (codes "traps") (place_id net.now) limit 0) }
    ensures refused { IfErr result (FailsWith (SetOutcome (IsMinimalTrapSet (net_of net.now)) (IsGrownTrapSet (net_of net.now))
        (codes "traps") (place_id net.now) limit)) }
{
    let turned = net.reverse(alloc)?;
    let sets = list_siphons(alloc, &turned, limit)?;
    Ok(traps_text(alloc, net, &sets)?)
}

/// The minimal siphons of a net, strictly ascending.
pub(crate) fn list_siphons(alloc: Global, net: &FlatNet, limit: u32) -> Result<Sets, Refusal>
    ensures list { IfOk result (IsTheList (slice_cmp bool_cmp) (IsMinimalSet (net_of net.now))) }
    ensures sizes { IfOk result (All (λ set. length set ≡ (net_of net.now).places)) }
    ensures few { OnOk result (HasAtMostGrown (net_of net.now) limit) }
    ensures refused { IfErr result (FailsWith (PassedLimit (IsGrownSet (net_of net.now)) limit)) }
{
    match minimal_siphons(alloc, net, limit) {
        Ok(sets) => Ok(sets),
        Err(SetFault::SetLimit(_)) => Err(Refusal::Excess(Excess::SetLimit(limit))),
        Err(SetFault::NoMemory) => Err(Refusal::NoMemory),
    }
}
