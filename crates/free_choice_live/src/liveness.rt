ghost use Rattle.std.specs.Prelude.{◌≡◌, IfOk, IfErr};
ghost use Rattle.net_values.specs.FlatNets.{net_of};
ghost use Rattle.free_choice_live.specs.declared.liveness.Liveness.{Liveness};
ghost use Rattle.free_choice_live.specs.Answers.{FailsToTell, Tells};
ghost use Rattle.free_choice_live.specs.Live.{IsLive};

use net_class::{Verdict, class, commoner};
use net_values::{FlatNet, PlaceSet};
use siphon_branch::{SetFault, minimal_siphons};
use std::alloc::Global;

/// Whether a net is proved to be live. What isn't proved is unknown.
#[derive(Drop)]
pub enum Liveness {
    /// The net is free-choice, has a transition and meets Commoner's condition. So it is live.
    Proved,
    /// The net isn't free-choice.
    NotFreeChoice,
    /// The net is free-choice and has no transition.
    NoTransition,
    /// The first minimal siphon that contains no marked trap.
    Siphon(PlaceSet),
}

/// Whether the net is proved to be live by Commoner's condition (Hack 1972): `NotFreeChoice` exactly where it
/// isn't free-choice; `NoTransition` exactly where it is and has no transition; else `Proved` exactly where
/// the condition holds, and otherwise the first minimal siphon that contains no marked trap. Only in the last
/// two cases siphons are searched for, and `SetLimit` comes exactly where more than `sets` are grown.
pub fn live(alloc: Global, net: &FlatNet, sets: u32) -> Result<Liveness, SetFault>
    ensures told { IfOk result (Tells (net_of net.now) sets) }
    ensures live { IfOk result (λ liveness. liveness ≡ Liveness.Proved → IsLive (net_of net.now)) }
    ensures fault { IfErr result (FailsToTell (net_of net.now) sets) }
{
    if !class(net).free_choice {
        return Ok(Liveness::NotFreeChoice);
    }
    if net.transitions() == 0 {
        return Ok(Liveness::NoTransition);
    }
    let siphons = minimal_siphons(alloc, net, sets)?;
    match commoner(alloc, net, &siphons)? {
        Verdict::Yes => Ok(Liveness::Proved),
        Verdict::No(siphon) => Ok(Liveness::Siphon(siphon)),
    }
}
