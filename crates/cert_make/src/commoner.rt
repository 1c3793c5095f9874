ghost use Rattle.std.specs.Prelude.{IfOk, IfErr, OnOk};
ghost use Rattle.net_values.specs.FlatNets.{net_of};
ghost use Rattle.closed_sets.specs.Commoner.{MeetsCommoner};
ghost use Rattle.siphon_branch.specs.Faults.{FailsToList};
ghost use Rattle.siphon_branch.specs.Limits.{HasAtMostGrown};
ghost use Rattle.certificates.specs.Claims.{IsForCommoner};
ghost use Rattle.certificates.specs.Conditions.{IsAccepted};
ghost use Rattle.certificates.specs.WellFormed.{IsWellFormed};

use crate::tree::Tree;
use certificates::Certificate;
use net_values::FlatNet;
use siphon_branch::SetFault;
use std::alloc::Global;

/// A tree of classes that has a marked trap for every siphon of a net that meets Commoner's condition. It
/// follows the growth of siphons: the sets that the classes of its `trap` lines contain are the grown siphons,
/// each once. `SetLimit` comes exactly where these are more than `sets`, with `sets + 1` of them.
pub fn commoner_certificate(
    alloc: Global,
    net: &FlatNet,
    sets: u32,
) -> Result<Certificate, SetFault>
    requires { MeetsCommoner (net_of net.now) }
    ensures tree { IfOk result IsForCommoner }
    ensures well_formed { IfOk result IsWellFormed }
    ensures accepted { IfOk result (IsAccepted (net_of net.now)) }
    ensures few { OnOk result (HasAtMostGrown (net_of net.now) sets) }
    ensures fault { IfErr result (FailsToList (net_of net.now) sets) }
{
    let mut tree = Tree::start(alloc, net)?;
    'siphons: while let Some(class) = tree.classes.pop() {
        tree.descend(alloc, net, class)?;
        if tree.met.len() > sets as usize {
            return Err(SetFault::SetLimit(tree.met));
        }
    }
    Ok(Certificate::Commoner(tree.lines))
}
