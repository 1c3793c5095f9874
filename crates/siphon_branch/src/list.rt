ghost use Rattle.std.specs.Prelude.{◌≡◌, IfOk, IfErr, OnOk};
ghost use Rattle.std.specs.Cmp.Lexicographic.{slice_cmp};
ghost use Rattle.std.specs.Ordering.{bool_cmp};
ghost use Rattle.net_values.specs.FlatNets.{net_of};
ghost use Rattle.net_values.specs.TheList.{IsTheList};
ghost use Rattle.closed_sets.specs.MinimalSets.{CoversSiphons, IsMinimalSet};
ghost use Rattle.siphon_branch.specs.Faults.{FailsToList};
ghost use Rattle.siphon_branch.specs.Limits.{HasAtMostGrown};

use crate::fault::SetFault;
use crate::progress::{AdvanceFault, Progress};
use crate::search::Search;
use net_values::{FlatNet, Sets};
use std::alloc::Global;

/// The list of all minimal siphons of the net, each compared as its list of 0 and 1, strictly ascending. It
/// comes exactly where the net has at most `sets` grown siphons; else `SetLimit` with `sets + 1` distinct
/// grown siphons. Every nonempty siphon contains a listed one.
pub fn minimal_siphons(alloc: Global, net: &FlatNet, sets: u32) -> Result<Sets, SetFault>
    ensures list { IfOk result (λ list. IsTheList (slice_cmp bool_cmp) (IsMinimalSet (net_of net.now)) list) }
    ensures few { OnOk result (HasAtMostGrown (net_of net.now) sets) }
    ensures covers { IfOk result (λ list. CoversSiphons (net_of net.now) list) }
    ensures fault { IfErr result (FailsToList (net_of net.now) sets) }
{
    let mut search = Search::start(alloc, net, sets)?;
    loop {
        match search.advance(u32::MAX) {
            Ok(Progress::Done) => return Ok(search.into_list()),
            Ok(Progress::More) => {}
            Err(AdvanceFault::SetLimit) => return Err(SetFault::SetLimit(search.into_met())),
            Err(AdvanceFault::NoMemory) => return Err(SetFault::NoMemory),
        }
    }
}
