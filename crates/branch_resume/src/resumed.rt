ghost use Rattle.std.specs.Prelude.{◌≡◌, ◌≤◌, All, IfOk, length};
ghost use Rattle.std.specs.Cmp.Lexicographic.{slice_cmp};
ghost use Rattle.std.specs.Ordering.{bool_cmp};
ghost use Rattle.net_values.specs.FlatNets.{net_of};
ghost use Rattle.net_values.specs.TheList.{IsStrictlyAscending};
ghost use Rattle.branch_resume.specs.Pending.{ArePending};
ghost use Rattle.branch_resume.specs.Runs.{HasLeaves, IsRun};

use net_values::{FlatNet, NoMemory, Sets};
use siphon_branch::{AdvanceFault, Branches, Search};
use std::alloc::Global;

/// What a run of a search gives.
#[derive(Drop)]
pub struct Resumed {
    /// The minimal siphons that it met.
    pub found: Sets,
    /// All siphons that it met.
    pub met: Sets,
    /// The classes in which the others are grown.
    pub pending: Branches,
}

/// Searches given classes of a net for the siphons that are grown in them, until so many are met or no class
/// is left. What was met and what is grown in a pending class are together what is grown in the given ones.
pub fn resume(
    alloc: Global,
    net: &FlatNet,
    classes: Branches,
    leaves: u32,
) -> Result<Resumed, NoMemory>
    requires leaves { 1 ≤ leaves }
    requires classes { ArePending (net_of net.now).places classes }
    ensures run { IfOk result (IsRun (net_of net.now) classes) }
    ensures ascending { IfOk result (λ resumed. IsStrictlyAscending (slice_cmp bool_cmp) resumed.found) }
    ensures sizes { IfOk result (λ resumed. All (λ set. length set ≡ (net_of net.now).places) resumed.found) }
    ensures pending { IfOk result (λ resumed. ArePending (net_of net.now).places resumed.pending) }
    ensures leaves { IfOk result (HasLeaves leaves) }
{
    let mut search = Search::start_from(alloc, net, classes, leaves)?;
    if let Err(AdvanceFault::NoMemory) = search.advance(leaves) {
        return Err(NoMemory);
    }
    let (mut found, met, pending) = search.into_parts();
    found.sort();
    Ok(Resumed {
        found,
        met,
        pending,
    })
}
