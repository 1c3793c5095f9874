ghost use Rattle.std.specs.Prelude.{◌≡◌, ◌↔◌, ◌<◌, IfOk};
ghost use Rattle.std.specs.Cmp.Lexicographic.{slice_cmp};
ghost use Rattle.std.specs.Ordering.{bool_cmp};
ghost use Rattle.net_values.specs.FlatNets.{net_of};
ghost use Rattle.net_values.specs.TheList.{IsTheList};
ghost use Rattle.closed_sets.specs.Commoner.{IsDeadlockFree, IsOrdinary, MeetsCommoner};
ghost use Rattle.closed_sets.specs.MinimalSets.{IsMinimalSet};
ghost use Rattle.net_class.specs.declared.verdict.Verdict.{Verdict};
ghost use Rattle.net_class.specs.Verdicts.{NamesFirst};

use closed_sets::{Fallen, has_marked_trap};
use net_values::{FlatNet, NoMemory, PlaceSet, Sets};
use std::alloc::Global;

/// Whether a net meets Commoner's condition (Hack 1972, Murata 1989): every nonempty siphon contains a trap
/// that is marked at the initial marking. A no names a siphon that contains none.
#[derive(Drop)]
pub enum Verdict {
    Yes,
    No(PlaceSet),
}

/// Commoner's verdict, by the list of the net's minimal siphons: yes exactly where every nonempty siphon
/// contains a marked trap, and then no reachable marking of an ordinary net with a transition is dead; else
/// the first listed siphon that contains no marked trap (Hack 1972, Murata 1989).
pub fn commoner(alloc: Global, net: &FlatNet, siphons: &Sets) -> Result<Verdict, NoMemory>
    requires { IsTheList (slice_cmp bool_cmp) (IsMinimalSet (net_of net.now)) siphons.now }
    ensures exact { IfOk result (λ verdict. (verdict ≡ Verdict.Yes) ↔ MeetsCommoner (net_of net.now)) }
    ensures first { IfOk result (NamesFirst (net_of net.now) siphons.now) }
    ensures safe { IfOk result (λ verdict. verdict ≡ Verdict.Yes → IsOrdinary (net_of net.now)
        → 0 < (net_of net.now).transitions → IsDeadlockFree (net_of net.now)) }
{
    let mut scratch = PlaceSet::new(alloc, net.places())?;
    let mut fallen = Fallen::none();
    let sets = siphons.as_slice();
    for siphon in sets {
        if !has_marked_trap(net, siphon, &mut scratch, &mut fallen) {
            return Ok(Verdict::No(siphon.copy(alloc)?));
        }
    }
    Ok(Verdict::Yes)
}
