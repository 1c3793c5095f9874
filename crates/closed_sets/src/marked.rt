ghost use Rattle.std.specs.Prelude.{◌≡◌, [], ◌<◌, ◌↔◌, IsTrue, length};
ghost use Rattle.net_values.specs.FlatNets.{net_of};
ghost use Rattle.net_values.specs.PlaceSets.{has};
ghost use Rattle.closed_sets.specs.Commoner.{HasMarkedTrap, IsInitiallyEmpty, IsMarked, IsMarkedTrap};
ghost use Rattle.closed_sets.specs.Falling.{IsFalling};
ghost use Rattle.closed_sets.specs.Kinds.{seen_as};
ghost use Rattle.closed_sets.specs.Opens.{AreLeaving};
ghost use Rattle.closed_sets.specs.declared.guard.Guard.TheVariants.{Nothing};
ghost use Rattle.closed_sets.specs.declared.kind.Kind.TheVariants.{Trap};

use crate::fallen::Fallen;
use crate::greatest::greatest;
use crate::guard::Guard;
use crate::kind::Kind;
use crate::leaving::put;
use crate::propagate::{close, propagate};
use net_values::{FlatNet, PlaceSet};

/// Whether the set contains a trap that is marked at the initial marking. It does where the greatest trap in
/// it is marked, which the scratch set then holds. What the scratch list holds is lost.
pub fn has_marked_trap(
    net: &FlatNet,
    set: &PlaceSet,
    scratch: &mut PlaceSet,
    fallen: &mut Fallen,
) -> bool
    requires set { length set.now ≡ (net_of net.now).places }
    requires scratch { length scratch.old ≡ (net_of net.now).places }
    ensures exact { IsTrue result ↔ HasMarkedTrap (net_of net.now) (has set.now) }
    ensures size { length scratch.new ≡ length scratch.old }
{
    scratch.copy_from(set);
    greatest(Kind::Trap, net, scratch, fallen);
    is_marked(net, scratch)
}

/// The same, where the transitions are known that have an input place in the set and no output place, and the places
/// without a token. Only what falls from these transitions on is looked at. The scratch set then holds the marked trap.
pub fn has_marked_trap_from(
    net: &FlatNet,
    set: &PlaceSet,
    leaving: &PlaceSet,
    empty: &PlaceSet,
    scratch: &mut PlaceSet,
    fallen: &mut Fallen,
) -> bool
    requires set { length set.now ≡ (net_of net.now).places }
    requires leaving { AreLeaving (net_of net.now) set.now leaving.now }
    requires places { length empty.now ≡ (net_of net.now).places }
    requires empty { IsInitiallyEmpty (net_of net.now) empty.now }
    requires scratch { length scratch.old ≡ (net_of net.now).places }
    ensures exact { IsTrue result ↔ HasMarkedTrap (net_of net.now) (has set.now) }
    ensures trap { IsTrue result → IsMarkedTrap (net_of net.now) (has scratch.new) }
    ensures size { length scratch.new ≡ length scratch.old }
{
    scratch.copy_from(set);
    fallen.clear();
    close_leaving(net, scratch, leaving, fallen);
    propagate(Kind::Trap, net, scratch, fallen, Guard::Nothing);
    !scratch.is_subset(empty)
}

/// Takes the input places of each transition out of the set that has one in it and no output place.
fn close_leaving(net: &FlatNet, set: &mut PlaceSet, leaving: &PlaceSet, fallen: &mut Fallen)
    requires size { length set.old ≡ (net_of net.now).places }
    requires leaving { AreLeaving (net_of net.now) set.old leaving.now }
    requires none { fallen.old ≡ [] }
    ensures { IsFalling (seen_as Trap (net_of net.now)) Nothing set.old set.new fallen.new }
{
    let mut from = 0;
    while from < net.transitions() {
        let Some(t) = leaving.first_from(from) else {
            return;
        };
        close(Kind::Trap, net, set, fallen, t, Guard::Nothing);
        from = t + 1;
    }
}

/// Finds the places without a token at the initial marking.
pub fn find_empty_places(net: &FlatNet, empty: &mut PlaceSet)
    requires { length empty.old ≡ (net_of net.now).places }
    ensures size { length empty.new ≡ length empty.old }
    ensures empty { IsInitiallyEmpty (net_of net.now) empty.new }
{
    for p in 0..net.places() {
        put(empty, p, net.initial(p) == 0);
    }
}

/// Whether a place of the set has a token at the initial marking.
fn is_marked(net: &FlatNet, set: &PlaceSet) -> bool
    requires { length set.now ≡ (net_of net.now).places }
    ensures { IsTrue result ↔ IsMarked (net_of net.now) (net_of net.now).initial (has set.now) }
{
    let mut from = 0;
    while from < net.places() {
        let Some(p) = set.first_from(from) else {
            return false;
        };
        if net.initial(p) > 0 {
            return true;
        }
        from = p + 1;
    }
    false
}
