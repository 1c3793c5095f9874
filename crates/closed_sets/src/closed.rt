ghost use Rattle.std.specs.Prelude.{◌≡◌, ◌<◌, ◌↔◌, IsTrue, MatchOption, length};
ghost use Rattle.net_values.specs.FlatNets.{net_of};
ghost use Rattle.net_values.specs.PlaceSets.{has};
ghost use Rattle.closed_sets.specs.ClosedSets.{IsFed, IsSiphon, IsTrap};
ghost use Rattle.closed_sets.specs.Kinds.{seen_as};

use crate::kind::{Kind, meets};
use net_values::{FlatNet, PlaceSet};

/// Whether each transition with an output place in the set has an input place in it.
pub fn is_siphon(net: &FlatNet, set: &PlaceSet) -> bool
    requires { length set.now ≡ (net_of net.now).places }
    ensures { IsTrue result ↔ IsSiphon (net_of net.now) (has set.now) }
{
    is_closed(Kind::Siphon, net, set)
}

/// Whether each transition with an input place in the set has an output place in it.
pub fn is_trap(net: &FlatNet, set: &PlaceSet) -> bool
    requires { length set.now ≡ (net_of net.now).places }
    ensures { IsTrue result ↔ IsTrap (net_of net.now) (has set.now) }
{
    is_closed(Kind::Trap, net, set)
}

/// Whether each place of the set is fed in it. Only its places are looked at, and the transitions with an output
/// place in it.
fn is_closed(kind: Kind, net: &FlatNet, set: &PlaceSet) -> bool
    requires { length set.now ≡ (net_of net.now).places }
    ensures { IsTrue result ↔ IsSiphon (seen_as kind (net_of net.now)) (has set.now) }
{
    let mut from = 0;
    while from < net.places() {
        let Some(p) = set.first_from(from) else {
            return true;
        };
        if !is_fed(kind, net, set, p) {
            return false;
        }
        from = p + 1;
    }
    true
}

/// Whether each transition that gives to place `p` has an input place in the set.
fn is_fed(kind: Kind, net: &FlatNet, set: &PlaceSet, p: usize) -> bool
    requires size { length set.now ≡ (net_of net.now).places }
    requires place { p < (net_of net.now).places }
    ensures { IsTrue result ↔ IsFed (seen_as kind (net_of net.now)) (has set.now) p }
{
    let givers = kind.givers(net, p);
    for t in givers {
        if !meets(kind.inputs(net, *t), set) {
            return false;
        }
    }
    true
}
