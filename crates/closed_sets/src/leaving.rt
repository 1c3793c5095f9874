ghost use Rattle.std.specs.Prelude.{◌≡◌, ◌<◌, ◌≤◌, ◌&&◌, All, length, nat_lt, slice_set};
ghost use Rattle.net_values.specs.FlatNets.{net_of};
ghost use Rattle.net_values.specs.PlaceSets.{has};
ghost use Rattle.net_values.specs.declared.limits.TheConstants.{MAX_TRANSITIONS};
ghost use Rattle.closed_sets.specs.Growth.{is_leaving};
ghost use Rattle.closed_sets.specs.Leavers.{AreSetRight};
ghost use Rattle.closed_sets.specs.Opens.{AreLeaving};

use crate::kind::Kind;
use net_values::{FlatNet, MAX_TRANSITIONS, PlaceSet};

/// Finds the transitions that have an input place in a set of places and no output place. Their set has room for as many
/// as a net can have.
pub fn find_leaving(net: &FlatNet, set: &PlaceSet, leaving: &mut PlaceSet)
    requires size { length set.now ≡ (net_of net.now).places }
    requires room { length leaving.old ≡ MAX_TRANSITIONS }
    ensures size { length leaving.new ≡ length leaving.old }
    ensures leaving { AreLeaving (net_of net.now) set.now leaving.new }
{
    for t in 0..leaving.size() {
        put(leaving, t, leaves(net, set, t));
    }
}

/// Whether `t` is a transition with an input place in the set and no output place.
fn leaves(net: &FlatNet, set: &PlaceSet, t: usize) -> bool
    requires { length set.now ≡ (net_of net.now).places }
    ensures leaves { result ≡ (nat_lt t (net_of net.now).transitions && is_leaving (net_of net.now) (has set.now) t) }
    ensures few { (net_of net.now).transitions ≤ MAX_TRANSITIONS }
{
    t < net.transitions() && Kind::Trap.is_open(net, set, t)
}

/// Puts place `p` into a set of places, or takes it out where `member` is false, and keeps the set of the transitions
/// that have an input place in it and no output place. Only the transitions that an arc joins to the place are looked
/// at.
pub fn put_place(net: &FlatNet, set: &mut PlaceSet, leaving: &mut PlaceSet, p: usize, member: bool)
    requires size { length set.old ≡ (net_of net.now).places }
    requires place { p < (net_of net.now).places }
    requires leaving { AreLeaving (net_of net.now) set.old leaving.old }
    ensures set { set.new ≡ slice_set set.old p member }
    ensures size { length leaving.new ≡ length leaving.old }
    ensures leaving { AreLeaving (net_of net.now) set.new leaving.new }
{
    put(set, p, member);
    set_right(net, set, leaving, net.takers(p));
    set_right(net, set, leaving, net.givers(p));
}

/// Puts each of the transitions into the set where it has an input place in the set of places and no output place, and
/// takes it out where that isn't so.
fn set_right(net: &FlatNet, set: &PlaceSet, leaving: &mut PlaceSet, transitions: &[usize])
    requires size { length set.now ≡ (net_of net.now).places }
    requires room { (net_of net.now).transitions ≤ length leaving.old }
    requires transitions { All (λ t. t < (net_of net.now).transitions) transitions.now }
    ensures size { length leaving.new ≡ length leaving.old }
    ensures right { AreSetRight (net_of net.now) transitions.now set.now leaving.old leaving.new }
{
    for t in transitions {
        put(leaving, *t, Kind::Trap.is_open(net, set, *t));
    }
}

/// Puts number `k` into the set, or takes it out where `member` is false.
pub(crate) fn put(set: &mut PlaceSet, k: usize, member: bool)
    requires { k < length set.old }
    ensures { set.new ≡ slice_set set.old k member }
{
    if member {
        set.insert(k);
    } else {
        set.remove(k);
    }
}
