ghost use Rattle.std.specs.Prelude.{◌≡◌, ◌<◌, ◌&&◌, ◌||◌, length, nat_lt, not, slice_set, true, ℕ};
ghost use Rattle.net_values.specs.FlatNets.{net_of};
ghost use Rattle.net_values.specs.PlaceSets.{has};
ghost use Rattle.closed_sets.specs.ClosedSets.{has_input_in};
ghost use Rattle.closed_sets.specs.Opens.{AreOpen};

use crate::kind::{Kind, meets};
use crate::leaving::put;
use net_values::{FlatNet, PlaceSet};

/// Finds the open transitions of a set of places: those with an output place in it and no input place in it.
/// Their set has the number of transitions as size.
pub fn find_open(net: &FlatNet, set: &PlaceSet, opens: &mut PlaceSet)
    requires set { length set.now ≡ (net_of net.now).places }
    requires open { length opens.old ≡ (net_of net.now).transitions }
    ensures { AreOpen (net_of net.now) set.now opens.new }
{
    for t in 0..net.transitions() {
        put(opens, t, Kind::Siphon.is_open(net, set, t));
    }
}

/// Puts place `p` into a set of places, and keeps the set of its open transitions. Only the transitions that
/// an arc joins to the place are looked at.
pub fn add_place(net: &FlatNet, set: &mut PlaceSet, opens: &mut PlaceSet, p: usize)
    requires size { length set.old ≡ (net_of net.now).places }
    requires place { p < (net_of net.now).places }
    requires open { AreOpen (net_of net.now) set.old opens.old }
    ensures set { set.new ≡ slice_set set.old p true }
    ensures open { AreOpen (net_of net.now) set.new opens.new }
{
    set.insert(p);
    open_givers(net, set, opens, p);
    close_takers(net, opens, p);
}

/// Opens each transition that gives to place `p` and has no input place in the set.
fn open_givers(net: &FlatNet, set: &PlaceSet, opens: &mut PlaceSet, p: usize)
    requires set { length set.now ≡ (net_of net.now).places }
    requires open { length opens.old ≡ (net_of net.now).transitions }
    requires place { p < (net_of net.now).places }
    ensures size { length opens.new ≡ length opens.old }
    ensures opened { (t : ℕ) → has opens.new t ≡ (has opens.old t ||
        (nat_lt 0 ((net_of net.now).post p t) && not (has_input_in (net_of net.now) (has set.now) t))) }
{
    let givers = net.givers(p);
    for t in givers {
        if !meets(net.inputs(*t), set) {
            opens.insert(*t);
        }
    }
}

/// Closes each transition that takes from place `p`.
fn close_takers(net: &FlatNet, opens: &mut PlaceSet, p: usize)
    requires open { length opens.old ≡ (net_of net.now).transitions }
    requires place { p < (net_of net.now).places }
    ensures size { length opens.new ≡ length opens.old }
    ensures closed { (t : ℕ) → has opens.new t ≡ (has opens.old t && not (nat_lt 0 ((net_of net.now).pre p t))) }
{
    let takers = net.takers(p);
    for t in takers {
        opens.remove(*t);
    }
}
