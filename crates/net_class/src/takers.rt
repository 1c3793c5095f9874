ghost use Rattle.std.specs.Prelude.{◌≡◌, ◌+◌, ◌<◌, ◌≤◌, ◌↔◌, All, IsTrue, MatchBool, None, length};
ghost use Rattle.net_values.specs.FlatNets.{net_of};
ghost use Rattle.closed_sets.specs.Commoner.{IsOrdinary};
ghost use Rattle.net_class.specs.Classes.{IsFreeChoice, HaveSameInputs};
ghost use Rattle.net_class.specs.Owners.{AreOwners, HasUnlike};
ghost use Rattle.net_class.specs.Neighbours.{TakesWithin};

use crate::neighbours::Neighbours;
use crate::owners::{first_owner, own};
use net_values::{FlatNet, MAX_PLACES};

/// Whether an ordinary net is free-choice.
pub(crate) fn choices_are_free(net: &FlatNet) -> bool
    requires { IsOrdinary (net_of net.now) }
    ensures { IsTrue result ↔ IsFreeChoice (net_of net.now) }
{
    let mut room = [None; MAX_PLACES];
    join_all(net, &mut room[..net.places()])
}

/// Joins each transition to the owners of its input places. Gives up where they aren't alike.
fn join_all(net: &FlatNet, owners: &mut [Option<usize>]) -> bool
    requires size { length owners.old ≡ (net_of net.now).places }
    requires none { All (λ owner. owner ≡ None) owners.old }
    ensures { let net = net_of net.now in
        MatchBool result (AreOwners net net.pre (HaveSameInputs net) net.transitions owners.new)
        (HasUnlike net) }
{
    for t in 0..net.transitions() {
        if !join(net, t, owners) {
            return false;
        }
    }
    true
}

/// Compares transition `t` with the owner of an input place, or else makes it the owner of its input places.
fn join(net: &FlatNet, t: usize, owners: &mut [Option<usize>]) -> bool
    requires size { length owners.old ≡ (net_of net.now).places }
    requires transition { t < (net_of net.now).transitions }
    requires owners { let net = net_of net.now in AreOwners net net.pre (HaveSameInputs net) t owners.old }
    ensures { let net = net_of net.now in
        MatchBool result (AreOwners net net.pre (HaveSameInputs net) (t + 1) owners.new)
        (HasUnlike net) }
{
    let inputs = Neighbours::Inputs.arcs(net, t);
    match first_owner(inputs, owners) {
        Some(owner) => have_same_inputs(net, t, owner),
        None => {
            own(inputs, t, owners);
            true
        }
    }
}

/// Whether two transitions have the same input places.
fn have_same_inputs(net: &FlatNet, t: usize, u: usize) -> bool
    requires first { t < (net_of net.now).transitions }
    requires second { u < (net_of net.now).transitions }
    ensures { IsTrue result ↔ HaveSameInputs (net_of net.now) t u }
{
    takes_within(net, t, u) && takes_within(net, u, t)
}

/// Whether each input place of transition `t` is one of transition `u`.
fn takes_within(net: &FlatNet, t: usize, u: usize) -> bool
    requires first { t < (net_of net.now).transitions }
    requires second { u < (net_of net.now).transitions }
    ensures { IsTrue result ↔ TakesWithin (net_of net.now) t u }
{
    let entries = Neighbours::Inputs.arcs(net, t);
    for entry in entries {
        if net.pre(entry.place, u) == 0 {
            return false;
        }
    }
    true
}
