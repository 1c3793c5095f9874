ghost use Rattle.std.specs.Prelude.{◌≡◌, ◌≤◌, ◌↔◌, All, IsTrue, MatchBool, None, is_some, length};
ghost use Rattle.net_values.specs.FlatNets.{net_of};
ghost use Rattle.net_class.specs.Classes.{OneTransitionEach};
ghost use Rattle.net_class.specs.Owners.{AreOwners, HasTwoTransitions};
ghost use Rattle.net_class.specs.Neighbours.{weights_of};

use crate::neighbours::Neighbours;
use crate::owners::{first_owner, own};
use net_values::{FlatNet, MAX_PLACES};

/// Whether each place is joined to exactly one transition by these arcs.
pub(crate) fn have_one_transition(neighbours: Neighbours, net: &FlatNet) -> bool
    ensures { IsTrue result ↔ OneTransitionEach (net_of net.now) (weights_of neighbours (net_of net.now)) }
{
    let mut room = [None; MAX_PLACES];
    let owners = &mut room[..net.places()];
    own_all(neighbours, net, owners) && are_owned(owners)
}

/// Makes each transition the owner of these neighbours. Gives up where a place has a second one.
fn own_all(neighbours: Neighbours, net: &FlatNet, owners: &mut [Option<usize>]) -> bool
    requires size { length owners.old ≡ (net_of net.now).places }
    requires none { All (λ owner. owner ≡ None) owners.old }
    ensures size { length owners.new ≡ (net_of net.now).places }
    ensures owners { let net = net_of net.now in let weights = weights_of neighbours net in
        MatchBool result (AreOwners net weights (λ t u. t ≡ u) net.transitions owners.new)
        (HasTwoTransitions net weights) }
{
    for t in 0..net.transitions() {
        let entries = neighbours.arcs(net, t);
        if first_owner(entries, owners).is_some() {
            return false;
        }
        own(entries, t, owners);
    }
    true
}

/// Whether each place has an owner.
fn are_owned(owners: &[Option<usize>]) -> bool
    ensures { IsTrue result ↔ All (λ owner. IsTrue (is_some owner)) owners.now }
{
    owners.iter().all(|owner| owner.is_some())
}
