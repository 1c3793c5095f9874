ghost use Rattle.std.specs.Prelude.{◌≡◌, ℕ, ◌≤◌, ◌↔◌, All, IsTrue};
ghost use Rattle.net_values.specs.FlatNets.{net_of};
ghost use Rattle.net_class.specs.Classes.{OnePlaceEach};
ghost use Rattle.net_class.specs.Neighbours.{UnitWeights, weights_of};

use crate::neighbours::Neighbours;
use net_values::{FlatNet, WeightedPlace};

/// Whether every arc to or from these neighbours has the weight 1.
pub(crate) fn have_unit_weights(neighbours: Neighbours, net: &FlatNet) -> bool
    ensures { IsTrue result ↔ UnitWeights (net_of net.now) (weights_of neighbours (net_of net.now)) }
{
    for t in 0..net.transitions() {
        if !are_units(neighbours.arcs(net, t)) {
            return false;
        }
    }
    true
}

/// Whether each entry has the weight 1.
fn are_units(entries: &[WeightedPlace]) -> bool
    ensures { IsTrue result ↔ All (λ entry. entry.weight ≤ 1) entries.now }
{
    entries.iter().all(|entry| entry.weight <= 1)
}

/// Whether each transition has exactly one such neighbour.
pub(crate) fn have_one_place(neighbours: Neighbours, net: &FlatNet) -> bool
    ensures { IsTrue result ↔ OnePlaceEach (net_of net.now) (weights_of neighbours (net_of net.now)) }
{
    for t in 0..net.transitions() {
        if neighbours.arcs(net, t).len() != 1 {
            return false;
        }
    }
    true
}
