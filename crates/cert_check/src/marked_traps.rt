ghost use Rattle.std.specs.Prelude.{◌≡◌, ℕ, ◌<◌, ◌↔◌, IsTrue, IfErr, MatchBool, OnOk, All, length};
ghost use Rattle.net_values.specs.FlatNets.{net_of};
ghost use Rattle.net_values.specs.PlaceSets.{has};
ghost use Rattle.certificates.specs.Conditions.{BadSiphonHolds, IsAccepted, IsFalseLine, is_listed};
ghost use Rattle.certificates.specs.WellFormed.{ArePlaces};
ghost use Rattle.certificates.specs.declared.certificate.Certificate.{Certificate};
ghost use Rattle.cert_check.specs.Walks.{HasSizes};

use crate::line_checks::Rejected;
use crate::walk::Walk;
use crate::walk_moves::clear;
use certificates::PlaceList;
use closed_sets::{Fallen, has_marked_trap, is_siphon};
use net_values::{FlatNet, PlaceSet};

/// Checks the line of a siphon without a marked trap.
pub fn check_bad_siphon(net: &FlatNet, places: &PlaceList, walk: &mut Walk) -> Result<(), Rejected>
    requires sizes { HasSizes (net_of net.now).places walk.old }
    ensures accepted { OnOk result (IsAccepted (net_of net.now) (Certificate.BadSiphon places.now)) }
    ensures rejected { IfErr result (λ fault. IsFalseLine (net_of net.now) (Certificate.BadSiphon places.now) fault.0) }
    ensures sizes { HasSizes (net_of net.now).places walk.new }
{
    if is_bad_siphon(
        net,
        places.as_slice(),
        &mut walk.contained,
        &mut walk.trap,
        &mut walk.fallen,
    ) {
        Ok(())
    } else {
        Err(Rejected(2))
    }
}

/// Whether the places are of the net, and a siphon that has no marked trap in it. The sets and the list are scratch.
fn is_bad_siphon(
    net: &FlatNet,
    places: &[u32],
    set: &mut PlaceSet,
    trap: &mut PlaceSet,
    fallen: &mut Fallen,
) -> bool
    requires set { length set.old ≡ (net_of net.now).places }
    requires trap { length trap.old ≡ (net_of net.now).places }
    ensures exact { MatchBool result (BadSiphonHolds (net_of net.now) places.now) (BadSiphonHolds (net_of net.now) places.now → ⊥) }
    ensures set { length set.new ≡ length set.old }
    ensures trap { length trap.new ≡ length trap.old }
{
    if !lie_within(net.places(), places) {
        return false;
    }
    list(places, set);
    is_siphon(net, set) && !has_marked_trap(net, set, trap, fallen)
}

/// Whether each of the places is below the number of places.
fn lie_within(count: usize, places: &[u32]) -> bool
    ensures { IsTrue result ↔ All (λ p. p < count) places.now }
{
    places.iter().all(|place| (*place as usize) < count)
}

/// Makes the set that of the listed places.
fn list(places: &[u32], set: &mut PlaceSet)
    requires { All (λ p. p < length set.old) places.now }
    ensures size { length set.new ≡ length set.old }
    ensures listed { (p : ℕ) → has set.new p ≡ is_listed places.now p }
{
    clear(set);
    for place in places {
        set.insert(*place as usize);
    }
}
