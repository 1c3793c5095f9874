ghost use Rattle.std.specs.Prelude.{◌≡◌, ◌<◌, ◌≤◌, ◌↔◌, ℕ, IsTrue, MatchBool, MatchOption, Contains, length};
ghost use Rattle.net_values.specs.FlatNets.{net_of};
ghost use Rattle.net_values.specs.PlaceSets.{has};
ghost use Rattle.closed_sets.specs.ClosedSets.{IsMinimalSiphon, IsNonempty, IsSiphon, HasSiphonWithout};
ghost use Rattle.closed_sets.specs.LoneInputs.{IsLoneInput};
ghost use Rattle.closed_sets.specs.Needed.{AreNeeded, IsNeeded, NeedsMore};
ghost use Rattle.closed_sets.specs.Passes.{members};

use crate::fallen::Fallen;
use crate::greatest::leave_out;
use crate::guard::Guard;
use crate::minimal::has_siphon_without;
use net_values::{FlatNet, PlaceSet};

/// Whether a nonempty siphon has no smaller nonempty siphon in it, which is so where each place of it is needed. The
/// places from which arcs lead to a needed one are mostly needed too, so few are tried one by one. What the scratch sets and
/// the scratch list hold is lost.
pub fn has_no_smaller_siphon(
    net: &FlatNet,
    set: &PlaceSet,
    needed: &mut PlaceSet,
    scratch: &mut PlaceSet,
    fallen: &mut Fallen,
) -> bool
    requires set { length set.now ≡ (net_of net.now).places }
    requires needed { length needed.old ≡ (net_of net.now).places }
    requires scratch { length scratch.old ≡ (net_of net.now).places }
    requires siphon { IsSiphon (net_of net.now) (has set.now) }
    requires some { IsNonempty (net_of net.now) (has set.now) }
    ensures exact { IsTrue result ↔ IsMinimalSiphon (net_of net.now) (has set.now) }
    ensures needed { length needed.new ≡ length needed.old }
    ensures scratch { length scratch.new ≡ length scratch.old }
{
    let Some(lowest) = set.first_from(0) else {
        return false;
    };
    needed.copy_from(set);
    leave_out(net, needed, lowest, fallen, Guard::Nothing);
    if !needed.is_empty() {
        return false;
    }
    need(net, set, lowest, needed, fallen);
    are_needed(net, set, needed, scratch, fallen)
}

/// Whether each place of a nonempty siphon is needed, where each that is marked is.
fn are_needed(
    net: &FlatNet,
    set: &PlaceSet,
    needed: &mut PlaceSet,
    scratch: &mut PlaceSet,
    fallen: &mut Fallen,
) -> bool
    requires set { length set.now ≡ (net_of net.now).places }
    requires needed { length needed.old ≡ (net_of net.now).places }
    requires scratch { length scratch.old ≡ (net_of net.now).places }
    requires siphon { IsSiphon (net_of net.now) (has set.now) }
    requires some { IsNonempty (net_of net.now) (has set.now) }
    requires marked { AreNeeded (net_of net.now) set.now needed.old }
    ensures exact { IsTrue result ↔ IsMinimalSiphon (net_of net.now) (has set.now) }
    ensures needed { length needed.new ≡ length needed.old }
    ensures scratch { length scratch.new ≡ length scratch.old }
{
    let mut from = 0;
    while from < net.places() {
        let Some(p) = set.first_from(from) else {
            return true;
        };
        if !is_needed(net, set, p, needed, scratch, fallen) {
            return false;
        }
        from = p + 1;
    }
    true
}

/// Whether place `p` of a siphon is needed. If so, it is marked, and more with it.
fn is_needed(
    net: &FlatNet,
    set: &PlaceSet,
    p: usize,
    needed: &mut PlaceSet,
    scratch: &mut PlaceSet,
    fallen: &mut Fallen,
) -> bool
    requires set { length set.now ≡ (net_of net.now).places }
    requires needed { length needed.old ≡ (net_of net.now).places }
    requires scratch { length scratch.old ≡ (net_of net.now).places }
    requires siphon { IsSiphon (net_of net.now) (has set.now) }
    requires member { IsTrue (has set.now p) }
    requires marked { AreNeeded (net_of net.now) set.now needed.old }
    ensures exact { MatchBool result (IsNeeded (net_of net.now) set.now p) (HasSiphonWithout (net_of net.now) (has set.now) p) }
    ensures needed { length needed.new ≡ length needed.old }
    ensures scratch { length scratch.new ≡ length scratch.old }
    ensures marked { AreNeeded (net_of net.now) set.now needed.new }
{
    if needed.contains(p) {
        return true;
    }
    if has_siphon_without(net, set, p, scratch, fallen, Guard::Members(needed)) {
        return false;
    }
    need(net, set, p, needed, fallen);
    true
}

/// Marks place `p`, which is needed, and with it each place that is for a transition that gives to a marked one the
/// only input place in the set.
fn need(net: &FlatNet, set: &PlaceSet, p: usize, needed: &mut PlaceSet, fallen: &mut Fallen)
    requires set { length set.now ≡ (net_of net.now).places }
    requires needed { length needed.old ≡ (net_of net.now).places }
    requires place { IsNeeded (net_of net.now) set.now p }
    requires marked { AreNeeded (net_of net.now) set.now needed.old }
    ensures needed { length needed.new ≡ length needed.old }
    ensures marked { AreNeeded (net_of net.now) set.now needed.new }
    ensures place { IsTrue (has needed.new p) }
{
    fallen.clear();
    mark(net, set, p, needed, fallen);
    'listed: while let Some(q) = fallen.pop() {
        need_inputs(net, set, q, needed, fallen);
    }
}

/// Marks and lists each place that is for a transition that gives to place `p`, which is needed, the only input place
/// in the set.
fn need_inputs(net: &FlatNet, set: &PlaceSet, p: usize, needed: &mut PlaceSet, fallen: &mut Fallen)
    requires set { length set.now ≡ (net_of net.now).places }
    requires needed { length needed.old ≡ (net_of net.now).places }
    requires place { IsNeeded (net_of net.now) set.now p }
    requires marked { AreNeeded (net_of net.now) set.now needed.old }
    requires listed { (q : ℕ) → Contains fallen.old q → IsNeeded (net_of net.now) set.now q }
    requires few { length fallen.old ≤ members needed.old }
    ensures more { NeedsMore (net_of net.now) set.now needed.old needed.new fallen.old fallen.new }
    ensures each { (t q : ℕ) → 0 < (net_of net.now).post p t → IsLoneInput (net_of net.now) set.now t q → IsTrue (has needed.new q) }
{
    let givers = net.givers(p);
    for t in givers {
        if let Some(q) = lone_input(net, set, *t) {
            mark(net, set, q, needed, fallen);
        }
    }
}

/// Marks and lists a place that is needed, unless it is marked.
fn mark(net: &FlatNet, set: &PlaceSet, p: usize, needed: &mut PlaceSet, fallen: &mut Fallen)
    requires set { length set.now ≡ (net_of net.now).places }
    requires needed { length needed.old ≡ (net_of net.now).places }
    requires place { IsNeeded (net_of net.now) set.now p }
    requires marked { AreNeeded (net_of net.now) set.now needed.old }
    requires listed { (q : ℕ) → Contains fallen.old q → IsNeeded (net_of net.now) set.now q }
    requires few { length fallen.old ≤ members needed.old }
    ensures more { NeedsMore (net_of net.now) set.now needed.old needed.new fallen.old fallen.new }
    ensures place { IsTrue (has needed.new p) }
{
    if p >= net.places() || needed.contains(p) {
        return;
    }
    needed.insert(p);
    fallen.push(p);
}

/// The only input place that transition `t` has in the set, where it has one and no other.
pub fn lone_input(net: &FlatNet, set: &PlaceSet, t: usize) -> Option<usize>
    requires set { length set.now ≡ (net_of net.now).places }
    requires transition { t < (net_of net.now).transitions }
    ensures { MatchOption result ((p : ℕ) → IsLoneInput (net_of net.now) set.now t p → ⊥) (IsLoneInput (net_of net.now) set.now t) }
{
    let mut lone = None;
    let inputs = net.inputs(t);
    for entry in inputs {
        if set.contains(entry.place) {
            if lone.is_some() {
                return None;
            }
            lone = Some(entry.place);
        }
    }
    lone
}
