ghost use Rattle.std.specs.Prelude.{◌≡◌, ◌<◌, ◌≤◌, All, MatchBool, length};
ghost use Rattle.net_values.specs.FlatNets.{net_of};
ghost use Rattle.closed_sets.specs.Falling.{Drops, HoldsGuarded, LosesGuarded, Closes, ClosesAll, IsFalling, Settles, HasRoom};
ghost use Rattle.closed_sets.specs.Kinds.{seen_as};

use crate::fallen::Fallen;
use crate::guard::Guard;
use crate::kind::{Kind, meets};
use net_values::{FlatNet, MAX_PLACES, PlaceSet, WeightedPlace};

/// Looks at the transitions that the fallen places were input places of, and at those of the places that
/// fall then, until none is left: the greatest siphon in the set is left. Each place falls once, so no arc is
/// looked at more often than its place and its transition have arcs. Gives up, with `false`, where a guarded
/// place would fall.
pub(crate) fn propagate(
    kind: Kind,
    net: &FlatNet,
    set: &mut PlaceSet,
    fallen: &mut Fallen,
    guard: Guard<'_>,
) -> bool
    requires size { length set.old ≡ (net_of net.now).places }
    requires falling { IsFalling (seen_as kind (net_of net.now)) guard set.old set.old fallen.old }
    ensures size { length set.new ≡ length set.old }
    ensures settled { MatchBool result (Settles (seen_as kind (net_of net.now)) guard.entry set.old set.new)
        (LosesGuarded (seen_as kind (net_of net.now)) guard.entry set.old) }
{
    'fallen: while let Some(p) = fallen.pop() {
        if !close_all(kind, net, set, fallen, kind.takers(net, p), guard) {
            return false;
        }
    }
    true
}

/// Closes the set at each of the transitions.
pub(crate) fn close_all(
    kind: Kind,
    net: &FlatNet,
    set: &mut PlaceSet,
    fallen: &mut Fallen,
    transitions: &[usize],
    guard: Guard<'_>,
) -> bool
    requires size { length set.old ≡ (net_of net.now).places }
    requires transitions { All (λ t. t < (net_of net.now).transitions) transitions.now }
    requires few { (net_of net.now).places ≤ MAX_PLACES }
    requires room { HasRoom set.old fallen.old }
    ensures size { length set.new ≡ length set.old }
    ensures closed { MatchBool result (ClosesAll (seen_as kind (net_of net.now)) guard.entry transitions.now (length transitions.now) set.old set.new fallen.old fallen.new)
        (LosesGuarded (seen_as kind (net_of net.now)) guard.entry set.old) }
{
    for t in transitions {
        if !close(kind, net, set, fallen, *t, guard) {
            return false;
        }
    }
    true
}

/// Takes the output places of transition `t` out of the set where it has no input place in it.
pub(crate) fn close(
    kind: Kind,
    net: &FlatNet,
    set: &mut PlaceSet,
    fallen: &mut Fallen,
    t: usize,
    guard: Guard<'_>,
) -> bool
    requires size { length set.old ≡ (net_of net.now).places }
    requires transition { t < (net_of net.now).transitions }
    requires few { (net_of net.now).places ≤ MAX_PLACES }
    requires room { HasRoom set.old fallen.old }
    ensures size { length set.new ≡ length set.old }
    ensures closed { MatchBool result (Closes (seen_as kind (net_of net.now)) guard.entry t set.old set.new fallen.old fallen.new)
        (LosesGuarded (seen_as kind (net_of net.now)) guard.entry set.old) }
{
    if meets(kind.inputs(net, t), set) {
        return true;
    }
    drop_all(kind.outputs(net, t), set, fallen, guard)
}

/// Takes the places of the entries out of the set, and lists those that were in it.
fn drop_all(
    entries: &[WeightedPlace],
    set: &mut PlaceSet,
    fallen: &mut Fallen,
    guard: Guard<'_>,
) -> bool
    requires places { All (λ entry. entry.place < length set.old) entries.now }
    requires few { length set.old ≤ MAX_PLACES }
    requires room { HasRoom set.old fallen.old }
    ensures size { length set.new ≡ length set.old }
    ensures dropped { MatchBool result (Drops guard.entry entries.now set.old set.new fallen.old fallen.new)
        (HoldsGuarded guard.entry entries.now set.old) }
{
    for entry in entries {
        let p = entry.place;
        if !set.contains(p) {
            continue;
        }
        if guard.holds(p) {
            return false;
        }
        set.remove(p);
        fallen.push(p);
    }
    true
}
