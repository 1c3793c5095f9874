ghost use Rattle.std.specs.Prelude.{◌≡◌, [], MatchBool, false, length, slice_set};
ghost use Rattle.net_values.specs.FlatNets.{net_of};
ghost use Rattle.net_values.specs.PlaceSets.{has};
ghost use Rattle.closed_sets.specs.ClosedSets.{IsGreatestSiphon, IsGreatestTrap, IsSiphon};
ghost use Rattle.closed_sets.specs.Falling.{IsFalling, Settles, LosesGuarded};
ghost use Rattle.closed_sets.specs.Kept.{KeepsWithout, LosesWithout};
ghost use Rattle.closed_sets.specs.Kinds.{seen_as};
ghost use Rattle.closed_sets.specs.declared.guard.Guard.TheVariants.{Nothing};

use crate::fallen::Fallen;
use crate::guard::Guard;
use crate::kind::Kind;
use crate::propagate::{close_all, propagate};
use net_values::{FlatNet, PlaceSet};

/// Leaves the greatest siphon in the set: the siphon in it that contains every siphon in it.
pub fn greatest_siphon(net: &FlatNet, set: &mut PlaceSet)
    requires { length set.old ≡ (net_of net.now).places }
    ensures size { length set.new ≡ length set.old }
    ensures greatest { IsGreatestSiphon (net_of net.now) (has set.old) (has set.new) }
{
    greatest(Kind::Siphon, net, set, &mut Fallen::none());
}

/// Leaves the greatest trap in the set: the trap in it that contains every trap in it.
pub fn greatest_trap(net: &FlatNet, set: &mut PlaceSet)
    requires { length set.old ≡ (net_of net.now).places }
    ensures size { length set.new ≡ length set.old }
    ensures greatest { IsGreatestTrap (net_of net.now) (has set.old) (has set.new) }
{
    greatest(Kind::Trap, net, set, &mut Fallen::none());
}

/// Takes place `p` out of a siphon, and leaves the greatest siphon in the rest where that has every place of
/// the other set that is left. Else it tells `false` as soon as one of them has fallen, and what the set holds
/// then is lost. Only the transitions that the places that fall were input places of are looked at. What the scratch
/// list holds is lost.
pub fn keeps_without(
    net: &FlatNet,
    set: &mut PlaceSet,
    p: usize,
    kept: &PlaceSet,
    fallen: &mut Fallen,
) -> bool
    requires size { length set.old ≡ (net_of net.now).places }
    requires siphon { IsSiphon (net_of net.now) (has set.old) }
    ensures size { length set.new ≡ length set.old }
    ensures left { MatchBool result (KeepsWithout (net_of net.now) kept.now p set.old set.new)
        (LosesWithout (net_of net.now) kept.now p set.old) }
{
    leave_out(net, set, p, fallen, Guard::Members(kept))
}

/// Takes place `p` out of a siphon, and leaves the greatest siphon in the rest. Gives up, with `false`, where
/// a guarded place would fall.
pub(crate) fn leave_out(
    net: &FlatNet,
    set: &mut PlaceSet,
    p: usize,
    fallen: &mut Fallen,
    guard: Guard<'_>,
) -> bool
    requires size { length set.old ≡ (net_of net.now).places }
    requires siphon { IsSiphon (net_of net.now) (has set.old) }
    ensures size { length set.new ≡ length set.old }
    ensures left { MatchBool result (Settles (net_of net.now) guard.entry (slice_set set.old p false) set.new)
        (LosesGuarded (net_of net.now) guard.entry (slice_set set.old p false)) }
{
    if p >= net.places() || !set.contains(p) {
        return true;
    }
    set.remove(p);
    fallen.clear();
    fallen.push(p);
    propagate(Kind::Siphon, net, set, fallen, guard)
}

/// Leaves the greatest siphon of the net as it is seen. What the scratch list holds is lost.
pub(crate) fn greatest(kind: Kind, net: &FlatNet, set: &mut PlaceSet, fallen: &mut Fallen)
    requires { length set.old ≡ (net_of net.now).places }
    ensures size { length set.new ≡ length set.old }
    ensures greatest { IsGreatestSiphon (seen_as kind (net_of net.now)) (has set.old) (has set.new) }
{
    fallen.clear();
    look(kind, net, set, fallen);
    propagate(kind, net, set, fallen, Guard::Nothing);
}

/// Closes the set at each transition that has an output place in it.
fn look(kind: Kind, net: &FlatNet, set: &mut PlaceSet, fallen: &mut Fallen)
    requires size { length set.old ≡ (net_of net.now).places }
    requires none { fallen.old ≡ [] }
    ensures { IsFalling (seen_as kind (net_of net.now)) Nothing set.old set.new fallen.new }
{
    let mut from = 0;
    while from < net.places() {
        let Some(p) = set.first_from(from) else {
            return;
        };
        close_all(kind, net, set, fallen, kind.givers(net, p), Guard::Nothing);
        from = p + 1;
    }
}
