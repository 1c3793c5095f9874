ghost use Rattle.std.specs.Prelude.{◌≡◌, ℕ, ◌<◌, ◌↔◌, IsTrue, length};
ghost use Rattle.net_values.specs.FlatNets.{net_of};
ghost use Rattle.net_values.specs.PlaceSets.{has};
ghost use Rattle.closed_sets.specs.ClosedSets.{IsMinimalSiphon, IsNonempty, IsSiphon, HasSiphonWithout};
ghost use Rattle.closed_sets.specs.Guards.{guards};

use crate::closed::is_siphon;
use crate::fallen::Fallen;
use crate::greatest::leave_out;
use crate::guard::Guard;
use net_values::{FlatNet, PlaceSet};

/// Whether the set is a nonempty siphon that has no smaller nonempty siphon in it. What the scratch set
/// holds is lost.
pub fn is_minimal_siphon(net: &FlatNet, set: &PlaceSet, scratch: &mut PlaceSet) -> bool
    requires set { length set.now ≡ (net_of net.now).places }
    requires scratch { length scratch.old ≡ (net_of net.now).places }
    ensures exact { IsTrue result ↔ IsMinimalSiphon (net_of net.now) (has set.now) }
    ensures size { length scratch.new ≡ length scratch.old }
{
    if set.is_empty() || !is_siphon(net, set) {
        return false;
    }
    needs_each(net, set, scratch, &mut Fallen::none())
}

/// Whether no nonempty siphon in a nonempty siphon lacks a place of it: they are tried in ascending order.
fn needs_each(net: &FlatNet, set: &PlaceSet, scratch: &mut PlaceSet, fallen: &mut Fallen) -> bool
    requires set { length set.now ≡ (net_of net.now).places }
    requires scratch { length scratch.old ≡ (net_of net.now).places }
    requires siphon { IsSiphon (net_of net.now) (has set.now) }
    requires some { IsNonempty (net_of net.now) (has set.now) }
    ensures exact { IsTrue result ↔ IsMinimalSiphon (net_of net.now) (has set.now) }
    ensures size { length scratch.new ≡ length scratch.old }
{
    let mut from = 0;
    while from < set.size() {
        let Some(p) = set.first_from(from) else {
            return true;
        };
        if has_siphon_without(net, set, p, scratch, fallen, Guard::Below(p)) {
            return false;
        }
        from = p + 1;
    }
    true
}

/// Whether a nonempty siphon in the siphon lacks place `p`, where none lacks a guarded place of it. So none does as soon
/// as a guarded place falls.
pub(crate) fn has_siphon_without(
    net: &FlatNet,
    set: &PlaceSet,
    p: usize,
    scratch: &mut PlaceSet,
    fallen: &mut Fallen,
    guard: Guard<'_>,
) -> bool
    requires set { length set.now ≡ (net_of net.now).places }
    requires scratch { length scratch.old ≡ (net_of net.now).places }
    requires place { p < (net_of net.now).places }
    requires siphon { IsSiphon (net_of net.now) (has set.now) }
    requires guarded { (q : ℕ) → IsTrue (guards guard q) → IsTrue (has set.now q) → HasSiphonWithout (net_of net.now) (has set.now) q → ⊥ }
    ensures exact { IsTrue result ↔ HasSiphonWithout (net_of net.now) (has set.now) p }
    ensures size { length scratch.new ≡ length scratch.old }
{
    scratch.copy_from(set);
    leave_out(net, scratch, p, fallen, guard) && !scratch.is_empty()
}
