ghost use Rattle.std.specs.Prelude.{◌≡◌, ℕ, ◌<◌, ◌↔◌, IsTrue, MatchBool, All, length, slice_index};
ghost use Rattle.net_values.specs.FlatNets.{net_of};
ghost use Rattle.certificates.specs.Conditions.{FlowHolds, vector_of};
ghost use Rattle.certificates.specs.WellFormed.{IsFlow, IsNumberFrom};
ghost use Rattle.cert_check.specs.Flows.{IsBalanced, IsBalancedAt, LiesWithin};

use incidence::{initial_tokens, net_sums};
use net_values::{FlatNet, Vector};

/// Whether the condition of a flow holds. The vector is scratch.
pub fn flow_holds(net: &FlatNet, flow: &[(u32, i128)], y: &mut Vector) -> bool
    requires flow { IsFlow flow.now }
    requires size { length y.old ≡ (net_of net.now).places }
    ensures exact { MatchBool result (FlowHolds (net_of net.now) flow.now) (FlowHolds (net_of net.now) flow.now → ⊥) }
    ensures size { length y.new ≡ length y.old }
{
    if !lies_within(net.places(), flow) {
        return false;
    }
    load(flow, y);
    is_balanced(net, y) && initial_tokens(net, y).is_ok()
}

/// Whether each place of the flow is below the number of places.
fn lies_within(places: usize, flow: &[(u32, i128)]) -> bool
    ensures { IsTrue result ↔ LiesWithin places flow.now }
{
    flow.iter().all(|term| (term.0 as usize) < places)
}

/// Makes the vector that of the flow.
pub fn load(flow: &[(u32, i128)], y: &mut Vector)
    requires within { LiesWithin (length y.old) flow.now }
    requires coefficients { All (λ term. IsNumberFrom 1 term.1) flow.now }
    ensures size { length y.new ≡ length y.old }
    ensures vector { (p : ℕ) → slice_index y.new p ≡ vector_of flow.now p }
{
    clear(y);
    let count = flow.len();
    for k in 0..count {
        let (place, coefficient) = flow[count - 1 - k];
        y.set(place as usize, coefficient);
    }
}

/// Makes every entry 0.
fn clear(y: &mut Vector)
    ensures size { length y.new ≡ length y.old }
    ensures zeros { (p : ℕ) → slice_index y.new p ≡ 0 }
{
    for p in 0..y.len() {
        y.set(p, 0);
    }
}

/// Whether at each transition the vector gains what it loses, in sums of at most 2^127 - 1.
fn is_balanced(net: &FlatNet, y: &Vector) -> bool
    requires { length y.now ≡ (net_of net.now).places }
    ensures { MatchBool result (IsBalanced (net_of net.now) (slice_index y.now)) (IsBalanced (net_of net.now) (slice_index y.now) → ⊥) }
{
    for t in 0..net.transitions() {
        if !is_balanced_at(net, y, t) {
            return false;
        }
    }
    true
}

/// Whether at a transition the vector gains what it loses, in sums of at most 2^127 - 1.
fn is_balanced_at(net: &FlatNet, y: &Vector, t: usize) -> bool
    requires size { length y.now ≡ (net_of net.now).places }
    requires transition { t < (net_of net.now).transitions }
    ensures { MatchBool result (IsBalancedAt (net_of net.now) (slice_index y.now) t) (IsBalancedAt (net_of net.now) (slice_index y.now) t → ⊥) }
{
    match net_sums(net, y, t) {
        Ok((gain, loss)) => gain == loss,
        Err(_) => false,
    }
}
