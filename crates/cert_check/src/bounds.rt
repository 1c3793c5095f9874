ghost use Rattle.std.specs.Prelude.{◌≡◌, ℕ, ◌+◌, ◌/◌, ◌<◌, ◌≤◌, ◌^◌, IfErr, MatchBool, OnOk, All, length, slice_index};
ghost use Rattle.net_values.specs.FlatNets.{net_of};
ghost use Rattle.incidence.specs.Invariance.{weighted_tokens};
ghost use Rattle.certificates.specs.Conditions.{ClaimHolds, FlowHolds, IsAccepted, IsFalseLine};
ghost use Rattle.certificates.specs.WellFormed.{AreClaims, IsFlow, IsNumberFrom};
ghost use Rattle.certificates.specs.declared.certificate.Certificate.{Certificate};
ghost use Rattle.cert_check.specs.Flows.{BoundsPlace, FailsFirst, IsClaim};

use crate::flows::{flow_holds, load};
use crate::line_checks::Rejected;
use certificates::{BoundLines, Claim, Flow};
use incidence::initial_tokens;
use net_values::{FlatNet, Vector};

/// Checks the lines of bounds: each flow, then each claim by its flow. The vector is scratch.
pub fn check_bounds(net: &FlatNet, lines: &BoundLines, y: &mut Vector) -> Result<(), Rejected>
    requires flows { All IsFlow lines.now.flows }
    requires claims { AreClaims lines.now.claims }
    requires size { length y.old ≡ (net_of net.now).places }
    ensures accepted { OnOk result (IsAccepted (net_of net.now) (Certificate.Bounds lines.now)) }
    ensures rejected { IfErr result (λ fault. IsFalseLine (net_of net.now) (Certificate.Bounds lines.now) fault.0) }
    ensures size { length y.new ≡ length y.old }
{
    let flows = lines.flows.as_slice();
    match check_flows(net, flows, y) {
        Ok(()) => check_claims(net, flows, lines.claims.as_slice(), y),
        Err(rejected) => Err(rejected),
    }
}

/// Checks the flows. Their first line is line 2.
fn check_flows(net: &FlatNet, flows: &[Flow], y: &mut Vector) -> Result<(), Rejected>
    requires flows { All IsFlow flows.now }
    requires size { length y.old ≡ (net_of net.now).places }
    ensures all { OnOk result (All (FlowHolds (net_of net.now)) flows.now) }
    ensures first { IfErr result (λ fault. FailsFirst (FlowHolds (net_of net.now)) flows.now 2 fault.0) }
    ensures size { length y.new ≡ length y.old }
{
    for k in 0..flows.len() {
        if !flow_holds(net, flows[k].as_slice(), y) {
            return Err(Rejected(k as u64 + 2));
        }
    }
    Ok(())
}

/// Checks the claims by the flows, which hold. Their first line is the one after those of the flows.
fn check_claims(
    net: &FlatNet,
    flows: &[Flow],
    claims: &[Claim],
    y: &mut Vector,
) -> Result<(), Rejected>
    requires flows { All IsFlow flows.now }
    requires held { All (FlowHolds (net_of net.now)) flows.now }
    requires claims { All IsClaim claims.now }
    requires size { length y.old ≡ (net_of net.now).places }
    ensures all { OnOk result (All (ClaimHolds (net_of net.now) flows.now) claims.now) }
    ensures first { IfErr result (λ fault. FailsFirst (ClaimHolds (net_of net.now) flows.now) claims.now (length flows.now + 2) fault.0) }
    ensures size { length y.new ≡ length y.old }
{
    for k in 0..claims.len() {
        if !claim_holds(net, flows, claims[k], y) {
            return Err(Rejected(flows.len() as u64 + k as u64 + 2));
        }
    }
    Ok(())
}

/// Whether the condition of a claim holds, by the flows, which do.
fn claim_holds(net: &FlatNet, flows: &[Flow], claim: Claim, y: &mut Vector) -> bool
    requires flows { All IsFlow flows.now }
    requires held { All (FlowHolds (net_of net.now)) flows.now }
    requires claim { IsClaim claim }
    requires size { length y.old ≡ (net_of net.now).places }
    ensures exact { MatchBool result (ClaimHolds (net_of net.now) flows.now claim) (ClaimHolds (net_of net.now) flows.now claim → ⊥) }
    ensures size { length y.new ≡ length y.old }
{
    let place = claim.place as usize;
    let number = claim.flow as usize;
    if place >= net.places() || number > flows.len() {
        return false;
    }
    load(flows[number - 1].as_slice(), y);
    bounds_place(net, y, place, claim.bound)
}

/// Whether the vector is positive at a place, and the bound no less than its weighted tokens by what it has there.
fn bounds_place(net: &FlatNet, y: &Vector, place: usize, bound: i128) -> bool
    requires size { length y.now ≡ (net_of net.now).places }
    requires place { place < (net_of net.now).places }
    requires bound { IsNumberFrom 0 bound }
    requires narrow { weighted_tokens (net_of net.now) (slice_index y.now) (net_of net.now).initial < 2 ^ 127 }
    ensures { MatchBool result (BoundsPlace (net_of net.now) (slice_index y.now) place bound)
        (BoundsPlace (net_of net.now) (slice_index y.now) place bound → ⊥) }
{
    let coefficient = y.entry_at(place);
    match initial_tokens(net, y) {
        Ok(tokens) => coefficient > 0 && tokens / coefficient <= bound.unsigned_abs(),
        Err(_) => false,
    }
}
