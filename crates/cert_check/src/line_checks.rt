ghost use Rattle.std.specs.Prelude.{◌≡◌, IfErr, OnOk, length};
ghost use Rattle.net_values.specs.FlatNets.{net_of};
ghost use Rattle.certificates.specs.Claims.{HasTrueClaim, ExcludesDead};
ghost use Rattle.certificates.specs.Conditions.{IsAccepted, IsFalseLine};
ghost use Rattle.certificates.specs.WellFormed.{IsWellFormed, ArePlaces};
ghost use Rattle.certificates.specs.declared.certificate.Certificate.{Certificate};

use crate::bounds::check_bounds;
use crate::marked_traps::check_bad_siphon;
use crate::scratch::Scratch;
use crate::tree::check_tree;
use certificates::Certificate;
use net_values::FlatNet;

/// The number of the first line of a certificate whose condition is false of the net. Lines are counted from 1.
#[derive(Clone, Copy, Debug, PartialEq, Eq)]
pub struct Rejected(pub u64);

/// Checks each line of a certificate against a net. An accepted one's claim is true of the net, and one for
/// Commoner's condition excludes every dead reachable marking of an ordinary net with a transition. It takes no
/// memory. What the scratch holds is lost.
pub fn check(
    net: &FlatNet,
    certificate: &Certificate,
    scratch: &mut Scratch,
) -> Result<(), Rejected>
    requires well_formed { IsWellFormed certificate.now }
    requires scratch { scratch.old ≡ (net_of net.now).places }
    ensures accepted { OnOk result (IsAccepted (net_of net.now) certificate.now) }
    ensures rejected { IfErr result (λ fault. IsFalseLine (net_of net.now) certificate.now fault.0) }
    ensures claim { OnOk result (HasTrueClaim (net_of net.now) certificate.now) }
    ensures safe { OnOk result (ExcludesDead (net_of net.now) certificate.now) }
    ensures scratch { scratch.new ≡ scratch.old }
{
    match certificate {
        Certificate::Bounds(lines) => check_bounds(net, lines, &mut scratch.coefficients),
        Certificate::BadSiphon(places) => check_bad_siphon(net, places, &mut scratch.walk),
        Certificate::Commoner(tree) => {
            check_tree(net, tree, &mut scratch.walk, &mut scratch.traps)
        }
    }
}
