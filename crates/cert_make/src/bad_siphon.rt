ghost use Rattle.std.specs.Prelude.{◌≡◌, IfOk, length};
ghost use Rattle.net_values.specs.FlatNets.{net_of};
ghost use Rattle.net_values.specs.PlaceSets.{has};
ghost use Rattle.closed_sets.specs.ClosedSets.{IsNonempty, IsSiphon};
ghost use Rattle.closed_sets.specs.Commoner.{HasMarkedTrap};
ghost use Rattle.certificates.specs.declared.certificate.Certificate.{Certificate};
ghost use Rattle.certificates.specs.Conditions.{IsAccepted};
ghost use Rattle.certificates.specs.WellFormed.{IsWellFormed};
ghost use Rattle.cert_make.specs.PlaceLists.{places_below};

use certificates::{Certificate, PlaceList};
use net_values::{FlatNet, NoMemory, PlaceSet};
use std::alloc::Global;

/// The certificate that a nonempty siphon without a marked trap is: its places in ascending order.
pub fn bad_siphon_certificate(
    alloc: Global,
    net: &FlatNet,
    siphon: &PlaceSet,
) -> Result<Certificate, NoMemory>
    requires size { length siphon.now ≡ (net_of net.now).places }
    requires siphon { IsSiphon (net_of net.now) (has siphon.now) }
    requires some { IsNonempty (net_of net.now) (has siphon.now) }
    requires bad { HasMarkedTrap (net_of net.now) (has siphon.now) → ⊥ }
    ensures exact { IfOk result (λ certificate. certificate ≡ Certificate.BadSiphon (places_below (net_of net.now).places (has siphon.now))) }
    ensures well_formed { IfOk result IsWellFormed }
    ensures accepted { IfOk result (IsAccepted (net_of net.now)) }
{
    let mut places = PlaceList::new(alloc);
    for p in 0..net.places() {
        if siphon.contains(p) {
            places.push(p as u32)?;
        }
    }
    Ok(Certificate::BadSiphon(places))
}
