ghost use Rattle.std.specs.Prelude.{◌≡◌, ◌≤◌, ℕ, IfOk, IfErr, OnOk, length, slice_index};
ghost use Rattle.std.specs.Cmp.Lexicographic.{slice_cmp};
ghost use Rattle.std.specs.Ordering.{nat_cmp};
ghost use Rattle.net_values.specs.FlatNets.{net_of};
ghost use Rattle.net_values.specs.PlaceSets.{has};
ghost use Rattle.net_values.specs.TheList.{IsTheList};
ghost use Rattle.net_values.specs.declared.limits.TheConstants.{MAX_PLACES};
ghost use Rattle.incidence.specs.Matrix.{incidence_of};
ghost use Rattle.incidence.specs.Semiflow.{all_columns};
ghost use Rattle.semiflow_elim.specs.Bases.{IsMinimalRow};
ghost use Rattle.bounds.specs.Listed.{AreNarrowRows, NameFirstRows};
ghost use Rattle.certificates.specs.Conditions.{IsAccepted};
ghost use Rattle.certificates.specs.WellFormed.{IsWellFormed};
ghost use Rattle.cert_make.specs.BoundCertificates.{bounds_certificate, claims_below, is_named};
ghost use Rattle.cert_make.specs.BoundCertificates.{AreNarrowFlows, AreWithin, FailsToCertify};

use crate::fault::BoundCertFault;
use crate::flows::named_flows;
use bounds::Bounds;
use certificates::{BoundLines, Certificate, Claim, Claims};
use net_values::{CopyList, FlatNet, NoMemory, Rows};
use std::alloc::Global;

/// The certificate of the least bounds of a net, by its list of minimal semiflows. The flows are the rows that
/// the bounds name, ascending; the claims are all bounded places, ascending, each with its least bound and the
/// number of its row among the flows, from 1. `WideCheck` comes exactly where a named row has a sum above
/// 2^127 - 1 at some column: the first such row, then its first such column.
pub fn bound_certificate(
    alloc: Global,
    net: &FlatNet,
    rows: &Rows,
    bounds: &Bounds,
) -> Result<Certificate, BoundCertFault>
    requires list { IsTheList (slice_cmp nat_cmp) (IsMinimalRow (incidence_of (net_of net.now)) all_columns) rows.now }
    requires places { length bounds.now ≡ (net_of net.now).places }
    requires first { NameFirstRows (net_of net.now) rows.now bounds.now }
    requires narrow { AreNarrowRows (net_of net.now) rows.now (length rows.now) }
    ensures exact { IfOk result (λ certificate. certificate ≡ bounds_certificate rows.now bounds.now) }
    ensures well_formed { IfOk result IsWellFormed }
    ensures accepted { IfOk result (IsAccepted (net_of net.now)) }
    ensures narrow { OnOk result (AreNarrowFlows (net_of net.now) rows.now (is_named bounds.now) (length rows.now)) }
    ensures fault { IfErr result (FailsToCertify (net_of net.now) rows.now (is_named bounds.now)) }
{
    let named = named_rows(alloc, net, rows.len(), bounds)?;
    let mut numbers = CopyList::new(alloc);
    let flows = named_flows(alloc, net, rows, named.as_slice(), &mut numbers)?;
    let claims = claims_by(alloc, bounds, numbers.as_slice())?;
    Ok(Certificate::Bounds(BoundLines { flows, claims }))
}

/// Which of this many rows the bounds name.
fn named_rows(
    alloc: Global,
    net: &FlatNet,
    rows: usize,
    bounds: &Bounds,
) -> Result<Vec<bool>, NoMemory>
    requires places { length bounds.now ≡ (net_of net.now).places }
    requires within { AreWithin rows bounds.now }
    ensures limit { (net_of net.now).places ≤ MAX_PLACES }
    ensures size { IfOk result (λ named. length named.items ≡ rows) }
    ensures exact { IfOk result (λ named. (k : ℕ) → has named.items k ≡ is_named bounds.now k) }
{
    let places = net.places();
    let mut named = vec![in alloc; false; rows]?;
    for p in 0..places {
        if let Some((_bound, row)) = bounds.get(p) {
            named[row] = true;
        }
    }
    Ok(named)
}

/// The claims of the bounded places, by the numbers of the rows.
fn claims_by(alloc: Global, bounds: &Bounds, numbers: &[u32]) -> Result<Claims, NoMemory>
    requires within { AreWithin (length numbers.now) bounds.now }
    requires places { length bounds.now ≤ MAX_PLACES }
    ensures { IfOk result (λ claims. claims ≡ claims_below (slice_index numbers.now) bounds.now (length bounds.now)) }
{
    let mut claims = Claims::new(alloc);
    for p in 0..bounds.places() {
        if let Some((bound, row)) = bounds.get(p) {
            claims.push(Claim {
                place: p as u32,
                bound,
                flow: numbers[row],
            })?;
        }
    }
    Ok(claims)
}
