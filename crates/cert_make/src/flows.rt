ghost use Rattle.std.specs.Prelude.{◌≡◌, [], ◌<◌, ℕ, IfOk, IfErr, OnOk, MatchOption, length, slice_index, slice_index_or};
ghost use Rattle.net_values.specs.FlatNets.{net_of};
ghost use Rattle.net_values.specs.PlaceSets.{has};
ghost use Rattle.net_values.specs.Vectors.{IsVector};
ghost use Rattle.cert_make.specs.BoundCertificates.{flows_below, terms_below};
ghost use Rattle.cert_make.specs.BoundCertificates.{AreNarrowFlows, FailsToCertify, IsFirstWide, IsNarrow};
ghost use Rattle.cert_make.specs.Making.{AreNumbers, AreVectors, FailsAt, FitNumbers};

use crate::fault::BoundCertFault;
use certificates::{Flow, Flows};
use incidence::net_sums;
use net_values::{CopyList, FlatNet, NoMemory, Rows, Vector};
use std::alloc::Global;

/// The flows of the named rows. The list of numbers, which is empty at first, gets that of each row among them.
pub(crate) fn named_flows(
    alloc: Global,
    net: &FlatNet,
    rows: &Rows,
    named: &[bool],
    numbers: &mut CopyList<u32>,
) -> Result<Flows, BoundCertFault>
    requires sizes { (k : ℕ) → k < length rows.now → length (slice_index_or rows.now k []) ≡ (net_of net.now).places }
    requires named { length named.now ≡ length rows.now }
    requires fit { FitNumbers rows.now (has named.now) }
    requires empty { numbers.old ≡ [] }
    ensures exact { IfOk result (λ flows. flows ≡ flows_below rows.now (has named.now) (length rows.now)) }
    ensures numbers { OnOk result (AreNumbers rows.now (has named.now) (length rows.now) numbers.new) }
    ensures narrow { OnOk result (AreNarrowFlows (net_of net.now) rows.now (has named.now) (length rows.now)) }
    ensures vectors { OnOk result (AreVectors rows.now (has named.now) (length rows.now)) }
    ensures fault { IfErr result (FailsToCertify (net_of net.now) rows.now (has named.now)) }
{
    let mut flows = Flows::new(alloc);
    for (k, row) in rows.as_slice().iter().enumerate() {
        numbers.push(flows.len() as u32 + 1)?;
        if named[k] {
            flows.push(narrow_flow(alloc, net, row, k)?)?;
        }
    }
    Ok(flows)
}

/// The flow of a row, which has this number, where it is narrow at every column.
fn narrow_flow(
    alloc: Global,
    net: &FlatNet,
    row: &Vector,
    number: usize,
) -> Result<Flow, BoundCertFault>
    requires { length row.now ≡ (net_of net.now).places }
    ensures exact { IfOk result (λ flow. flow ≡ terms_below (length row.now) (slice_index row.now)) }
    ensures narrow { OnOk result (IsNarrow (net_of net.now) (slice_index row.now)) }
    ensures vector { OnOk result (IsVector row.now) }
    ensures fault { IfErr result (FailsAt (net_of net.now) (slice_index row.now) number) }
{
    if let Some(column) = first_wide_column(net, row) {
        return Err(BoundCertFault::WideCheck(number, column));
    }
    Ok(flow_of(alloc, row)?)
}

/// The first column of the net's incidence at which one of the two sums of the vector exceeds 2^127 - 1.
fn first_wide_column(net: &FlatNet, y: &Vector) -> Option<usize>
    requires { length y.now ≡ (net_of net.now).places }
    ensures { MatchOption result (IsNarrow (net_of net.now) (slice_index y.now)) (IsFirstWide (net_of net.now) (slice_index y.now)) }
{
    for column in 0..net.transitions() {
        let Ok(_) = net_sums(net, y, column) else {
            return Some(column);
        };
    }
    None
}

/// The places with a positive entry, each with it.
fn flow_of(alloc: Global, row: &Vector) -> Result<Flow, NoMemory>
    ensures exact { IfOk result (λ flow. flow ≡ terms_below (length row.now) (slice_index row.now)) }
    ensures vector { IsVector row.now }
{
    let mut flow = Flow::new(alloc);
    let mut walk = row.walk();
    'places: while let Some((p, entry)) = walk.next() {
        flow.push((p as u32, entry as i128))?;
    }
    Ok(flow)
}
