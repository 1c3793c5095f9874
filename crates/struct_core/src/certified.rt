ghost use Rattle.std.specs.Prelude.{◌≡◌, ◌++◌, IfOk, IfErr};
ghost use Rattle.certificates.specs.Spelling.{certificate_text};
ghost use Rattle.certificates.specs.WellFormed.{IsWellFormed};
ghost use Rattle.net_values.specs.FlatNets.{net_of};
ghost use Rattle.net_values.specs.Nodes.{place_id, transition_id};
ghost use Rattle.pnml_grammar.specs.Canon.{canon};
ghost use Rattle.siphon_branch.specs.Limits.{IsGrownSet};
ghost use Rattle.struct_core.specs.Answers.{FailsWith};
ghost use Rattle.struct_core.specs.Certificates.{CertBoundOutcome, CertVerdictOutcome, CertifiesVerdict};
ghost use Rattle.struct_core.specs.Enumerations.{PassedLimit};
ghost use Rattle.struct_core.specs.Verdicts.{IsVerdict};

use crate::place_bounds::list_bounds;
use crate::semiflows::list_semiflows;
use crate::siphons::list_siphons;
use cert_make::{BoundCertFault, bad_siphon_certificate, bound_certificate, commoner_certificate};
use certificates::{Certificate, print};
use net_class::{Verdict, commoner};
use net_values::{Document, FlatNet, NoMemory, NodeKind, Text};
use pnml_write::canonical;
use report::{Excess, Refusal};
use siphon_branch::SetFault;
use std::alloc::Global;

/// The text of `cert-bounds`, with at most `budget` candidates at each step: the canonical text of the document,
/// and after it the certificate of the bounds.
pub(crate) fn bounds_certified(
    alloc: Global,
    document: &Document,
    net: &FlatNet,
    budget: u32,
) -> Result<Text, Refusal>
    ensures text { IfOk result (CertBoundOutcome (net_of net.now) (canon document.now) (place_id net.now) (transition_id net.now) budget 0) }
    ensures refused { IfErr result
        (FailsWith (CertBoundOutcome (net_of net.now) (canon document.now) (place_id net.now) (transition_id net.now) budget)) }
{
    let rows = list_semiflows(alloc, net, NodeKind::Place, budget)?;
    let bounds = list_bounds(alloc, net, &rows)?;
    match bound_certificate(alloc, net, &rows, &bounds) {
        Ok(certificate) => Ok(certified_text(alloc, document, &certificate)?),
        Err(BoundCertFault::WideCheck(row, column)) => {
            let id = net.transition_id(column).copy(alloc)?;
            Err(Refusal::Excess(Excess::WideCheck(row, id)))
        }
        Err(BoundCertFault::NoMemory) => Err(Refusal::NoMemory),
    }
}

/// The text of `cert-commoner`, where at most `limit` siphons are grown: the canonical text of the document, and
/// after it a certificate of Commoner's verdict.
pub(crate) fn verdict_certified(
    alloc: Global,
    document: &Document,
    net: &FlatNet,
    limit: u32,
) -> Result<Text, Refusal>
    ensures text { IfOk result (CertVerdictOutcome (net_of net.now) (canon document.now) limit 0) }
    ensures refused { IfErr result (FailsWith (CertVerdictOutcome (net_of net.now) (canon document.now) limit)) }
{
    let siphons = list_siphons(alloc, net, limit)?;
    let verdict = commoner(alloc, net, &siphons)?;
    let certificate = certificate_of(alloc, net, &verdict, limit)?;
    Ok(certified_text(alloc, document, &certificate)?)
}

/// The certificate of a verdict: for a yes a tree, for a no its siphon.
fn certificate_of(
    alloc: Global,
    net: &FlatNet,
    verdict: &Verdict,
    limit: u32,
) -> Result<Certificate, Refusal>
    requires { IsVerdict (net_of net.now) verdict.now }
    ensures made { IfOk result (CertifiesVerdict (net_of net.now) verdict.now) }
    ensures refused { IfErr result (FailsWith (PassedLimit (IsGrownSet (net_of net.now)) limit)) }
{
    match verdict {
        Verdict::No(siphon) => Ok(bad_siphon_certificate(alloc, net, siphon)?),
        Verdict::Yes => match commoner_certificate(alloc, net, limit) {
            Ok(certificate) => Ok(certificate),
            Err(SetFault::SetLimit(_)) => Err(Refusal::Excess(Excess::SetLimit(limit))),
            Err(SetFault::NoMemory) => Err(Refusal::NoMemory),
        },
    }
}

/// The canonical text of a document, and after it a certificate.
fn certified_text(
    alloc: Global,
    document: &Document,
    certificate: &Certificate,
) -> Result<Text, NoMemory>
    requires { IsWellFormed certificate.now }
    ensures { IfOk result (λ text. text ≡ canon document.now ++ certificate_text certificate.now) }
{
    let mut text = canonical(alloc, document)?;
    text.push(print(alloc, certificate)?.as_str())?;
    Ok(text)
}
