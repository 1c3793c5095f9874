ghost use Rattle.std.specs.Prelude.{◌≡◌, ◌≤◌, [], IfOk, IfErr, MatchOption, length};
ghost use Rattle.net_values.specs.declared.document.Document.{Document as Read};
ghost use Rattle.struct_core.specs.declared.order.Order.{Order as Ordered};
ghost use Rattle.report.specs.SummaryText.{summary_text};
ghost use Rattle.struct_core.specs.Answers.{FailsWith};
ghost use Rattle.struct_core.specs.Outcome.{Outcome, SampleOutcome, sample_tasks};
ghost use Rattle.struct_core.specs.Summaries.{is_yes, HasGreatest, IsGreater};

use crate::answer::chosen_net;
use crate::order::default_budgets;
use crate::philosophers::sample_net;
use crate::place_bounds::list_bounds;
use crate::semiflows::list_semiflows;
use crate::siphons::list_siphons;
use bounds::Bounds;
use net_class::{Verdict, commoner};
use net_values::{FlatNet, NodeKind, Text};
use pnml_decode::decode;
use pnml_write::canonical;
use report::{Refusal, Summary, sample_text};
use std::alloc::Global;

/// The text of `sample`: what the tasks tell of the net of `n` philosophers, by way of its canonical text.
pub(crate) fn sample_report(alloc: Global, n: u32) -> Result<Text, Refusal>
    requires { (2 ≤ n) × (n ≤ 200) }
    ensures text { IfOk result (Outcome (Ordered.Sample n) [] 0) }
    ensures refused { IfErr result (FailsWith (Outcome (Ordered.Sample n) [])) }
{
    let sample = sample_net(alloc, n)?;
    let bytes = canonical(alloc, &sample)?;
    let document = decode(alloc, bytes.as_bytes())?;
    let net = chosen_net(alloc, 1, &document)?;
    let summary = summarize(alloc, &net)?;
    Ok(sample_text(alloc, &summary)?)
}

/// What the tasks tell of a net, refusing in their order.
fn summarize(alloc: Global, net: &FlatNet) -> Result<Summary, Refusal>
    ensures told { IfOk result (λ summary. (document : Read) →
        SampleOutcome document net.now sample_tasks 0 (summary_text summary)) }
    ensures refused { IfErr result (λ refusal. (document : Read) →
        FailsWith (SampleOutcome document net.now sample_tasks) refusal) }
{
    let budgets = default_budgets();
    let rows = list_semiflows(alloc, net, NodeKind::Place, budgets.rows)?;
    let cycles = list_semiflows(alloc, net, NodeKind::Transition, budgets.rows)?;
    let siphons = list_siphons(alloc, net, budgets.sets)?;
    let bounds = list_bounds(alloc, net, &rows)?;
    let verdict = commoner(alloc, net, &siphons)?;
    Ok(Summary {
        places: net.places(),
        transitions: net.transitions(),
        arcs: net.arcs(),
        place_semiflows: rows.len(),
        transition_semiflows: cycles.len(),
        siphons: siphons.len(),
        greatest_bound: greatest(&bounds),
        commoner: is_yes(&verdict),
    })
}

/// Whether a verdict is yes.
fn is_yes(verdict: &Verdict) -> bool
    ensures { result ≡ is_yes verdict.now }
{
    matches!(verdict, Verdict::Yes)
}

/// The greatest bound, or 0 where no place has one.
fn greatest(bounds: &Bounds) -> i128
    ensures { HasGreatest bounds.now (length bounds.now) result }
{
    let mut greatest = 0;
    for p in 0..bounds.places() {
        greatest = greater(greatest, bounds.get(p));
    }
    greatest
}

/// The greater of a number and a bound, where there is one.
fn greater(number: i128, bound: Option<(i128, usize)>) -> i128
    ensures { MatchOption bound (result ≡ number) (λ told. IsGreater number told.0 result) }
{
    match bound {
        Some((tokens, _)) if tokens > number => tokens,
        _ => number,
    }
}
