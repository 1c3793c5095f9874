ghost use Rattle.std.specs.Prelude.{◌≤◌, ℕ, List, IfOk, IfErr};
ghost use Rattle.pnml_grammar.specs.Valued.{Valued};
ghost use Rattle.page_flatten.specs.Rules.{BreaksNoRule};
ghost use Rattle.page_flatten.specs.Flat.{Flat};
ghost use Rattle.struct_core.specs.declared.order.Order.{Order as Ordered};
ghost use Rattle.struct_core.specs.Outcome.{Outcome, TaskOutcome};
ghost use Rattle.struct_core.specs.Answers.{FailsWith, IsRefusedNet};
ghost use Rattle.struct_core.specs.Intaking.{HasTaken};

use crate::certified::{bounds_certified, verdict_certified};
use crate::intake::Intake;
use crate::order::{Budgets, Task};
use crate::place_bounds::bound_report;
use crate::replays::replay_report;
use crate::resumes::resume_report;
use crate::semiflows::semiflow_report;
use crate::siphons::{siphon_report, trap_report};
use crate::subs::sub_report;
use crate::verdicts::{commoner_report, live_report};
use crate::verified::verify_report;
use net_class::class;
use net_values::{Document, FlatNet, NodeKind, Text};
use page_flatten::flatten;
use pnml_write::canonical;
use report::{Refusal, check_text, class_text};
use std::alloc::Global;

/// The text of a task for the net of this number, from 1, in the document of the input that was taken.
pub(crate) fn answer(
    alloc: Global,
    task: Task,
    k: u32,
    budgets: Budgets,
    intake: Intake,
) -> Result<Text, Refusal>
    requires net { 1 ≤ k }
    requires sets { 1 ≤ budgets.sets }
    requires taken { (bytes : List ℕ) × HasTaken task intake bytes }
    ensures text { IfOk result (λ text. (bytes : List ℕ) → HasTaken task intake bytes →
        Outcome (Ordered.Run task k budgets) bytes 0 text) }
    ensures refused { IfErr result (λ refusal. (bytes : List ℕ) → HasTaken task intake bytes →
        FailsWith (Outcome (Ordered.Run task k budgets) bytes) refusal) }
{
    let document = intake.decoder.finish()?;
    let net = chosen_net(alloc, k, &document)?;
    text_of(
        alloc,
        task,
        budgets,
        &document,
        &net,
        intake.rest.as_slice(),
    )
}

/// The flat net of the net of this number, from 1, in a document.
pub(crate) fn chosen_net(alloc: Global, k: u32, document: &Document) -> Result<FlatNet, Refusal>
    requires number { 1 ≤ k }
    requires valued { Valued document.now }
    ensures flat { IfOk result (λ net. BreaksNoRule document.now × Flat document.now k net) }
    ensures refused { IfErr result (IsRefusedNet document.now k) }
{
    match flatten(alloc, document, k as usize - 1) {
        Ok(net) => Ok(net),
        Err(fault) => Err(Refusal::Rule(k, fault)),
    }
}

/// The text of a task for a document, its flat net and what follows its bytes.
fn text_of(
    alloc: Global,
    task: Task,
    budgets: Budgets,
    document: &Document,
    net: &FlatNet,
    rest: &[u8],
) -> Result<Text, Refusal>
    requires { 1 ≤ budgets.sets }
    ensures text { IfOk result (TaskOutcome task budgets document.now net.now rest.now 0) }
    ensures refused { IfErr result (FailsWith (TaskOutcome task budgets document.now net.now rest.now)) }
{
    match task {
        Task::Check => Ok(check_text(alloc, document, net)?),
        Task::Canon => Ok(canonical(alloc, document)?),
        Task::Class => Ok(class_text(alloc, class(net))?),
        Task::Places => semiflow_report(alloc, net, NodeKind::Place, budgets.rows),
        Task::Transitions => semiflow_report(alloc, net, NodeKind::Transition, budgets.rows),
        Task::Siphons => siphon_report(alloc, net, budgets.sets),
        Task::Traps => trap_report(alloc, net, budgets.sets),
        Task::Bounds => bound_report(alloc, net, budgets.rows),
        Task::Commoner => commoner_report(alloc, net, budgets.sets),
        Task::CertBounds => bounds_certified(alloc, document, net, budgets.rows),
        Task::CertCommoner => verdict_certified(alloc, document, net, budgets.sets),
        Task::Verify => verify_report(alloc, net, rest),
        Task::Live => live_report(alloc, net, budgets.sets),
        Task::Sub => sub_report(alloc, net, budgets.rows),
        Task::Resume => resume_report(alloc, document, net, rest, budgets.sets),
        Task::Replay => replay_report(alloc, net, rest),
    }
}
