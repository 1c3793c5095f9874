ghost use Rattle.std.specs.Prelude.{◌≡◌, ℕ, ◌<◌, All, IfOk, IfErr, length};
ghost use Rattle.incidence.specs.Tables.{matrix_of};
ghost use Rattle.net_values.specs.Nodes.{node_count, node_id, other_kind};
ghost use Rattle.incidence.specs.Semiflow.{IsSemiflow, all_columns};
ghost use Rattle.semiflow_elim.specs.FirstFail.{IsExplained};
ghost use Rattle.semiflow_elim.specs.Generated.{IsGenerated};
ghost use Rattle.report.specs.Texts.{semiflows_text};
ghost use Rattle.report.specs.declared.refusal.Refusal.{Refusal as Refusing};
ghost use Rattle.struct_core.specs.Answers.{FailsWith};
ghost use Rattle.struct_core.specs.Matrices.{matrix_of_kind, IsSized};
ghost use Rattle.struct_core.specs.Enumerations.{AreListed, FailedStep, SemiflowOutcome};

use incidence::Incidence;
use net_values::{FlatNet, NoMemory, NodeKind, Rows, Text};
use report::{Excess, Refusal, place_semiflows_text, transition_semiflows_text};
use semiflow_elim::{ElimFault, minimal_semiflows};
use std::alloc::Global;

/// The text of `places` or `transitions`, with at most `budget` candidates at each step.
pub(crate) fn semiflow_report(
    alloc: Global,
    net: &FlatNet,
    kind: NodeKind,
    budget: u32,
) -> Result<Text, Refusal>
    ensures text { IfOk result (SemiflowOutcome (matrix_of_kind kind net.now) (node_id kind net.now)
        (node_id (other_kind kind) net.now) budget 0) }
    ensures refused { IfErr result (FailsWith (SemiflowOutcome (matrix_of_kind kind net.now) (node_id kind net.now)
        (node_id (other_kind kind) net.now) budget)) }
{
    let rows = list_semiflows(alloc, net, kind, budget)?;
    Ok(text_of(alloc, net, kind, &rows)?)
}

/// The minimal semiflows of places or of transitions, strictly ascending.
pub(crate) fn list_semiflows(
    alloc: Global,
    net: &FlatNet,
    kind: NodeKind,
    budget: u32,
) -> Result<Rows, Refusal>
    ensures listed { IfOk result (AreListed (matrix_of_kind kind net.now) budget) }
    ensures generates { IfOk result (λ list. (y : ℕ → ℕ) → IsSemiflow (matrix_of_kind kind net.now) all_columns y →
        IsGenerated (matrix_of_kind kind net.now) list y) }
    ensures sizes { IfOk result (All (λ row. length row ≡ node_count kind net.now)) }
    ensures refused { IfErr result (FailsWith (FailedStep (matrix_of_kind kind net.now) (node_id (other_kind kind) net.now) budget)) }
{
    let matrix = matrix_for(alloc, net, kind)?;
    match minimal_semiflows(alloc, &matrix, budget) {
        Ok(rows) => Ok(rows),
        Err(fault) => Err(refusal_of(alloc, net, &matrix, kind.other(), budget, fault)),
    }
}

/// The matrix whose semiflows are those of the nodes of a kind.
fn matrix_for(alloc: Global, net: &FlatNet, kind: NodeKind) -> Result<Incidence, NoMemory>
    ensures is { IfOk result (λ table. matrix_of table ≡ matrix_of_kind kind net.now) }
    ensures sized { IfOk result (λ table. IsSized kind net.now (matrix_of table)) }
{
    let incidence = Incidence::of(alloc, net)?;
    match kind {
        NodeKind::Place => Ok(incidence),
        NodeKind::Transition => incidence.transpose(alloc),
    }
}

/// The text of a list of semiflows.
fn text_of(alloc: Global, net: &FlatNet, kind: NodeKind, rows: &Rows) -> Result<Text, NoMemory>
    requires { All (λ row. length row ≡ node_count kind net.now) rows.now }
    ensures { IfOk result (λ text. text ≡ semiflows_text (node_id kind net.now) rows.now) }
{
    match kind {
        NodeKind::Place => place_semiflows_text(alloc, net, rows),
        NodeKind::Transition => transition_semiflows_text(alloc, net, rows),
    }
}

/// The refusal for a fault of the elimination, whose columns are the nodes of a kind.
pub(crate) fn refusal_of(
    alloc: Global,
    net: &FlatNet,
    matrix: &Incidence,
    columns: NodeKind,
    budget: u32,
    fault: ElimFault,
) -> Refusal
    requires sized { (matrix_of matrix.now).columns ≡ node_count columns net.now }
    requires fault { IsExplained (matrix_of matrix.now) budget fault }
    ensures { FailsWith (FailedStep (matrix_of matrix.now) (node_id columns net.now) budget) result }
{
    match excess_of(alloc, net, matrix, columns, budget, fault) {
        Ok(excess) => Refusal::Excess(excess),
        Err(NoMemory) => Refusal::NoMemory,
    }
}

/// The same where memory suffices for a copy of the column's id.
fn excess_of(
    alloc: Global,
    net: &FlatNet,
    matrix: &Incidence,
    columns: NodeKind,
    budget: u32,
    fault: ElimFault,
) -> Result<Excess, NoMemory>
    requires sized { (matrix_of matrix.now).columns ≡ node_count columns net.now }
    requires fault { IsExplained (matrix_of matrix.now) budget fault }
    ensures { IfOk result (λ excess. FailsWith (FailedStep (matrix_of matrix.now) (node_id columns net.now) budget)
        (Refusing.Excess excess)) }
{
    match fault {
        ElimFault::NoMemory => Err(NoMemory),
        ElimFault::WideSum(column) => {
            Ok(Excess::WideSum(net.node_id(columns, column).copy(alloc)?))
        }
        ElimFault::RowBudget(column, count) => Ok(Excess::RowBudget(
            budget,
            net.node_id(columns, column).copy(alloc)?,
            count,
        )),
        ElimFault::WideRow(column) => {
            Ok(Excess::WideRow(net.node_id(columns, column).copy(alloc)?))
        }
    }
}
