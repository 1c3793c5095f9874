ghost use Rattle.std.specs.Prelude.{IfOk, IfErr};
ghost use Rattle.net_values.specs.FlatNets.{net_of};
ghost use Rattle.net_values.specs.Nodes.{place_id, transition_id};
ghost use Rattle.struct_core.specs.Answers.{FailsWith};
ghost use Rattle.struct_core.specs.SubSemiflows.{SubOutcome};

use crate::semiflows::refusal_of;
use incidence::Incidence;
use net_values::{FlatNet, NodeKind, Text};
use report::Refusal;
use std::alloc::Global;
use sub_semiflow::{sub_semiflows, sub_text};

/// The text of `sub`, with at most `budget` candidates at each step.
pub(crate) fn sub_report(alloc: Global, net: &FlatNet, budget: u32) -> Result<Text, Refusal>
    ensures text { IfOk result (SubOutcome (net_of net.now) (place_id net.now) (transition_id net.now) budget 0) }
    ensures refused { IfErr result (FailsWith (SubOutcome (net_of net.now) (place_id net.now) (transition_id net.now) budget)) }
{
    match sub_semiflows(alloc, net, budget) {
        Ok(rows) => Ok(sub_text(alloc, net, &rows)?),
        Err(fault) => {
            let matrix = Incidence::extended(alloc, net)?;
            let columns = NodeKind::Transition;
            Err(refusal_of(alloc, net, &matrix, columns, budget, fault))
        }
    }
}
