ghost use Rattle.std.specs.Prelude.{◌≡◌, true, ◌++◌, ◌<◌, All, IfOk, OnOk, codes, length};
ghost use Rattle.std.specs.List.{flat_map};
ghost use Rattle.net_values.specs.FlatNets.{net_of};
ghost use Rattle.net_values.specs.Nodes.{node_count, node_id, place_id, transition_id};
ghost use Rattle.report.specs.Lines.{spaced};
ghost use Rattle.report.specs.Texts.{semiflow_line, semiflows_text as semiflow_report, term, terms};

use crate::lines::{push_count, push_space};
use net_values::{FlatNet, NoMemory, NodeKind, Rows, Text, Vector};
use std::alloc::Global;

/// The text of `places`: a line for each semiflow of places, with its positive entries in order, each as its
/// number, `*` and the id of its place, and last how many there are.
pub fn place_semiflows_text(alloc: Global, net: &FlatNet, rows: &Rows) -> Result<Text, NoMemory>
    requires { All (λ row. length row ≡ (net_of net.now).places) rows.now }
    ensures { IfOk result (λ text. text ≡ semiflow_report (place_id net.now) rows.now) }
{
    semiflows_text(alloc, NodeKind::Place, net, rows)
}

/// The text of `transitions`: likewise for semiflows of transitions, with the ids of the transitions.
pub fn transition_semiflows_text(
    alloc: Global,
    net: &FlatNet,
    rows: &Rows,
) -> Result<Text, NoMemory>
    requires { All (λ row. length row ≡ (net_of net.now).transitions) rows.now }
    ensures { IfOk result (λ text. text ≡ semiflow_report (transition_id net.now) rows.now) }
{
    semiflows_text(alloc, NodeKind::Transition, net, rows)
}

#[tactic(auto, unfolding(crate::specs::Texts::semiflows_text))]
fn semiflows_text(
    alloc: Global,
    kind: NodeKind,
    net: &FlatNet,
    rows: &Rows,
) -> Result<Text, NoMemory>
    requires { All (λ row. length row ≡ node_count kind net.now) rows.now }
    ensures { IfOk result (λ text. text ≡ semiflow_report (node_id kind net.now) rows.now) }
{
    let mut text = Text::new(alloc);
    push_semiflows(&mut text, kind, net, rows.as_slice())?;
    push_count(&mut text, "semiflows", rows.len() as u128)?;
    Ok(text)
}

/// Appends the lines of vectors: each has the positive entries in order, each entry as its number, `*` and the id
/// of its node.
pub fn push_semiflows(
    text: &mut Text,
    kind: NodeKind,
    net: &FlatNet,
    rows: &[Vector],
) -> Result<(), NoMemory>
    requires { All (λ row. length row ≡ node_count kind net.now) rows.now }
    ensures { let line = semiflow_line (node_id kind net.now) in
        OnOk result (text.new ≡ text.old ++ flat_map line rows.now) }
{
    for row in rows {
        push_semiflow(text, kind, net, row)?;
    }
    Ok(())
}

/// Appends the line of a semiflow.
fn push_semiflow(
    text: &mut Text,
    kind: NodeKind,
    net: &FlatNet,
    row: &Vector,
) -> Result<(), NoMemory>
    requires { length row.now ≡ node_count kind net.now }
    ensures { OnOk result (text.new ≡ text.old ++ semiflow_line (node_id kind net.now) row.now) }
{
    push_terms(text, kind, net, row)?;
    text.push("\n")
}

/// Appends the positive entries, with one space between.
fn push_terms(
    text: &mut Text,
    kind: NodeKind,
    net: &FlatNet,
    entries: &Vector,
) -> Result<(), NoMemory>
    requires { length entries.now ≡ node_count kind net.now }
    ensures { let pieces = terms (node_id kind net.now) entries.now in
        OnOk result (text.new ≡ text.old ++ spaced true pieces) }
{
    let mut is_first = true;
    let mut walk = entries.walk();
    'entries: while let Some((i, entry)) = walk.next() {
        push_space(text, is_first)?;
        push_term(text, entry, net.node_id(kind, i).as_str())?;
        is_first = false;
    }
    Ok(())
}

/// Appends an entry with the id of its node.
#[tactic(auto, unfolding(crate::specs::Texts::term))]
fn push_term(text: &mut Text, entry: u128, id: &str) -> Result<(), NoMemory>
    ensures { OnOk result (text.new ≡ text.old ++ term entry id.now) }
{
    text.push_number(entry)?;
    text.push("*")?;
    text.push(id)
}
