ghost use Rattle.std.specs.Prelude.{◌∷◌, [], MatchBool, OnOk, IfErr};
ghost use Rattle.std.specs.List.{AllByRecursion, flat_map};
ghost use Rattle.page_flatten.specs.Elements.{mentions, references, reference_of};
ghost use Rattle.page_flatten.specs.Rules.{AreDistinct, NamesNode, IsKnown, NamesItsKind};
ghost use Rattle.page_flatten.specs.Tables.{table_ids, IsFirstUnknown, IsFirstOfWrongKind};
ghost use Rattle.page_flatten.specs.Names.{looked, IsKept, IsFirstBreaking, KeepsRule, NamesBroken};
ghost use Rattle.page_flatten.specs.Passes.{AreNumbered};

use crate::fault::FlatFault;
use crate::numbers::Numbers;
use net_values::{Item, List, Nets, NodeKind, RefNode, Text};
use std::alloc::Global;

/// The two rules on the ids that items name.
#[derive(Clone, Copy)]
pub enum NameRule {
    /// Each `ref`, `source` and `target` is the id of a node of its net.
    Mentions,
    /// Each reference node names a node of its own kind.
    Kinds,
}

/// Refuses the first name in the document that breaks the rule.
pub fn check_names(
    alloc: Global,
    nets: &Nets,
    tables: &List<Numbers<'_>>,
    rule: NameRule,
) -> Result<(), FlatFault>
    requires { AreNumbered nets.now tables.now }
    ensures ok { OnOk result (AllByRecursion (KeepsRule rule) nets.now) }
    ensures fault { IfErr result (NamesBroken rule nets.now) }
{
    for k in 0..nets.len() {
        check_items(alloc, nets.get(k).items.as_slice(), tables.get(k), rule)?;
    }
    Ok(())
}

/// The same for the items of a net.
fn check_items(
    alloc: Global,
    items: &[Item],
    numbers: &Numbers<'_>,
    rule: NameRule,
) -> Result<(), FlatFault>
    requires { AreDistinct (table_ids numbers.now) }
    ensures ok { OnOk result (AllByRecursion (IsKept rule numbers.now) (flat_map (looked rule) items.now)) }
    ensures fault { IfErr result (IsFirstBreaking rule numbers.now (flat_map (looked rule) items.now)) }
{
    for item in items {
        check_item(alloc, item, numbers, rule)?;
    }
    Ok(())
}

/// The same for an item.
fn check_item(
    alloc: Global,
    item: &Item,
    numbers: &Numbers<'_>,
    rule: NameRule,
) -> Result<(), FlatFault>
    requires { AreDistinct (table_ids numbers.now) }
    ensures ok { OnOk result (AllByRecursion (IsKept rule numbers.now) (looked rule item.now)) }
    ensures fault { IfErr result (IsFirstBreaking rule numbers.now (looked rule item.now)) }
{
    match rule {
        NameRule::Mentions => check_mentions(alloc, item, numbers),
        NameRule::Kinds => check_reference(alloc, item, numbers),
    }
}

/// Refuses the first id that an item mentions and that is the id of no node.
fn check_mentions(alloc: Global, item: &Item, numbers: &Numbers<'_>) -> Result<(), FlatFault>
    requires { AreDistinct (table_ids numbers.now) }
    ensures ok { OnOk result (AllByRecursion (IsKnown numbers.now) (mentions item.now)) }
    ensures fault { IfErr result (IsFirstUnknown numbers.now (mentions item.now)) }
{
    match item {
        Item::RefPlace(node) => check_mention(alloc, &node.target, &node.id, numbers),
        Item::RefTransition(node) => check_mention(alloc, &node.target, &node.id, numbers),
        Item::Arc(arc) => {
            check_mention(alloc, &arc.source, &arc.id, numbers)?;
            check_mention(alloc, &arc.target, &arc.id, numbers)
        }
        _ => Ok(()),
    }
}

/// Refuses an id that is that of no node, as the element `by` mentions it.
fn check_mention(
    alloc: Global,
    id: &Text,
    by: &Text,
    numbers: &Numbers<'_>,
) -> Result<(), FlatFault>
    requires { AreDistinct (table_ids numbers.now) }
    ensures ok { OnOk result (IsKnown numbers.now record { id = id.now; by = by.now }) }
    ensures fault { IfErr result
        (IsFirstUnknown numbers.now (record { id = id.now; by = by.now } ∷ [])) }
{
    match numbers.node(id) {
        Some(_) => Ok(()),
        None => Err(FlatFault::UnknownId(id.copy(alloc)?, by.copy(alloc)?)),
    }
}

/// Refuses an item that is a reference node and names a node of the other kind.
fn check_reference(alloc: Global, item: &Item, numbers: &Numbers<'_>) -> Result<(), FlatFault>
    requires { AreDistinct (table_ids numbers.now) }
    ensures ok { OnOk result (AllByRecursion (NamesItsKind numbers.now) (references item.now)) }
    ensures fault { IfErr result (IsFirstOfWrongKind numbers.now (references item.now)) }
{
    match item {
        Item::RefPlace(node) => check_kind(alloc, node, NodeKind::Place, numbers),
        Item::RefTransition(node) => check_kind(alloc, node, NodeKind::Transition, numbers),
        _ => Ok(()),
    }
}

/// Refuses a reference node of this kind where it names no node of the kind.
fn check_kind(
    alloc: Global,
    node: &RefNode,
    kind: NodeKind,
    numbers: &Numbers<'_>,
) -> Result<(), FlatFault>
    requires { AreDistinct (table_ids numbers.now) }
    ensures ok { OnOk result (NamesItsKind numbers.now (reference_of kind node.now)) }
    ensures fault { IfErr result
        (IsFirstOfWrongKind numbers.now (reference_of kind node.now ∷ [])) }
{
    if names_node(&node.target, kind, numbers) {
        Ok(())
    } else {
        Err(FlatFault::RefKind(node.id.copy(alloc)?))
    }
}

/// Whether a node of this kind has the id.
fn names_node(id: &Text, kind: NodeKind, numbers: &Numbers<'_>) -> bool
    requires { AreDistinct (table_ids numbers.now) }
    ensures { MatchBool result
        (NamesNode numbers.now id.now kind)
        (NamesNode numbers.now id.now kind → ⊥) }
{
    match numbers.node(id) {
        Some((_, found)) => found == kind,
        None => false,
    }
}
