ghost use Rattle.std.specs.Prelude.{◌≡◌, ◌≤◌, ◌+◌, ◌∷◌, [], IfSome, IfNone, OnOk, IfErr, length};
ghost use Rattle.std.specs.List.{AllByRecursion, flat_map};
ghost use Rattle.net_values.specs.FlatNets.{net_of};
ghost use Rattle.pnml_grammar.specs.Valued.{HasValuesInRange};
ghost use Rattle.page_flatten.specs.declared.links.End.{End};
ghost use Rattle.page_flatten.specs.Elements.{arcs};
ghost use Rattle.page_flatten.specs.Rules.{AreDistinct};
ghost use Rattle.page_flatten.specs.Tables.{table_ids, EndsById, LinksStayWithin, AddsArcs, IsFirstMisjoined, IsMisjoined};
ghost use Rattle.page_flatten.specs.Joints.{IsJoint, joint_between};

use crate::chains::end_of;
use crate::fault::FlatFault;
use crate::links::{End, Link};
use crate::numbers::Numbers;
use net_values::{ArcNode, FlatNet, Item, MAX_ARCS, Text};
use std::alloc::Global;

/// Adds the arcs among the items to the net, each between what its ends resolve to. The first one
/// whose resolved ends aren't one place and one transition is refused.
pub fn add_arcs(
    alloc: Global,
    items: &[Item],
    numbers: &Numbers<'_>,
    links: &[Link],
    net: &mut FlatNet,
) -> Result<(), FlatFault>
    requires distinct { AreDistinct (table_ids numbers.now) }
    requires within { let net = net_of net.old in
        LinksStayWithin net.places net.transitions links.now }
    requires values { AllByRecursion HasValuesInRange items.now }
    requires room { net.old.arcs + length (flat_map arcs items.now) ≤ MAX_ARCS }
    ensures ok { OnOk result
        (AddsArcs numbers.now links.now (flat_map arcs items.now) net.old net.new) }
    ensures fault { IfErr result
        (IsFirstMisjoined numbers.now links.now (flat_map arcs items.now)) }
{
    for item in items {
        add_arc_of(alloc, item, numbers, links, net)?;
    }
    Ok(())
}

/// The same for an item, where it is an arc.
fn add_arc_of(
    alloc: Global,
    item: &Item,
    numbers: &Numbers<'_>,
    links: &[Link],
    net: &mut FlatNet,
) -> Result<(), FlatFault>
    requires distinct { AreDistinct (table_ids numbers.now) }
    requires within { let net = net_of net.old in
        LinksStayWithin net.places net.transitions links.now }
    requires values { HasValuesInRange item.now }
    requires room { net.old.arcs + length (arcs item.now) ≤ MAX_ARCS }
    ensures ok { OnOk result (AddsArcs numbers.now links.now (arcs item.now) net.old net.new) }
    ensures fault { IfErr result (IsFirstMisjoined numbers.now links.now (arcs item.now)) }
{
    match item {
        Item::Arc(arc) => add_arc(alloc, arc, numbers, links, net),
        _ => Ok(()),
    }
}

/// Adds an arc to the net between what its ends resolve to. It is refused where they aren't one
/// place and one transition.
fn add_arc(
    alloc: Global,
    arc: &ArcNode,
    numbers: &Numbers<'_>,
    links: &[Link],
    net: &mut FlatNet,
) -> Result<(), FlatFault>
    requires distinct { AreDistinct (table_ids numbers.now) }
    requires within { let net = net_of net.old in
        LinksStayWithin net.places net.transitions links.now }
    requires weight { 1 ≤ arc.now.weight }
    requires room { net.old.arcs + 1 ≤ MAX_ARCS }
    ensures ok { OnOk result (AddsArcs numbers.now links.now (arc.now ∷ []) net.old net.new) }
    ensures fault { IfErr result (IsMisjoined numbers.now links.now arc.now) }
{
    match joint_of(arc, numbers, links) {
        Joint::Input(p, t) => Ok(net.add_input(p, t, arc.weight)?),
        Joint::Output(t, p) => Ok(net.add_output(t, p, arc.weight)?),
        Joint::Neither => Err(FlatFault::ArcEnds(arc.id.copy(alloc)?)),
    }
}

/// What an arc joins: a place to a transition, a transition to a place, or neither.
#[derive(Clone, Copy)]
enum Joint {
    Input(usize, usize),
    Output(usize, usize),
    Neither,
}

/// What an arc joins.
fn joint_of(arc: &ArcNode, numbers: &Numbers<'_>, links: &[Link]) -> Joint
    requires { AreDistinct (table_ids numbers.now) }
    ensures { IsJoint numbers.now links.now arc.now result }
{
    let source = resolved(&arc.source, numbers, links);
    let target = resolved(&arc.target, numbers, links);
    joint_between(source, target)
}

/// What an arc between these two joins.
fn joint_between(source: Option<End>, target: Option<End>) -> Joint
    ensures { result ≡ joint_between source target }
{
    match (source, target) {
        (Some(End::AtPlace(p)), Some(End::AtTransition(t))) => Joint::Input(p, t),
        (Some(End::AtTransition(t)), Some(End::AtPlace(p))) => Joint::Output(t, p),
        _ => Joint::Neither,
    }
}

/// What the node with this id resolves to, if there is such a node and its chain ends.
fn resolved(id: &Text, numbers: &Numbers<'_>, links: &[Link]) -> Option<End>
    requires { AreDistinct (table_ids numbers.now) }
    ensures end { IfSome result (EndsById numbers.now links.now id.now) }
    ensures none { IfNone result ((end : End) → EndsById numbers.now links.now id.now end → ⊥) }
{
    let (number, _) = numbers.node(id)?;
    end_of(links, number)
}
