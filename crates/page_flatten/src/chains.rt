ghost use Rattle.std.specs.Prelude.{◌≡◌, slice_index_or, MatchBool, IfSome, IfNone, IfOk, OnOk, IfErr};
ghost use Rattle.std.specs.List.{AllByRecursion, AllZip, flat_map};
ghost use Rattle.page_flatten.specs.declared.links.End.{End};
ghost use Rattle.page_flatten.specs.declared.links.Link.TheVariants.{Apart};
ghost use Rattle.page_flatten.specs.Elements.{entries, references};
ghost use Rattle.page_flatten.specs.Rules.{AreDistinct, HasDistinctIds, MentionsNodes, KeepsKinds, EndsChains};
ghost use Rattle.page_flatten.specs.Passes.{AreNumbered, NamesUnending, NamesEndless};
ghost use Rattle.page_flatten.specs.Tables.{table_ids, AreSettled, EndsAt, EndsById, HaveSameEnds, ItsLinksEnd, IsFirstEndless, IsEndless};

use crate::fault::FlatFault;
use crate::links::{End, Link, Links, net_links};
use crate::numbers::Numbers;
use net_values::{Item, List, NetTree, Nets, RefNode, Text};
use std::alloc::Global;

/// The links of each net's elements, where each chain of references ends: those of references lead
/// straight to the ends. The first reference node whose chain doesn't end is refused.
pub fn settle_all(
    alloc: Global,
    nets: &Nets,
    tables: &List<Numbers<'_>>,
) -> Result<List<Links>, FlatFault>
    requires numbered { AreNumbered nets.now tables.now }
    requires mentions { AllByRecursion MentionsNodes nets.now }
    requires kinds { AllByRecursion KeepsKinds nets.now }
    ensures settled { IfOk result (λ links. AllZip AreSettled nets.now links) }
    ensures chains { OnOk result (AllByRecursion EndsChains nets.now) }
    ensures fault { IfErr result (NamesEndless nets.now) }
{
    let mut all = List::new(alloc);
    for k in 0..nets.len() {
        all.push(settled_links(alloc, nets.get(k), tables.get(k))?)?;
    }
    Ok(all)
}

/// The links of a net's elements, where each chain of references ends: those of references lead
/// straight to the ends. The first reference node whose chain doesn't end is refused.
fn settled_links(alloc: Global, net: &NetTree, numbers: &Numbers<'_>) -> Result<Links, FlatFault>
    requires numbered { numbers.now ≡ entries net.now }
    requires ids { HasDistinctIds net.now }
    requires mentions { MentionsNodes net.now }
    requires kinds { KeepsKinds net.now }
    ensures settled { IfOk result (AreSettled net.now) }
    ensures chains { OnOk result (EndsChains net.now) }
    ensures fault { IfErr result (NamesUnending net.now) }
{
    let mut links = net_links(alloc, net, numbers)?;
    settle_references(alloc, net.items.as_slice(), numbers, links.as_mut_slice())?;
    Ok(Links::new(links))
}

/// Follows each reference node to the end of its chain, and lets the links of that chain lead
/// straight to it, so that no link is followed often. The first reference node whose chain doesn't
/// end is refused.
fn settle_references(
    alloc: Global,
    items: &[Item],
    numbers: &Numbers<'_>,
    links: &mut [Link],
) -> Result<(), FlatFault>
    requires { AreDistinct (table_ids numbers.now) }
    ensures same { HaveSameEnds links.old links.new }
    ensures ok { OnOk result
        (AllByRecursion (ItsLinksEnd numbers.now links.old) (flat_map references items.now)) }
    ensures fault { IfErr result
        (IsFirstEndless numbers.now links.old (flat_map references items.now)) }
{
    for item in items {
        settle_reference_of(alloc, item, numbers, links)?;
    }
    Ok(())
}

/// The same for an item, where it is a reference node.
fn settle_reference_of(
    alloc: Global,
    item: &Item,
    numbers: &Numbers<'_>,
    links: &mut [Link],
) -> Result<(), FlatFault>
    requires { AreDistinct (table_ids numbers.now) }
    ensures same { HaveSameEnds links.old links.new }
    ensures ok { OnOk result
        (AllByRecursion (ItsLinksEnd numbers.now links.old) (references item.now)) }
    ensures fault { IfErr result (IsFirstEndless numbers.now links.old (references item.now)) }
{
    match item {
        Item::RefPlace(node) => settle_reference(alloc, node, numbers, links),
        Item::RefTransition(node) => settle_reference(alloc, node, numbers, links),
        _ => Ok(()),
    }
}

/// The same for a reference node.
fn settle_reference(
    alloc: Global,
    node: &RefNode,
    numbers: &Numbers<'_>,
    links: &mut [Link],
) -> Result<(), FlatFault>
    requires { AreDistinct (table_ids numbers.now) }
    ensures same { HaveSameEnds links.old links.new }
    ensures ok { OnOk result ((end : End) × EndsById numbers.now links.old node.now.target end) }
    ensures fault { IfErr result (IsEndless numbers.now links.old node.now) }
{
    if settle_chain(&node.target, numbers, links) {
        Ok(())
    } else {
        Err(FlatFault::RefCycle(node.id.copy(alloc)?))
    }
}

/// Follows the chain from the node with this id, settles it where it ends, and says whether it
/// does.
fn settle_chain(id: &Text, numbers: &Numbers<'_>, links: &mut [Link]) -> bool
    requires { AreDistinct (table_ids numbers.now) }
    ensures same { HaveSameEnds links.old links.new }
    ensures ends { MatchBool result
        ((end : End) × EndsById numbers.now links.old id.now end)
        ((end : End) → EndsById numbers.now links.old id.now end → ⊥) }
{
    let Some((number, _)) = numbers.node(id) else {
        return false;
    };
    match end_of(links, number) {
        Some(end) => {
            settle(links, number, end);
            true
        }
        None => false,
    }
}

/// The end of the chain from an element, if it ends. A chain that ends passes no element twice.
pub fn end_of(links: &[Link], start: usize) -> Option<End>
    ensures end { IfSome result (EndsAt links.now start) }
    ensures none { IfNone result ((end : End) → EndsAt links.now start end → ⊥) }
{
    let mut at = start;
    for _step in 0..links.len() {
        match link_at(links, at) {
            Link::Ends(end) => return Some(end),
            Link::Leads(next) => at = next,
            Link::Apart => return None,
        }
    }
    None
}

/// The link of an element. Where there is no such element, there is no node.
fn link_at(links: &[Link], number: usize) -> Link
    ensures { result ≡ slice_index_or links.now number Apart }
{
    links.get(number).copied().unwrap_or(Link::Apart)
}

/// Lets each link of the chain from an element lead straight to its end.
fn settle(links: &mut [Link], start: usize, end: End)
    requires { EndsAt links.old start end }
    ensures { HaveSameEnds links.old links.new }
{
    let mut at = start;
    while let Link::Leads(next) = link_at(links, at) {
        links[at] = Link::Ends(end);
        at = next;
    }
}
