ghost use Rattle.std.specs.Prelude.{◌≡◌, ◌<◌, ◌^◌, ◌∷◌, [], Some, IfOk, slice_get};
ghost use Rattle.std.specs.List.{AllByRecursion, flat_map};
ghost use Rattle.std.specs.Option.{option_to_list};
ghost use Rattle.page_flatten.specs.Elements.{elements, elements_from, mentions};
ghost use Rattle.page_flatten.specs.Rules.{AreDistinct, IsKnown};
ghost use Rattle.page_flatten.specs.Tables.{table_ids, places_after, transitions_after, AreLinksOf};
ghost use Rattle.net_values.specs.declared.node_kind.NodeKind.{NodeKind};

use crate::numbers::Numbers;
use net_values::{Item, NetTree, NoMemory, Text};
use std::alloc::Global;
use std::marker::Model;

/// The links of the elements by their numbers: each reference node leads on to the node that it
/// names.
pub fn net_links(alloc: Global, net: &NetTree, numbers: &Numbers<'_>) -> Result<Vec<Link>, NoMemory>
    requires distinct { AreDistinct (table_ids numbers.now) }
    requires known { AllByRecursion (IsKnown numbers.now) (flat_map mentions net.now.items) }
    ensures { IfOk result (λ links. AreLinksOf numbers.now (elements net.now) links.items) }
{
    let mut links = Vec::new(alloc);
    links.push(Link::Apart)?;
    let mut next = Next {
        place: 0,
        transition: 0,
    };
    for item in net.items.as_slice() {
        if let Some(link) = link_of(item, numbers, next) {
            links.push(link)?;
        }
        next = next_after(item, next);
    }
    Ok(links)
}

/// The links of a net's elements. Contracts see the list of them.
#[derive(Drop)]
pub struct Links {
    links: Vec<Link>,
}

impl Model for Links {
    ghost use Rattle.std.specs.Prelude.{List};
    ghost use Rattle.page_flatten.specs.declared.links.Link.{Link};

    ghost Value = { List Link };

    ghost view = { λ l. l.links.items };
}

impl Links {
    ghost use Rattle.std.specs.Prelude.{◌≡◌};

    pub fn new(links: Vec<Link>) -> Links
        ensures { result ≡ links.items }
    {
        Links { links }
    }

    /// The links in the order of their elements.
    pub fn as_slice(&self) -> &[Link]
        ensures { result.now ≡ self.now }
    {
        self.links.as_slice()
    }
}

/// What an element is to a chain of references: no node, a place or a transition, or a reference
/// that leads on to the element of a number.
#[derive(Clone, Copy)]
pub enum Link {
    Apart,
    Ends(End),
    Leads(usize),
}

/// What a chain of references ends in: a place or a transition, by its number in document order.
#[derive(Clone, Copy)]
pub enum End {
    AtPlace(usize),
    AtTransition(usize),
}

/// The numbers of the next place and of the next transition.
#[derive(Clone, Copy)]
struct Next {
    place: usize,
    transition: usize,
}

/// The next numbers after an item.
fn next_after(item: &Item, next: Next) -> Next
    requires place { next.place < 2 ^ 63 }
    requires transition { next.transition < 2 ^ 63 }
    ensures place { result.place ≡ places_after item.now next.place }
    ensures transition { result.transition ≡ transitions_after item.now next.transition }
{
    match item {
        Item::Place(_) => Next {
            place: next.place + 1,
            transition: next.transition,
        },
        Item::Transition(_) => Next {
            place: next.place,
            transition: next.transition + 1,
        },
        _ => next,
    }
}

/// The link of the element that begins with an item, if one does.
fn link_of(item: &Item, numbers: &Numbers<'_>, next: Next) -> Option<Link>
    requires distinct { AreDistinct (table_ids numbers.now) }
    requires known { AllByRecursion (IsKnown numbers.now) (mentions item.now) }
    ensures { let element = elements_from (item.now ∷ []) next.place next.transition in
        AreLinksOf numbers.now element (option_to_list result) }
{
    match item {
        Item::PageEnd => None,
        Item::Page(_) => Some(Link::Apart),
        Item::Place(_) => Some(Link::Ends(End::AtPlace(next.place))),
        Item::Transition(_) => Some(Link::Ends(End::AtTransition(next.transition))),
        Item::RefPlace(node) => Some(Link::Leads(number_of(&node.target, numbers))),
        Item::RefTransition(node) => Some(Link::Leads(number_of(&node.target, numbers))),
        Item::Arc(_) => Some(Link::Apart),
    }
}

/// The number of the node with this id.
fn number_of(id: &Text, numbers: &Numbers<'_>) -> usize
    requires distinct { AreDistinct (table_ids numbers.now) }
    requires known { IsKnown numbers.now record { id = id.now; by = id.now } }
    ensures { (found : NodeKind) × (slice_get numbers.now result ≡ Some (id.now, Some found)) }
{
    match numbers.node(id) {
        Some((number, _)) => number,
        None => unreachable!(),
    }
}
