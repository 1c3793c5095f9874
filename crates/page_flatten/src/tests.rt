mod chains;
mod documents;
mod faults;
mod nets;

use Given::{Arc, Page, PageEnd, Place, RefPlace, RefTransition, Transition};
use net_values::{
    ArcNode, Document, Item, Items, NetTree, Nets, NoMemory, PageNode, PlaceNode, RefNode, Text,
    TransitionNode,
};
use std::alloc::Global;

/// An item without a name: a page, the end of one, a place with its initial marking, a transition, a
/// reference with what it names, or an arc with its source, its target and its weight.
#[derive(Clone, Copy)]
enum Given {
    Page(&'static str),
    PageEnd,
    Place(&'static str, u64),
    Transition(&'static str),
    RefPlace(&'static str, &'static str),
    RefTransition(&'static str, &'static str),
    Arc(&'static str, &'static str, &'static str, u64),
}

/// The document of a net with the id `n` and these items.
fn document(alloc: Global, items: &[Given]) -> Result<Document, NoMemory> {
    document_of(alloc, &[("n", items)])
}

/// The document of nets with these ids and items.
fn document_of(alloc: Global, given: &[(&str, &[Given])]) -> Result<Document, NoMemory> {
    let mut nets = Nets::new(alloc);
    for (id, items) in given {
        nets.push(net(alloc, id, *items)?)?;
    }
    Ok(Document { nets })
}

fn net(alloc: Global, id: &str, given: &[Given]) -> Result<NetTree, NoMemory> {
    let mut items = Items::new(alloc);
    for one in given {
        items.push(item(alloc, *one)?)?;
    }
    Ok(NetTree {
        id: text(alloc, id)?,
        name: None,
        items,
    })
}

fn item(alloc: Global, given: Given) -> Result<Item, NoMemory> {
    match given {
        Page(id) => Ok(Item::Page(PageNode {
            id: text(alloc, id)?,
            name: None,
        })),
        PageEnd => Ok(Item::PageEnd),
        Place(id, initial) => Ok(Item::Place(PlaceNode {
            id: text(alloc, id)?,
            name: None,
            initial,
        })),
        Transition(id) => Ok(Item::Transition(TransitionNode {
            id: text(alloc, id)?,
            name: None,
        })),
        RefPlace(id, target) => Ok(Item::RefPlace(reference(alloc, id, target)?)),
        RefTransition(id, target) => Ok(Item::RefTransition(reference(alloc, id, target)?)),
        Arc(id, source, target, weight) => Ok(Item::Arc(ArcNode {
            id: text(alloc, id)?,
            name: None,
            source: text(alloc, source)?,
            target: text(alloc, target)?,
            weight,
        })),
    }
}

fn reference(alloc: Global, id: &str, target: &str) -> Result<RefNode, NoMemory> {
    Ok(RefNode {
        id: text(alloc, id)?,
        name: None,
        target: text(alloc, target)?,
    })
}

fn text(alloc: Global, word: &str) -> Result<Text, NoMemory> {
    let mut text = Text::new(alloc);
    text.push(word)?;
    Ok(text)
}
