ghost use Rattle.std.specs.Prelude.{◌≡◌, IfOk, unwrap_or, codes};
ghost use Rattle.pnml_grammar.specs.Contents.{first_value, value_in, id_in};

use crate::content::Content;
use crate::tag_values::TagValues;
use net_values::{
    ArcNode, List, NetTree, NoMemory, PageNode, PlaceNode, RefNode, Text, TransitionNode,
};
use pnml_grammar::Attributes;
use std::alloc::Global;

/// The net of a closed element.
pub(crate) fn net(
    alloc: Global,
    attributes: Attributes,
    content: Content,
) -> Result<NetTree, NoMemory>
    ensures { IfOk result (λ net. net ≡ record {
      id = id_in attributes;
      name = first_value content.names;
      items = content.items;
    }) }
{
    let Content { names, items, .. } = content;
    Ok(NetTree {
        id: TagValues::of(alloc, attributes).id,
        name: label(names),
        items: items.into_items()?,
    })
}

/// The start of the page of a closed element.
pub(crate) fn page(alloc: Global, attributes: Attributes, names: List<Option<Text>>) -> PageNode
    ensures { result ≡ record {
      id = id_in attributes;
      name = first_value names;
    } }
{
    PageNode {
        id: TagValues::of(alloc, attributes).id,
        name: label(names),
    }
}

pub(crate) fn place(
    alloc: Global,
    attributes: Attributes,
    name: Option<Text>,
    initial: Option<u64>,
) -> PlaceNode
    ensures { result ≡ record {
      id = id_in attributes;
      name = name;
      initial = unwrap_or initial 0;
    } }
{
    PlaceNode {
        id: TagValues::of(alloc, attributes).id,
        name,
        initial: initial.unwrap_or(0),
    }
}

pub(crate) fn transition(
    alloc: Global,
    attributes: Attributes,
    name: Option<Text>,
) -> TransitionNode
    ensures { result ≡ record {
      id = id_in attributes;
      name = name;
    } }
{
    TransitionNode {
        id: TagValues::of(alloc, attributes).id,
        name,
    }
}

pub(crate) fn arc(
    alloc: Global,
    attributes: Attributes,
    name: Option<Text>,
    weight: Option<u64>,
) -> ArcNode
    ensures { result ≡ record {
      id = id_in attributes;
      name = name;
      source = value_in (codes "source") attributes;
      target = value_in (codes "target") attributes;
      weight = unwrap_or weight 1;
    } }
{
    let TagValues {
        id,
        source,
        target,
        ..
    } = TagValues::of(alloc, attributes);
    ArcNode {
        id,
        name,
        source,
        target,
        weight: weight.unwrap_or(1),
    }
}

/// A reference node of either kind.
pub(crate) fn reference(alloc: Global, attributes: Attributes, names: List<Option<Text>>) -> RefNode
    ensures { result ≡ record {
      id = id_in attributes;
      name = first_value names;
      target = value_in (codes "ref") attributes;
    } }
{
    let TagValues { id, reference, .. } = TagValues::of(alloc, attributes);
    RefNode {
        id,
        name: label(names),
        target: reference,
    }
}

/// The value of a label; one without a text is as if it were absent.
pub(crate) fn label<T: Drop>(labels: List<Option<T>>) -> Option<T>
    ensures { result ≡ first_value labels }
{
    match labels.into_first() {
        Some(value) => value,
        None => None,
    }
}
