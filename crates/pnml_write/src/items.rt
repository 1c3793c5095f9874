ghost use Rattle.std.specs.Prelude.{◌≡◌, ◌∷◌, ◌++◌, ◌<◌, IfOk, IfNone, IfSome, OnOk, length};
ghost use Rattle.pnml_grammar.specs.Canon.{item_text, items_text};
ghost use Rattle.pnml_write.specs.Pages.{BeginsWithoutEmptyPage};

use crate::nodes::{
    push_arc, push_empty_page, push_page_start, push_place, push_reference, push_transition,
};
use net_values::{Item, NoMemory, PageNode, Text};

/// Appends the items in order.
pub(crate) fn push_items(text: &mut Text, items: &[Item]) -> Result<(), NoMemory>
    ensures { OnOk result (text.new ≡ text.old ++ items_text items.now) }
{
    let mut rest = items;
    while !rest.is_empty() {
        rest = push_first(text, rest)?;
    }
    Ok(())
}

/// Appends the item at the front, a page without items together with its end, and gives what
/// follows.
fn push_first<'a>(text: &mut Text, items: &'a [Item]) -> Result<&'a [Item], NoMemory>
    requires { 0 < length items.now }
    ensures text { IfOk result (λ rest.
        text.new ++ items_text rest.now ≡ text.old ++ items_text items.now) }
    ensures shorter { IfOk result (λ rest. length rest.now < length items.now) }
{
    match empty_page(items) {
        Some((page, rest)) => {
            push_empty_page(text, page)?;
            Ok(rest)
        }
        None => {
            push_item(text, &items[0])?;
            Ok(&items[1..])
        }
    }
}

/// A page without items at the front, and the items after it.
fn empty_page(items: &[Item]) -> Option<(&PageNode, &[Item])>
    ensures some { IfSome result (λ found.
        items.now ≡ Item.Page found.0.now ∷ Item.PageEnd ∷ found.1.now) }
    ensures none { IfNone result (BeginsWithoutEmptyPage items.now) }
{
    match items {
        [Item::Page(page), Item::PageEnd, rest @ ..] => Some((page, rest)),
        _ => None,
    }
}

/// Appends one item.
fn push_item(text: &mut Text, item: &Item) -> Result<(), NoMemory>
    ensures { OnOk result (text.new ≡ text.old ++ item_text item.now) }
{
    match item {
        Item::Page(page) => push_page_start(text, page),
        Item::PageEnd => text.push("</page>"),
        Item::Place(place) => push_place(text, place),
        Item::Transition(transition) => push_transition(text, transition),
        Item::RefPlace(node) => {
            push_reference(text, "<referencePlace id=\"", node, "</referencePlace>")
        }
        Item::RefTransition(node) => push_reference(
            text,
            "<referenceTransition id=\"",
            node,
            "</referenceTransition>",
        ),
        Item::Arc(arc) => push_arc(text, arc),
    }
}
