ghost use Rattle.std.specs.Prelude.{◌≡◌, ◌↔◌, Some, IsTrue, chars};
ghost use Rattle.std.specs.List.{list_all};
ghost use Rattle.pnml_grammar.specs.Valued.{Valued};
ghost use Rattle.pnml_grammar.specs.ValuedTests.{is_id_character, is_valued_id, is_valued_name, is_valued_name_if_any, has_values_in_range, start, after, after_net, walks};

use crate::legal::{are_legal, is_legal};
use crate::walk::Walk;
use net_values::{Document, Item, MAX_ID_BYTES, MAX_NAME_BYTES, MAX_NETS, NetTree, Text};

/// Whether the values of the document are in range: 1 to [`MAX_NETS`] nets, ids of 1 to [`MAX_ID_BYTES`] bytes of legal
/// characters without spaces and control characters, names of at most [`MAX_NAME_BYTES`] bytes of legal characters,
/// weights from 1 on, pages that match, in all nets together at most [`MAX_PLACES`](net_values::MAX_PLACES) places and
/// as many of the other kinds as net_values says, and at most [`MAX_OPEN_ELEMENTS`](net_values::MAX_OPEN_ELEMENTS)
/// elements open in the canonical text. It takes no memory.
pub fn is_valued(document: &Document) -> bool
    ensures { IsTrue result ↔ Valued document.now }
{
    let nets = document.nets.as_slice();
    1 <= nets.len() && nets.len() <= MAX_NETS && are_valued(nets)
}

/// Whether the nets are in range, and within the limits together.
fn are_valued(nets: &[NetTree]) -> bool
    ensures { result ≡ walks (Some start) nets.now }
{
    let mut walk = Walk::new();
    for net in nets {
        match after_net(walk, net) {
            Some(beyond) => walk = beyond,
            None => return false,
        }
    }
    true
}

/// After the items of one net more, where that is in range and its pages match.
fn after_net(walk: Walk, net: &NetTree) -> Option<Walk>
    ensures { result ≡ after_net walk net.now }
{
    if is_valued_id(&net.id) && is_valued_name_if_any(&net.name) {
        after_items(walk, net.items.as_slice())
    } else {
        None
    }
}

/// After the items, where they are in range and match.
fn after_items(walk: Walk, items: &[Item]) -> Option<Walk>
    ensures { result ≡ after (Some walk) items.now }
{
    let mut walk = walk;
    for item in items {
        if !has_values_in_range(item) {
            return None;
        }
        match walk.past(item) {
            Some(beyond) => walk = beyond,
            None => return None,
        }
    }
    if walk.opened == 0 { Some(walk) } else { None }
}

fn has_values_in_range(item: &Item) -> bool
    ensures { result ≡ has_values_in_range item.now }
{
    match item {
        Item::Page(page) => is_valued_id(&page.id) && is_valued_name_if_any(&page.name),
        Item::PageEnd => true,
        Item::Place(place) => {
            // read, so that its range is known: each number that fits is a marking
            let _initial = place.initial;
            is_valued_id(&place.id) && is_valued_name_if_any(&place.name)
        }
        Item::Transition(transition) => is_valued_id(&transition.id)
            && is_valued_name_if_any(&transition.name),
        Item::RefPlace(node) | Item::RefTransition(node) => {
            is_valued_id(&node.id)
                && is_valued_name_if_any(&node.name)
                && is_valued_id(&node.target)
        }
        Item::Arc(arc) => {
            is_valued_id(&arc.id)
                && is_valued_name_if_any(&arc.name)
                && is_valued_id(&arc.source)
                && is_valued_id(&arc.target)
                && arc.weight >= 1
        }
    }
}

fn is_valued_name_if_any(name: &Option<Text>) -> bool
    ensures { result ≡ is_valued_name_if_any name.now }
{
    match name {
        Some(name) => is_valued_name(name),
        None => true,
    }
}

#[tactic(auto, using(crate::proofs::ValuedTestLaws::valued_name_is), unfolding(crate::specs::ValuedTests::is_valued_name))]
fn is_valued_name(name: &Text) -> bool
    ensures { result ≡ is_valued_name name.now }
{
    name.as_bytes().len() <= MAX_NAME_BYTES && are_legal(name.as_str())
}

#[tactic(auto, using(crate::proofs::ValuedTestLaws::valued_id_is), unfolding(crate::specs::ValuedTests::is_valued_id))]
fn is_valued_id(id: &Text) -> bool
    ensures { result ≡ is_valued_id id.now }
{
    let length = id.as_bytes().len();
    1 <= length && length <= MAX_ID_BYTES && are_id_characters(id.as_str())
}

fn are_id_characters(text: &str) -> bool
    ensures { result ≡ list_all is_id_character (chars text.now) }
{
    text.chars().all(|character| is_id_character(character))
}

/// A legal character that is no space and no control character of ASCII.
fn is_id_character(character: char) -> bool
    ensures { result ≡ is_id_character character }
{
    is_legal(character) && character > ' ' && character != '\u{7F}'
}
