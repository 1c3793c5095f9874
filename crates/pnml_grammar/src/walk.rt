ghost use Rattle.std.specs.Prelude.{◌≡◌, ◌≤◌};
ghost use Rattle.pnml_grammar.specs.Valued.{item_height, name_height};
ghost use Rattle.pnml_grammar.specs.ValuedTests.{start, past};

use net_values::{
    Item, MAX_ARCS, MAX_OPEN_ELEMENTS, MAX_PAGES, MAX_PLACES, MAX_REFERENCES, MAX_TRANSITIONS, Text,
};

/// What was passed before an item: how many pages are open there, and how many items of each kind there are.
#[derive(Clone, Copy)]
pub(crate) struct Walk {
    pub(crate) opened: usize,
    pub(crate) places: usize,
    pub(crate) transitions: usize,
    pub(crate) arcs: usize,
    pub(crate) references: usize,
    pub(crate) pages: usize,
}

impl Walk {
    /// Before the first item of the first net.
    pub(crate) fn new() -> Walk
        ensures { result ≡ start }
    {
        Walk {
            opened: 0,
            places: 0,
            transitions: 0,
            arcs: 0,
            references: 0,
            pages: 0,
        }
    }

    /// After one item more. There is no way past the end of a page where none is open, nor past an item that
    /// is one too many or too deep.
    pub(crate) fn past(self, item: &Item) -> Option<Walk>
        ensures { result ≡ past self item.now }
    {
        // the root and the net are open around the pages
        if self.opened > MAX_OPEN_ELEMENTS - 2 - height(item) {
            return None;
        }
        match item {
            Item::Page(_) if self.pages < MAX_PAGES => Some(Walk {
                opened: self.opened + 1,
                pages: self.pages + 1,
                ..self
            }),
            Item::PageEnd if self.opened > 0 => Some(Walk {
                opened: self.opened - 1,
                ..self
            }),
            Item::Place(_) if self.places < MAX_PLACES => Some(Walk {
                places: self.places + 1,
                ..self
            }),
            Item::Transition(_) if self.transitions < MAX_TRANSITIONS => Some(Walk {
                transitions: self.transitions + 1,
                ..self
            }),
            Item::RefPlace(_) | Item::RefTransition(_) if self.references < MAX_REFERENCES => Some(
                Walk {
                    references: self.references + 1,
                    ..self
                },
            ),
            Item::Arc(_) if self.arcs < MAX_ARCS => Some(Walk {
                arcs: self.arcs + 1,
                ..self
            }),
            _ => None,
        }
    }
}

/// How many elements the item has open in the canonical text, at most.
fn height(item: &Item) -> usize
    ensures value { result ≡ item_height item.now }
    ensures bound { result ≤ 3 }
{
    match item {
        Item::Page(page) => 1 + name_height(&page.name),
        Item::PageEnd => 0,
        Item::Place(place) if place.initial != 0 => 3,
        Item::Place(place) => 1 + name_height(&place.name),
        Item::Transition(transition) => 1 + name_height(&transition.name),
        Item::RefPlace(node) | Item::RefTransition(node) => 1 + name_height(&node.name),
        Item::Arc(arc) if arc.weight != 1 => 3,
        Item::Arc(arc) => 1 + name_height(&arc.name),
    }
}

fn name_height(name: &Option<Text>) -> usize
    ensures value { result ≡ name_height name.now }
    ensures bound { result ≤ 2 }
{
    match name {
        Some(_) => 2,
        None => 0,
    }
}
