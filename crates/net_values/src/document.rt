use crate::list::List;
use crate::text::Text;

/// A document: its nets in the order in which they are written.
#[derive(Drop)]
pub struct Document {
    pub nets: Nets,
}

/// The nets of a document.
pub type Nets = List<NetTree>;

/// A net as it is written: pages occur flat among its items.
#[derive(Drop)]
pub struct NetTree {
    pub id: Text,
    pub name: Option<Text>,
    pub items: Items,
}

/// The items of a net in document order. Those of a page are between its `Page` and its `PageEnd`.
pub type Items = List<Item>;

impl Items {
    ghost use Rattle.std.specs.Prelude.{◌≡◌, IfSome, IsSomeAnd, slice_get, slice_set};
    ghost use Rattle.net_values.specs.Items.{IsPage, named};

    /// Gives the page that starts at item `i` a name. It takes no memory.
    pub fn name_page(&mut self, i: usize, name: Text)
        requires { IsSomeAnd (slice_get self.old i) IsPage }
        ensures { IfSome (slice_get self.old i) (λ page. self.new ≡ slice_set self.old i (named name page)) }
    {
        match self.replace(i, Item::PageEnd) {
            Item::Page(page) => self.set(
                i,
                Item::Page(PageNode {
                    id: page.id,
                    name: Some(name),
                }),
            ),
            _ => unreachable!(),
        }
    }
}

/// What may occur in a net or on a page (ISO/IEC 15909-2).
#[derive(Drop)]
pub enum Item {
    Page(PageNode),
    PageEnd,
    Place(PlaceNode),
    Transition(TransitionNode),
    RefPlace(RefNode),
    RefTransition(RefNode),
    Arc(ArcNode),
}

/// The start of a page.
#[derive(Drop)]
pub struct PageNode {
    pub id: Text,
    pub name: Option<Text>,
}

/// A place, with its initial marking in tokens.
#[derive(Drop)]
pub struct PlaceNode {
    pub id: Text,
    pub name: Option<Text>,
    pub initial: u64,
}

/// A transition.
#[derive(Drop)]
pub struct TransitionNode {
    pub id: Text,
    pub name: Option<Text>,
}

/// A reference node, which represents the node whose id is its target.
#[derive(Drop)]
pub struct RefNode {
    pub id: Text,
    pub name: Option<Text>,
    pub target: Text,
}

/// An arc from its source to its target, with its weight in tokens.
#[derive(Drop)]
pub struct ArcNode {
    pub id: Text,
    pub name: Option<Text>,
    pub source: Text,
    pub target: Text,
    pub weight: u64,
}
