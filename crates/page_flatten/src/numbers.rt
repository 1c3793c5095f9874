ghost use Rattle.std.specs.Prelude.{◌≡◌, IfOk, IfErr};
ghost use Rattle.std.specs.Option.{option_map};
ghost use Rattle.page_flatten.specs.Elements.{entries};
ghost use Rattle.page_flatten.specs.Rules.{AreDistinct, ids_of};
ghost use Rattle.page_flatten.specs.Tables.{table_ids, item_entry};
ghost use Rattle.page_flatten.specs.Passes.{NamesRepeated};

use crate::fault::FlatFault;
use indexmap::IndexMap;
use net_values::{Item, NetTree, NoMemory, NodeKind, Text};
use std::alloc::Global;
use std::marker::Model;

/// The numbers of the elements: ids in first-seen order, each with the kind of node that its element
/// is, if it is one. Contracts see the list of both.
#[derive(Drop)]
pub struct Numbers<'d> {
    table: IndexMap<&'d str, Option<NodeKind>>,
}

impl<'d> Model for Numbers<'d> {
    ghost use Rattle.std.specs.Prelude.{List, ℕ, Option, map};
    ghost use Rattle.net_values.specs.declared.node_kind.NodeKind.{NodeKind};

    ghost Value = { List (List ℕ × Option NodeKind) };

    ghost view = { λ n. map (λ entry. (entry.0.now, entry.1)) n.table.entries };
}

impl<'d> Numbers<'d> {
    ghost use Rattle.std.specs.Prelude.{◌≡◌, ℕ, [], ◌∷◌, ◌++◌, Some, IfSome, IfNone, IfOk, IfErr, OnOk, MatchBool, slice_get};
    ghost use Rattle.net_values.specs.declared.node_kind.NodeKind.{NodeKind};
    ghost use Rattle.page_flatten.specs.Elements.{entries};
    ghost use Rattle.page_flatten.specs.Rules.{AreDistinct, ids_of};
    ghost use Rattle.page_flatten.specs.Tables.{table_ids, item_entry, IsNumbered, IsRepeated};
    ghost use Rattle.page_flatten.specs.Passes.{NamesRepeated};

    /// No ids.
    pub fn new(alloc: Global) -> Numbers<'d>
        ensures { result ≡ [] }
    {
        Numbers {
            table: IndexMap::new(alloc),
        }
    }

    /// Numbers the elements of a net: the net, then its pages, nodes and arcs in document order. The
    /// first one whose id an earlier element has is refused.
    pub fn add_net(&mut self, alloc: Global, net: &'d NetTree) -> Result<(), FlatFault>
        requires { AreDistinct (table_ids self.old) }
        ensures numbered { OnOk result (self.new ≡ self.old ++ entries net.now) }
        ensures distinct { OnOk result (AreDistinct (table_ids self.new)) }
        ensures fault { IfErr result (NamesRepeated (table_ids self.old ++ ids_of net.now)) }
    {
        self.add_element(alloc, &net.id, None)?;
        for item in net.items.as_slice() {
            self.add_item(alloc, item)?;
        }
        Ok(())
    }

    /// Numbers the element that begins with an item, if one does. It is refused where an earlier
    /// element has its id.
    fn add_item(&mut self, alloc: Global, item: &'d Item) -> Result<(), FlatFault>
        ensures ok { OnOk result (IsNumbered self.old self.new (item_entry item.now)) }
        ensures fault { IfErr result (IsRepeated self.old (item_entry item.now)) }
    {
        match entry_of_item(item) {
            Some(entry) => self.add_element(alloc, entry.id, entry.kind),
            None => Ok(()),
        }
    }

    /// Numbers an element. It is refused where an earlier one has its id.
    fn add_element(
        &mut self,
        alloc: Global,
        id: &'d Text,
        kind: Option<NodeKind>,
    ) -> Result<(), FlatFault>
        ensures ok { OnOk result (IsNumbered self.old self.new (Some (id.now, kind))) }
        ensures fault { IfErr result (IsRepeated self.old (Some (id.now, kind))) }
    {
        if self.add(id, kind)? {
            Ok(())
        } else {
            Err(FlatFault::DuplicateId(id.copy(alloc)?))
        }
    }

    /// Gives the id the next number and says so, unless an earlier element has it.
    fn add(&mut self, id: &'d Text, kind: Option<NodeKind>) -> Result<bool, NoMemory>
        ensures { IfOk result (λ added. MatchBool added
            ((self.new ≡ self.old ++ (id.now, kind) ∷ [])
            × ((n : ℕ) → slice_get (table_ids self.old) n ≡ Some id.now → ⊥))
            ((n : ℕ) × (slice_get (table_ids self.old) n ≡ Some id.now))) }
    {
        let old = self.table.insert(id.as_str(), kind)?;
        Ok(old.is_none())
    }

    /// The number of the node with this id, and its kind, if there is one.
    pub fn node(&self, id: &Text) -> Option<(usize, NodeKind)>
        requires { AreDistinct (table_ids self.now) }
        ensures found { IfSome result (λ r. slice_get self.now r.0 ≡ Some (id.now, Some r.1)) }
        ensures none { IfNone result
            ((n : ℕ) (kind : NodeKind) → slice_get self.now n ≡ Some (id.now, Some kind) → ⊥) }
    {
        let (number, kind) = self.element(id)?;
        Some((number, kind?))
    }

    /// The number of the element with this id, and what node it is, if there is one.
    fn element(&self, id: &Text) -> Option<(usize, Option<NodeKind>)>
        ensures found { IfSome result (λ r. slice_get self.now r.0 ≡ Some (id.now, r.1)) }
        ensures none { IfNone result
            ((n : ℕ) → slice_get (table_ids self.now) n ≡ Some id.now → ⊥) }
    {
        match self.table.get_full(id.as_str()) {
            Some((number, _, kind)) => Some((number, *kind)),
            None => None,
        }
    }
}

/// The numbers of the elements of a net. The first one whose id an earlier element has is refused.
pub fn number_elements<'d>(alloc: Global, net: &'d NetTree) -> Result<Numbers<'d>, FlatFault>
    ensures numbered { IfOk result (λ numbers. numbers ≡ entries net.now) }
    ensures distinct { IfOk result (λ numbers. AreDistinct (table_ids numbers)) }
    ensures fault { IfErr result (NamesRepeated (ids_of net.now)) }
{
    let mut numbers = Numbers::new(alloc);
    numbers.add_net(alloc, net)?;
    Ok(numbers)
}

/// The id of an element and the kind of node that it is, if it is one.
#[derive(Clone, Copy)]
struct Entry<'d> {
    id: &'d Text,
    kind: Option<NodeKind>,
}

impl<'d> Entry<'d> {
    fn new(id: &'d Text, kind: Option<NodeKind>) -> Entry<'d>
        ensures id { result.id.now ≡ id.now }
        ensures kind { result.kind ≡ kind }
    {
        Entry { id, kind }
    }
}

/// The element that begins with an item, if one does.
fn entry_of_item(item: &Item) -> Option<Entry<'_>>
    ensures { option_map (λ entry. (entry.id.now, entry.kind)) result ≡ item_entry item.now }
{
    let places = Some(NodeKind::Place);
    let transitions = Some(NodeKind::Transition);
    match item {
        Item::Page(page) => Some(Entry::new(&page.id, None)),
        Item::PageEnd => None,
        Item::Place(node) => Some(Entry::new(&node.id, places)),
        Item::Transition(node) => Some(Entry::new(&node.id, transitions)),
        Item::RefPlace(node) => Some(Entry::new(&node.id, places)),
        Item::RefTransition(node) => Some(Entry::new(&node.id, transitions)),
        Item::Arc(arc) => Some(Entry::new(&arc.id, None)),
    }
}
