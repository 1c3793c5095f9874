ghost use Rattle.std.specs.Prelude.{◌≡◌, ◌∷◌, ◌++◌, [], OnOk};
ghost use Rattle.net_values.specs.declared.document.Item.TheVariants.{Page, PageEnd};
ghost use Rattle.pnml_grammar.specs.Contents.{nothing, one_item};
ghost use Rattle.pnml_grammar.specs.Reasons.{has_some, is_second, has_all_nets};
ghost use Rattle.pnml_decode.specs.Views.{given, Gains};

use crate::item_parts::ItemParts;
use net_values::{Document, Item, List, MAX_NETS, NetTree, Nets, NoMemory, PageNode, Text};
use pnml_grammar::{Context, ElementKind};
use std::alloc::Global;

/// What the whole children of an open element have given so far: the documents of roots; nets; the
/// items of a net; names and numbers, each with a value where it has a text; the texts of a name; the
/// bytes of such a text so far; and the numbers of a number's text.
#[derive(Drop)]
pub(crate) struct Content {
    pub(crate) documents: List<Document>,
    pub(crate) nets: Nets,
    pub(crate) items: ItemParts,
    pub(crate) names: List<Option<Text>>,
    pub(crate) numbers: List<Option<u64>>,
    pub(crate) texts: List<Text>,
    pub(crate) bytes: Text,
    pub(crate) numerals: List<u64>,
}

impl Content {
    /// Nothing yet, which takes no memory until it grows.
    pub(crate) fn new(alloc: Global) -> Content
        ensures { given result ≡ nothing }
    {
        Content {
            documents: List::new(alloc),
            nets: Nets::new(alloc),
            items: ItemParts::new(alloc),
            names: List::new(alloc),
            numbers: List::new(alloc),
            texts: List::new(alloc),
            bytes: Text::new(alloc),
            numerals: List::new(alloc),
        }
    }

    /// Whether an element of the kind would be the second root, name, number or text.
    pub(crate) fn has(&self, context: Context, element: ElementKind) -> bool
        ensures { result ≡ is_second context (given self.now) element }
    {
        match element {
            ElementKind::Pnml => has_some(&self.documents),
            ElementKind::Name => has_some(&self.names),
            ElementKind::InitialMarking | ElementKind::Inscription => has_some(&self.numbers),
            ElementKind::Text if context == Context::Name => has_some(&self.texts),
            ElementKind::Text => has_some(&self.numerals),
            _ => false,
        }
    }

    /// Whether an element of the kind would be a net more than a document may have.
    pub(crate) fn has_all_nets(&self, element: ElementKind) -> bool
        ensures { result ≡ has_all_nets (given self.now) element }
    {
        match element {
            ElementKind::Net => MAX_NETS <= self.nets.len(),
            _ => false,
        }
    }

    #[tactic(auto, using(crate::proofs::Giving::gave_documents))]
    pub(crate) fn give_document(&mut self, document: Document) -> Result<(), NoMemory>
        ensures { OnOk result (Gains self.old self.new (record nothing { documents = document ∷ [] })) }
    {
        self.documents.push(document)
    }

    #[tactic(auto, using(crate::proofs::Giving::gave_nets))]
    pub(crate) fn give_net(&mut self, net: NetTree) -> Result<(), NoMemory>
        ensures { OnOk result (Gains self.old self.new (record nothing { nets = net ∷ [] })) }
    {
        self.nets.push(net)
    }

    #[tactic(auto, using(crate::proofs::Giving::gave_items))]
    pub(crate) fn give_item(&mut self, item: Item) -> Result<(), NoMemory>
        ensures { OnOk result (Gains self.old self.new (one_item item)) }
    {
        self.items.push(item)
    }

    #[tactic(auto, using(crate::proofs::Giving::gave_page))]
    pub(crate) fn give_page(&mut self, page: PageNode, items: ItemParts) -> Result<(), NoMemory>
        ensures { OnOk result (Gains self.old self.new
            (record nothing { items = (Page page ∷ items) ++ PageEnd ∷ [] })) }
    {
        self.items.push(Item::Page(page))?;
        self.items.append(items)?;
        self.items.push(Item::PageEnd)
    }

    #[tactic(auto, using(crate::proofs::Giving::gave_names))]
    pub(crate) fn give_name(&mut self, name: Option<Text>) -> Result<(), NoMemory>
        ensures { OnOk result (Gains self.old self.new (record nothing { names = name ∷ [] })) }
    {
        self.names.push(name)
    }

    #[tactic(auto, using(crate::proofs::Giving::gave_numbers))]
    pub(crate) fn give_number(&mut self, number: Option<u64>) -> Result<(), NoMemory>
        ensures { OnOk result (Gains self.old self.new (record nothing { numbers = number ∷ [] })) }
    {
        self.numbers.push(number)
    }

    #[tactic(auto, using(crate::proofs::Giving::gave_texts))]
    pub(crate) fn give_text(&mut self, text: Text) -> Result<(), NoMemory>
        ensures { OnOk result (Gains self.old self.new (record nothing { texts = text ∷ [] })) }
    {
        self.texts.push(text)
    }

    #[tactic(auto, using(crate::proofs::Giving::gave_bytes))]
    pub(crate) fn give_bytes(&mut self, bytes: Text) -> Result<(), NoMemory>
        ensures { OnOk result (Gains self.old self.new (record nothing { bytes = bytes })) }
    {
        append(&mut self.bytes, bytes)
    }

    #[tactic(auto, using(crate::proofs::Giving::gave_numerals))]
    pub(crate) fn give_numerals(&mut self, numerals: List<u64>) -> Result<(), NoMemory>
        ensures { OnOk result (Gains self.old self.new (record nothing { numerals = numerals })) }
    {
        self.numerals.append(numerals)
    }

    #[tactic(auto, using(crate::proofs::Giving::gave_numerals))]
    pub(crate) fn give_numeral(&mut self, numeral: u64) -> Result<(), NoMemory>
        ensures { OnOk result (Gains self.old self.new (record nothing { numerals = numeral ∷ [] })) }
    {
        self.numerals.push(numeral)
    }
}

/// Appends a text. The first is moved.
fn append(text: &mut Text, more: Text) -> Result<(), NoMemory>
    ensures { OnOk result (text.new ≡ text.old ++ more) }
{
    if text.as_bytes().is_empty() {
        *text = more;
        Ok(())
    } else {
        text.push(more.as_str())
    }
}

#[tactic(auto, using(crate::proofs::Lists::has_some_is))]
pub(crate) fn has_some<T>(list: &List<T>) -> bool
    ensures { result ≡ has_some list.now }
{
    0 < list.len()
}
