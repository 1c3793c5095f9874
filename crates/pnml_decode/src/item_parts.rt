//! Items in parts, so that those of a page go into the page around it without being moved one by one.

ghost use Rattle.std.specs.Prelude.{◌≡◌, [], ◌∷◌, ◌++◌, IfOk, OnOk};

use net_values::{Item, Items, NoMemory};
use std::alloc::Global;
use std::marker::Model;

/// Items that grow at their end. Contracts see them as one list.
#[derive(Drop)]
pub(crate) struct ItemParts {
    parts: Vec<Items>,
    last: Items,
}

impl Model for ItemParts {
    ghost use Rattle.std.specs.Prelude.{List, ◌++◌};
    ghost use Rattle.std.specs.List.{flat_map};
    ghost use Rattle.net_values.specs.declared.document.Item.{Item as TheItem};

    ghost Value = { List TheItem };

    ghost view = { λ s. flat_map (λ (part : List TheItem). part) s.parts.items ++ s.last };
}

impl ItemParts {
    /// No items, which take no memory until they grow.
    pub(crate) fn new(alloc: Global) -> ItemParts
        ensures { result ≡ [] }
    {
        ItemParts {
            parts: Vec::new(alloc),
            last: Items::new(alloc),
        }
    }

    pub(crate) fn push(&mut self, item: Item) -> Result<(), NoMemory>
        ensures { OnOk result (self.new ≡ self.old ++ item ∷ []) }
    {
        self.last.push(item)
    }

    /// Appends others, whose parts are moved whole.
    pub(crate) fn append(&mut self, more: ItemParts) -> Result<(), NoMemory>
        ensures { OnOk result (self.new ≡ self.old ++ more) }
    {
        let ItemParts { mut parts, last } = more;
        let before = std::mem::replace(&mut self.last, last);
        self.parts.push(before)?;
        self.parts.append(&mut parts)?;
        Ok(())
    }

    /// The items as one list, into which each is moved once.
    pub(crate) fn into_items(self) -> Result<Items, NoMemory>
        ensures { IfOk result (λ items. items ≡ self) }
    {
        let ItemParts { parts, last } = self;
        if parts.is_empty() {
            return Ok(last);
        }
        let mut items = Items::new(*parts.allocator());
        for part in parts {
            items.append(part)?;
        }
        items.append(last)?;
        Ok(items)
    }
}
