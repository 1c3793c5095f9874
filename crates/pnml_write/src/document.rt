ghost use Rattle.std.specs.Prelude.{◌≡◌, ◌++◌, IfOk, OnOk, codes};
ghost use Rattle.pnml_grammar.specs.Canon.{canon, name_text, items_text, net_text, nets_text};
ghost use Rattle.pnml_grammar.specs.Documents.{DocBytes};
ghost use Rattle.pnml_grammar.specs.Valued.{Valued};
ghost use Rattle.pnml_write.specs.Elements.{after_attributes};

use crate::elements::{push_attribute, push_name_if_any, push_named_rest};
use crate::items::push_items;
use net_values::{Document, NetTree, NoMemory, Text};
use std::alloc::Global;

/// The XML declaration and the start tag of `pnml` (ISO/IEC 15909-2).
const HEAD: &str =
    "<?xml version=\"1.0\" encoding=\"UTF-8\"?><pnml xmlns=\"http://www.pnml.org/version-2009/grammar/pnml\">";

/// The type of a net, a place/transition net, as an attribute (ISO/IEC 15909-2).
const NET_TYPE: &str = " type=\"http://www.pnml.org/version-2009/grammar/ptnet\"";

/// The canonical text of a document: one line, without white space between elements, that ends with a
/// line feed. It can be longer than the bytes that the document was read from. Where the document is valued,
/// its text spells it.
pub fn canonical(alloc: Global, document: &Document) -> Result<Text, NoMemory>
    ensures exact { IfOk result (λ text. text ≡ canon document.now) }
    ensures spells { IfOk result (λ text. Valued document.now → DocBytes document.now text) }
{
    let mut text = Text::new(alloc);
    text.push(HEAD)?;
    push_nets(&mut text, document.nets.as_slice())?;
    text.push("</pnml>\n")?;
    Ok(text)
}

/// Appends the nets in order.
fn push_nets(text: &mut Text, nets: &[NetTree]) -> Result<(), NoMemory>
    ensures { OnOk result (text.new ≡ text.old ++ nets_text nets.now) }
{
    for net in nets {
        push_net(text, net)?;
    }
    Ok(())
}

/// Appends a net.
fn push_net(text: &mut Text, net: &NetTree) -> Result<(), NoMemory>
    ensures { OnOk result (text.new ≡ text.old ++ net_text net.now) }
{
    push_attribute(text, "<net id=\"", &net.id)?;
    text.push(NET_TYPE)?;
    push_net_rest(text, net)
}

/// Appends what follows a net's attributes.
fn push_net_rest(text: &mut Text, net: &NetTree) -> Result<(), NoMemory>
    ensures { let children = name_text net.now.name ++ items_text net.now.items in
        OnOk result (text.new ≡ text.old ++ after_attributes children (codes "</net>")) }
{
    if net.items.len() == 0 {
        return push_named_rest(text, &net.name, "</net>");
    }
    text.push(">")?;
    push_name_if_any(text, &net.name)?;
    push_items(text, net.items.as_slice())?;
    text.push("</net>")
}
