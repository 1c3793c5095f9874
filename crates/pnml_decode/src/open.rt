ghost use Rattle.std.specs.Prelude.{◌≡◌, OnOk, option_to_list};
ghost use Rattle.pnml_grammar.specs.Contents.{nothing, gives, characters_content, cdata_content};
ghost use Rattle.pnml_grammar.specs.Numerals.{number_in};
ghost use Rattle.pnml_grammar.specs.OpenElements.{outermost};
ghost use Rattle.pnml_grammar.specs.Reasons.{characters_rows, cdata_rows, name_rows, number_rows};
ghost use Rattle.pnml_decode.specs.Taking.{Accepts};
ghost use Rattle.pnml_decode.specs.Views.{Gains, Receives, frame, given, given_by};

use crate::content::{Content, has_some};
use crate::nodes::{self, label};
use crate::number::number_in;
use crate::reader_fault::ReaderFault;
use net_values::{Document, Item, MAX_NAME_BYTES, NoMemory, Text};
use pnml_grammar::{Attributes, Context, Counted, Reason};
use pnml_token::is_white;
use std::alloc::Global;

/// An open element: what is in it, its tag, and what its whole children have given.
#[derive(Drop)]
pub(crate) struct Open {
    pub(crate) context: Context,
    pub(crate) name: Text,
    pub(crate) attributes: Attributes,
    pub(crate) content: Content,
}

impl Open {
    /// What is around the root.
    pub(crate) fn outermost(alloc: Global) -> Open
        ensures { frame result ≡ outermost }
    {
        Open {
            context: Context::Document,
            name: Text::new(alloc),
            attributes: Attributes::new(alloc),
            content: Content::new(alloc),
        }
    }

    /// Takes characters: bytes of a name, or a number; anywhere else they are white space.
    pub(crate) fn take_characters(&mut self, value: Text) -> Result<(), ReaderFault>
        ensures { Accepts result self.old self.new
            (characters_rows self.old.context (given self.old.content) value)
            (characters_content self.old.context value) }
    {
        match self.context {
            Context::NameText => self.take_name_bytes(value),
            Context::MarkingText | Context::WeightText => self.take_number(value.as_bytes()),
            Context::Skipped => Ok(()),
            _ if is_white(value.as_bytes()) => Ok(()),
            _ => Err(ReaderFault::Because(Reason::Misplaced)),
        }
    }

    /// Takes what a section of literal characters says, bytes of a name.
    pub(crate) fn take_cdata(&mut self, value: Text) -> Result<(), ReaderFault>
        ensures { Accepts result self.old self.new
            (cdata_rows self.old.context (given self.old.content) value)
            (cdata_content self.old.context value) }
    {
        match self.context {
            Context::NameText => self.take_name_bytes(value),
            Context::Skipped => Ok(()),
            _ => Err(ReaderFault::Because(Reason::Misplaced)),
        }
    }

    /// Takes bytes of a name, of which there are only so many.
    fn take_name_bytes(&mut self, value: Text) -> Result<(), ReaderFault>
        ensures { Accepts result self.old self.new
            (name_rows (given self.old.content) value)
            (record nothing { bytes = value }) }
    {
        let length = self.content.bytes.as_bytes().len() + value.as_bytes().len();
        if MAX_NAME_BYTES < length {
            return Err(ReaderFault::Because(Reason::TooMany(Counted::NameBytes)));
        }
        self.content.give_bytes(value)?;
        Ok(())
    }

    /// Takes the one number of a number's text, or white space.
    fn take_number(&mut self, value: &[u8]) -> Result<(), ReaderFault>
        ensures { Accepts result self.old self.new
            (number_rows self.old.context (given self.old.content) value.now)
            (record nothing { numerals = option_to_list (number_in self.old.context value.now) }) }
    {
        if is_white(value) {
            return Ok(());
        }
        let Some(number) = number_in(self.context, value) else {
            return Err(ReaderFault::Because(Reason::BadNumber));
        };
        if has_some(&self.content.numerals) {
            return Err(ReaderFault::Because(Reason::Misplaced));
        }
        self.content.give_numeral(number)?;
        Ok(())
    }

    /// Takes an element that is closed: what its children gave is made into what it gives.
    pub(crate) fn take_element(&mut self, alloc: Global, closed: Open) -> Result<(), NoMemory>
        ensures { OnOk result (Receives self.old self.new (given_by closed)) }
    {
        give(alloc, &mut self.content, closed)
    }

    /// Takes an element of an empty tag.
    pub(crate) fn take_empty(
        &mut self,
        alloc: Global,
        context: Context,
        attributes: Attributes,
    ) -> Result<(), NoMemory>
        ensures { OnOk result (Receives self.old self.new (gives context attributes nothing)) }
    {
        give_empty(alloc, &mut self.content, context, attributes)
    }
}

/// Gives the content what an element without children gives. For a node or an arc, of which there may be
/// many, no record of an open element is made.
fn give_empty(
    alloc: Global,
    outer: &mut Content,
    context: Context,
    attributes: Attributes,
) -> Result<(), NoMemory>
    ensures { OnOk result (Gains outer.old outer.new (gives context attributes nothing)) }
{
    match context {
        Context::Place => {
            outer.give_item(Item::Place(nodes::place(alloc, attributes, None, None)))
        }
        Context::Transition => {
            outer.give_item(Item::Transition(nodes::transition(alloc, attributes, None)))
        }
        Context::Arc => outer.give_item(Item::Arc(nodes::arc(alloc, attributes, None, None))),
        _ => {
            let closed = Open {
                context,
                name: Text::new(alloc),
                attributes,
                content: Content::new(alloc),
            };
            give(alloc, outer, closed)
        }
    }
}

/// Gives the content what the closed element gives.
fn give(alloc: Global, outer: &mut Content, closed: Open) -> Result<(), NoMemory>
    ensures { OnOk result (Gains outer.old outer.new (given_by closed)) }
{
    let Open {
        context,
        attributes,
        content,
        ..
    } = closed;
    match context {
        Context::Document | Context::Skipped => Ok(()),
        Context::Pnml => outer.give_document(Document { nets: content.nets }),
        Context::Net => outer.give_net(nodes::net(alloc, attributes, content)?),
        Context::Page => {
            let Content { names, items, .. } = content;
            outer.give_page(nodes::page(alloc, attributes, names), items)
        }
        Context::Place => {
            let Content { names, numbers, .. } = content;
            let (name, initial) = (label(names), label(numbers));
            outer.give_item(Item::Place(nodes::place(alloc, attributes, name, initial)))
        }
        Context::Transition => outer.give_item(Item::Transition(nodes::transition(
            alloc,
            attributes,
            label(content.names),
        ))),
        Context::Arc => {
            let Content { names, numbers, .. } = content;
            let (name, weight) = (label(names), label(numbers));
            outer.give_item(Item::Arc(nodes::arc(alloc, attributes, name, weight)))
        }
        Context::ReferencePlace => outer.give_item(Item::RefPlace(nodes::reference(
            alloc,
            attributes,
            content.names,
        ))),
        Context::ReferenceTransition => outer.give_item(Item::RefTransition(nodes::reference(
            alloc,
            attributes,
            content.names,
        ))),
        Context::Name => outer.give_name(content.texts.into_first()),
        Context::InitialMarking | Context::Inscription => {
            outer.give_number(content.numerals.into_first())
        }
        Context::NameText => outer.give_text(content.bytes),
        Context::MarkingText | Context::WeightText => outer.give_numerals(content.numerals),
    }
}
