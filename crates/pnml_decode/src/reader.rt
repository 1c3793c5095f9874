ghost use Rattle.std.specs.Prelude.{◌≡◌, OnOk};
ghost use Rattle.pnml_grammar.specs.Machine.{start, close_element, finish, the_one};
ghost use Rattle.pnml_grammar.specs.declared.token.Token.TheVariants as tokens;
ghost use Rattle.pnml_decode.specs.Views.{view, Opens};
ghost use Rattle.pnml_decode.specs.Taking.{Takes};

use crate::content::Content;
use crate::counts::Counts;
use crate::open::Open;
use crate::reader_fault::ReaderFault;
use net_values::{Document, List, NoMemory, Text};
use pnml_grammar::{Attributes, Reason, Token};
use std::alloc::Global;

/// Reads a document token by token: the innermost open element, those around it from the outside
/// in, and how many counted elements have occurred.
#[derive(Drop)]
pub(crate) struct Reader {
    pub(crate) top: Open,
    pub(crate) under: Vec<Open>,
    pub(crate) counts: Counts,
}

impl Reader {
    /// No token has been taken.
    pub(crate) fn start(alloc: Global) -> Reader
        ensures { view result ≡ start }
    {
        Reader {
            top: Open::outermost(alloc),
            under: Vec::new(alloc),
            counts: Counts::none(),
        }
    }

    /// Takes the next token, or says the first reason that applies to it. Out of memory is said only where
    /// none does.
    pub(crate) fn take(&mut self, token: Token) -> Result<(), ReaderFault>
        ensures { Takes result self.old self.new token }
    {
        match token {
            Token::Declaration => Err(ReaderFault::Because(Reason::Misplaced)),
            Token::Comment | Token::Instruction => Ok(()),
            Token::Cdata(value) => self.top.take_cdata(value),
            Token::Start(name, attributes) => self.take_start(name, attributes),
            Token::Empty(name, attributes) => self.take_empty(name, attributes),
            Token::End(name) => self.take_end(&name),
            Token::Characters(value) => self.top.take_characters(value),
        }
    }

    /// The document, where the root is closed.
    pub(crate) fn finish(self) -> Option<Document>
        ensures { result ≡ finish (view self) }
    {
        let Reader { top, mut under, .. } = self;
        let Open { content, .. } = top;
        match under.pop() {
            Some(_) => None,
            None => the_one(content.documents),
        }
    }

    /// Opens an element.
    fn take_start(&mut self, name: Text, attributes: Attributes) -> Result<(), ReaderFault>
        ensures { Takes result self.old self.new (tokens.Start name attributes) }
    {
        let (context, counts) = self.admit(false, name.as_bytes(), attributes.as_slice())?;
        let opened = Open {
            context,
            name,
            attributes,
            content: Content::new(*self.under.allocator()),
        };
        self.open(opened)?;
        self.counts = counts;
        Ok(())
    }

    /// Opens an element and closes it.
    fn take_empty(&mut self, name: Text, attributes: Attributes) -> Result<(), ReaderFault>
        ensures { Takes result self.old self.new (tokens.Empty name attributes) }
    {
        let (context, counts) = self.admit(true, name.as_bytes(), attributes.as_slice())?;
        let alloc = *self.under.allocator();
        self.top.take_empty(alloc, context, attributes)?;
        self.counts = counts;
        Ok(())
    }

    /// Closes the innermost open element.
    fn take_end(&mut self, name: &Text) -> Result<(), ReaderFault>
        ensures { Takes result self.old self.new (tokens.End name.now) }
    {
        self.check_end(name)?;
        self.close()?;
        Ok(())
    }

    /// The element is the innermost from now on.
    fn open(&mut self, element: Open) -> Result<(), NoMemory>
        ensures { OnOk result (Opens self.old self.new element) }
    {
        self.under.push(std::mem::replace(&mut self.top, element))?;
        Ok(())
    }

    /// Closes the innermost open element.
    fn close(&mut self) -> Result<(), NoMemory>
        ensures { OnOk result (view self.new ≡ close_element (view self.old)) }
    {
        let alloc = *self.under.allocator();
        match self.under.pop() {
            Some(outer) => {
                let closed = std::mem::replace(&mut self.top, outer);
                self.top.take_element(alloc, closed)
            }
            None => Ok(()),
        }
    }
}

/// The one document that there is.
fn the_one(documents: List<Document>) -> Option<Document>
    ensures { result ≡ the_one documents }
{
    if documents.len() == 1 {
        documents.into_first()
    } else {
        None
    }
}
