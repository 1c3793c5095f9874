//! The grammar of the documents that are read: the tokens of PNML's text, XML 1.0 in a narrow profile, what
//! it means that one occurs at an offset, what it means that tokens spell a document, and the one text that
//! is written for it. At most one token occurs at an offset, and bytes spell at most one document or have
//! one fault.
#![tactic(auto)]

mod element;
mod laws;
mod legal;
mod names;
mod reason;
mod token;
mod valued;
mod walk;

pub use element::{AttributeKind, Context, ElementKind};
pub use laws::{
    a_document_is_valued_or_not, a_document_or_a_fault, a_reason_at_each_fault, a_token_or_none,
    canonical_text_spells_its_document, canonical_text_tells_documents_apart, numerals_are_read,
    one_answer, one_document, one_net_is_spelled_as_before, one_token,
};
pub use legal::{is_legal_character, is_legal_text};
pub use names::{ATTRIBUTES, ELEMENTS, Names, attribute_names, element_names, find, find_in};
pub use reason::{Counted, Reason};
pub use token::{Attribute, Attributes, Token};
pub use valued::is_valued;

#[cfg(test)]
mod tests;
