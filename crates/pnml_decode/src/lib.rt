//! Reads documents: `decode` gives the one document that the bytes spell, and where they spell none the
//! first fault, with its offset and its reason.
#![tactic(auto)]

mod attributes;
mod checks;
mod content;
mod counts;
mod decoder;
mod document;
mod elements;
mod fault;
mod input;
mod item_parts;
mod nodes;
mod number;
mod open;
mod progress;
mod reader;
mod reader_fault;
mod tag_values;

pub use decoder::Decoder;
pub use document::decode;
pub use fault::DocFault;
pub use pnml_grammar::{Counted, Reason};

#[cfg(test)]
mod tests;
