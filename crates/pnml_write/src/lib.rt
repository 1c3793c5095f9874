//! Canonical text: the one spelling of PNML (ISO/IEC 15909-2) that a document is written in. What is written
//! is proved to be exactly that spelling, for every document, and to spell the document where it is valued.
#![tactic(auto)]

mod document;
mod elements;
mod escapes;
mod items;
mod nodes;

pub use document::canonical;

#[cfg(test)]
mod tests;
