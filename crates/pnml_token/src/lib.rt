//! What occurs at an offset: the one token that the definition of pnml_grammar puts there, with its end, or
//! the answer that none does. White space at the front of bytes, which readers of tokens' texts skip too.
//!
//! Each reader is headed by the production of XML 1.0 (fifth edition) that it reads, less the front that told
//! what comes. A reader gives what it read and the bytes that follow.
#![tactic(auto)]

mod attributes;
mod characters;
mod empty_tags;
mod fed;
mod held;
mod legality;
mod markup;
mod miss;
mod name_bytes;
mod ranks;
mod references;
mod runs;
mod scan;
mod token;
mod tokens;
mod values;

pub use empty_tags::past_empty_tag;
pub use fed::Fed;
pub use runs::{is_space, is_white, past_space};
pub use token::{Step, TokenFault, token_at};
pub use tokens::Tokens;

#[cfg(test)]
mod tests;
