use pnml_token::{Step, TokenFault, token_at};
use std::alloc::Global;

/// The number of tokens that occur one after the other from the front of the bytes to their end.
pub(crate) fn count(alloc: Global, bytes: &[u8]) -> Result<usize, TokenFault> {
    let mut offset = 0;
    let mut tokens = 0;
    for _ in 0..bytes.len() {
        match token_at(alloc, bytes, offset)? {
            Step::Token(_, end) => offset = end,
            Step::End => return Ok(tokens),
        }
        tokens += 1;
    }
    Ok(tokens)
}
