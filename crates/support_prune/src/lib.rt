//! A pool of vectors none of whose supports is a subset of another's: it keeps a smallest support below
//! each vector that it was offered.
#![tactic(auto)]

mod mask;
mod pool;
mod support;
#[cfg(test)]
mod tests;

pub use pool::Pool;
