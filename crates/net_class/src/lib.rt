//! What a net is by its arcs and its siphons: whether it is ordinary, a state machine, a marked graph and
//! free-choice, each exactly and without taking memory; and whether it meets Commoner's condition.
#![tactic(auto)]

mod classes;
mod membership;
mod neighbours;
mod owners;
mod places;
mod takers;
#[cfg(test)]
mod tests;
mod transitions;
mod verdict;

pub use classes::class;
pub use membership::Class;
pub use verdict::{Verdict, commoner};
