//! The check of a certificate against a net: whether each of its lines asks what is true of the net, or else which
//! is the first that doesn't. An accepted certificate's claim is true.
#![tactic(auto)]

mod bounds;
mod flows;
mod known_traps;
mod laws;
mod line_checks;
mod marked_traps;
mod scratch;
mod tree;
mod walk;
mod walk_moves;

pub use laws::{accepted_claims_are_true, accepted_or_a_false_line, one_false_line};
pub use line_checks::{Rejected, check};
pub use scratch::Scratch;
