//! Structural boundedness: the sub-semiflows of places, which bound a place whatever the initial marking is.
#![tactic(auto)]

mod cuts;
mod extremal;
mod laws;
mod sub_texts;
#[cfg(test)]
mod tests;

pub use extremal::{covered, sub_semiflows};
pub use laws::{cuts_are_extremal, sub_semiflows_bound_places};
pub use sub_texts::sub_text;
