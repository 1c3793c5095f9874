//! What the program tells: the texts of the tasks, each made whole and exactly as it is defined, and the line
//! and the status of each refusal.
#![tactic(auto)]

mod bound_texts;
mod fault_lines;
mod lines;
mod net_texts;
mod reason_words;
mod refusal;
mod semiflow_texts;
mod set_texts;
mod summary;
#[cfg(test)]
mod tests;
mod verdict_texts;
mod verified_texts;

pub use bound_texts::bounds_text;
pub use fault_lines::tell;
pub use lines::{push_answer, push_count};
pub use net_texts::{check_text, class_text};
pub use refusal::{Excess, Refusal, status};
pub use semiflow_texts::{place_semiflows_text, push_semiflows, transition_semiflows_text};
pub use set_texts::{siphons_text, traps_text};
pub use summary::{Summary, sample_text};
pub use verdict_texts::{commoner_text, push_siphon};
pub use verified_texts::verified_text;
