//! The whole run: words to an order, an input to its outcome, and the text or the fault line written.
#![tactic(auto)]

mod answer;
mod certified;
mod intake;
mod laws;
mod order;
mod philosophers;
mod place_bounds;
mod reading;
mod replays;
mod resumes;
mod running;
mod sample;
mod semiflows;
mod siphons;
mod subs;
mod tables;
mod verdicts;
mod verified;
mod words;

pub use laws::{
    accepted_certificates_are_true, canonical_text_stays, deadlock_free_is_proved,
    made_certificates_are_accepted, one_meaning, one_outcome, printed_bounds_are_least,
    printed_bounds_hold, printed_sets_are_closed, printed_vectors_are_semiflows,
    proved_nets_are_live, quiet_runs_complete, samples_are_in_the_profile, some_outcome,
};
pub use order::{Budgets, Order, Setting, Task};
pub use philosophers::sample_net;
pub use running::run;
pub use tables::{OPTIONS, TASKS, option_words, task_words};
pub use words::{Words, read_words};
