//! A search for minimal siphons in several runs: the classes that a run leaves pending as lines of text, read by the
//! next run, so that all runs together give what one search gives.
#![tactic(auto)]

mod class_lines;
mod disjoint;
mod fault;
mod laws;
mod printing;
mod reading;
mod resumed;
#[cfg(test)]
mod tests;

pub use fault::PendingFault;
pub use laws::{
    cut_classes_are_parted, lists_of_runs_are_one_search, one_reading, some_reading, some_run,
    tokens_are_read_back, trees_of_runs_are_one_search,
};
pub use printing::resume_text;
pub use reading::read_pending;
pub use resumed::{Resumed, resume};
