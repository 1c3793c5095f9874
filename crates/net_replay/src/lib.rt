//! A run of the plant or of a simulator, given as a list of transitions, fired on a net: the marking that it
//! reaches and how often each transition fired, or the first member that can't fire and why.
#![tactic(auto)]

mod firings;
mod laws;
mod numbers;
mod replay_texts;
mod replayed;
mod replaying;
#[cfg(test)]
mod tests;

pub use firings::{FiringFault, Firings, read_firings};
pub use laws::{a_firing_list_or_a_bad_line, a_replay_or_a_failure, one_firing_list, one_replay};
pub use replay_texts::replay_text;
pub use replayed::{Replay, ReplayFault};
pub use replaying::replay;
