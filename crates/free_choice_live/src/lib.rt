//! Liveness of free-choice nets, by Commoner's condition.
#![tactic(auto)]

mod laws;
mod live_texts;
mod liveness;

pub use laws::{commoner_gives_liveness, live_nets_never_die};
pub use live_texts::live_text;
pub use liveness::{Liveness, live};
