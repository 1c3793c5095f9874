ghost use Rattle.std.specs.Prelude.{◌≡◌};

use net_values::{Marking, NoMemory, Vector};

/// What a firing list does to a net.
#[derive(Drop)]
pub struct Replay {
    /// The marking that it reaches from the initial one.
    pub marking: Marking,
    /// Per transition how often it fired.
    pub counts: Vector,
    /// Whether the counts are a semiflow of transitions: something fired, and the initial marking is there
    /// again.
    pub semiflow: bool,
}

/// Why a firing list wasn't replayed.
#[derive(Clone, Copy, Debug, PartialEq, Eq)]
pub enum ReplayFault {
    /// The system refused memory.
    NoMemory,
    /// This member, counted from 0, isn't enabled, and this is the lowest place that lacks tokens.
    NotEnabled(usize, usize),
    /// At this member, counted from 0, this is the lowest place that would have more than 2^127 - 1 tokens.
    WideMarking(usize, usize),
}

impl From<NoMemory> for ReplayFault {
    ghost use Rattle.net_replay.specs.declared.replayed.ReplayFault.{ReplayFault};

    ghost from_gives = { λ _ fault. fault ≡ ReplayFault.NoMemory };

    fn from(_error: NoMemory) -> ReplayFault {
        ReplayFault::NoMemory
    }
}
