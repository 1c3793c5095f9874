ghost use Rattle.std.specs.Prelude.{◌≡◌, ℕ, ◌<◌, ◌≤◌, All, IfOk, IfErr, length};
ghost use Rattle.net_values.specs.FlatNets.{net_of};
ghost use Rattle.net_values.specs.Nodes.{transition_id};
ghost use Rattle.net_replay.specs.FiringLists.{ListsFirings, IsBadFiringLine};

use crate::numbers::{number_of, number_transitions};
use certificates::next_line;
use net_values::{CopyList, FlatNet, NoMemory};
use std::alloc::Global;

/// The transitions of a net that are to fire one after the other, by their numbers.
pub type Firings = CopyList<u32>;

/// Why bytes weren't read as a firing list.
#[derive(Clone, Copy, Debug, PartialEq, Eq)]
pub enum FiringFault {
    /// The system refused memory.
    NoMemory,
    /// This line, counted from 1, is the first that isn't the id of a transition or lacks its line feed.
    BadLine(u64),
}

impl From<NoMemory> for FiringFault {
    ghost use Rattle.net_replay.specs.declared.firings.FiringFault.{FiringFault};

    ghost from_gives = { λ _ fault. fault ≡ FiringFault.NoMemory };

    fn from(_error: NoMemory) -> FiringFault {
        FiringFault::NoMemory
    }
}

/// The firing list that the bytes spell, each line of which is the id of a transition and a line feed: per
/// line the number of the lowest transition whose id it is. Where they spell none, the fault is the first
/// line, counted from 1, that isn't the id of a transition or lacks its line feed.
pub fn read_firings(alloc: Global, net: &FlatNet, rest: &[u8]) -> Result<Firings, FiringFault>
    ensures listed { IfOk result (ListsFirings (net_of net.now) (transition_id net.now) rest.now) }
    ensures within { IfOk result (All (λ t. t < (net_of net.now).transitions)) }
    ensures short { IfOk result (λ firings. length firings ≤ length rest.now) }
    ensures bad { IfErr result (λ fault. (line : ℕ) → fault ≡ FiringFault.BadLine line →
        IsBadFiringLine (net_of net.now) (transition_id net.now) rest.now line) }
{
    let numbers = number_transitions(alloc, net)?;
    let mut firings = CopyList::new(alloc);
    let mut left = rest;
    'lines: while let Some((line, after)) = next_line(left) {
        match number_of(&numbers, line) {
            Some(t) => firings.push(t)?,
            None => return Err(FiringFault::BadLine(firings.len() as u64 + 1)),
        }
        left = after;
    }
    if left.is_empty() {
        Ok(firings)
    } else {
        Err(FiringFault::BadLine(firings.len() as u64 + 1))
    }
}
