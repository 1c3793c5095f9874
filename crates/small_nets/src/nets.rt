use net_values::{FlatNet, MAX_ARCS, MAX_PLACES, MAX_TRANSITIONS, NoMemory, Text};
use std::alloc::Global;

/// An arc of a place and a transition, with its weight. It leads to the place where the weight is positive,
/// and from it where that is negative.
pub type Arc = (usize, usize, i128);

/// The net with this initial marking, this number of transitions and these arcs. What a net can't have is
/// left out.
pub fn net_with(
    alloc: Global,
    marking: &[u64],
    transitions: usize,
    arcs: &[Arc],
) -> Result<FlatNet, NoMemory> {
    let mut net = FlatNet::new(alloc);
    for tokens in marking {
        if net.places() < MAX_PLACES {
            net.add_place(Text::new(alloc), *tokens)?;
        }
    }
    add_transitions(alloc, &mut net, transitions)?;
    add_arcs(&mut net, arcs)?;
    Ok(net)
}

fn add_transitions(alloc: Global, net: &mut FlatNet, count: usize) -> Result<(), NoMemory> {
    for _ in 0..count {
        if net.transitions() < MAX_TRANSITIONS {
            net.add_transition(Text::new(alloc))?;
        }
    }
    Ok(())
}

fn add_arcs(net: &mut FlatNet, arcs: &[Arc]) -> Result<(), NoMemory> {
    for (place, transition, weight) in arcs {
        let amount = weight.unsigned_abs().min(u64::MAX as u128) as u64;
        let fits = *place < net.places() && *transition < net.transitions();
        if !fits || amount == 0 || net.arcs() >= MAX_ARCS {
            continue;
        }
        if *weight > 0 {
            net.add_output(*transition, *place, amount)?;
        } else {
            net.add_input(*place, *transition, amount)?;
        }
    }
    Ok(())
}
