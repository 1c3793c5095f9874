//! Siphons and traps of a net: whether a set of places is one, whether it is minimal, and the greatest one
//! in a set, each exactly and without taking memory.
#![tactic(auto)]

mod closed;
mod fallen;
mod greatest;
mod guard;
mod kind;
mod laws;
mod leaving;
mod marked;
mod minimal;
mod needed;
mod opens;
mod propagate;
#[cfg(test)]
mod tests;

pub use closed::{is_siphon, is_trap};
pub use fallen::Fallen;
pub use greatest::{greatest_siphon, greatest_trap, keeps_without};
pub use laws::{
    commoner_excludes_dead_markings, dead_markings_empty_a_siphon, each_set_has_a_greatest_siphon,
    empty_siphons_stay_empty, minimal_siphons_are_in_all, one_place_less_is_left_of_the_greatest,
    traps_are_siphons_reversed, traps_stay_marked, unions_of_siphons_are_siphons,
};
pub use leaving::{find_leaving, put_place};
pub use marked::{find_empty_places, has_marked_trap, has_marked_trap_from};
pub use minimal::is_minimal_siphon;
pub use needed::{has_no_smaller_siphon, lone_input};
pub use opens::{add_place, find_open};
