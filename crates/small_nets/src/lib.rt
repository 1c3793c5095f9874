//! Small nets and place sets, made from tables, and the arcs of nets that several tests name. Tests of several crates use them.
#![tactic(auto)]

mod named;
mod nets;
mod place_sets;

pub use named::{CHAIN, CYCLE, LEAK, MUTEX, SCALE};
pub use nets::{Arc, net_with};
pub use place_sets::place_set;
