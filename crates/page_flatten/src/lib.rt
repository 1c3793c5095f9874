//! The flat net that a net of a document represents: pages and reference nodes are resolved away,
//! exactly where the document breaks none of the five rules, and else the first broken rule is
//! named.
#![tactic(auto)]

mod arcs;
mod chains;
mod fault;
mod flattening;
mod laws;
mod links;
mod nodes;
mod numbered;
mod numbers;
mod rules;
#[cfg(test)]
mod tests;

pub use fault::FlatFault;
pub use flattening::flatten;
pub use laws::{
    a_flat_net_or_a_first_broken_rule, no_fault_where_no_rule_is_broken, one_first_broken_rule,
    one_flat_net,
};
