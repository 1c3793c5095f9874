//! All minimal siphons of a net, by a search over classes of siphons that meets each grown siphon once.
#![tactic(auto)]

mod branch;
mod fault;
mod laws;
mod list;
mod live_class;
mod progress;
mod scratch;
mod search;
mod stack;
#[cfg(test)]
mod tests;
mod walk;

pub use branch::{Branch, Branches};
pub use fault::SetFault;
pub use laws::{
    few_are_not_many, few_or_many, live_classes_have_a_grown_siphon, minimal_siphons_are_grown,
    minimal_siphons_have_a_list, trap_lists_are_siphon_lists_reversed,
};
pub use list::minimal_siphons;
pub use live_class::LiveClass;
pub use progress::{AdvanceFault, Progress};
pub use search::Search;
