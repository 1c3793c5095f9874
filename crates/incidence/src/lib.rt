//! The incidence matrix of a net and its transpose, with exact sums of a vector at a column. Semiflows and
//! those of minimal support are defined here, over any matrix of whole numbers and any set of its columns.
#![tactic(auto)]

mod flat_sums;
mod incidence;
mod laws;
mod side;
mod sparse;
#[cfg(test)]
mod tests;
mod tokens;
mod units;
mod wide_sum;

pub use flat_sums::net_sums;
pub use incidence::Incidence;
pub use laws::{semiflows_bound_places, weighted_tokens_stay};
pub use tokens::initial_tokens;
pub use wide_sum::{WideSum, add_product};
