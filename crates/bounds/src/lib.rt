//! The least bound of each place that the semiflows of places give: `floor(y.M0 / y(p))`, least over all
//! semiflows `y` with `y(p) > 0`. At every reachable marking a place has at most so many tokens.
#![tactic(auto)]

mod bound_list;
mod fault;
mod least_bounds;
mod place_bound;
#[cfg(test)]
mod tests;

pub use bound_list::Bounds;
pub use fault::BoundFault;
pub use least_bounds::bounds;
