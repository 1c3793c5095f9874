//! The minimal semiflows of a matrix, by elimination of one column after another: at every moment the
//! rows are exactly the semiflows of minimal support, with coprime entries, over the columns that were
//! taken.
#![tactic(auto)]

mod adjacent;
mod candidates;
mod carried;
mod carried_rows;
mod choice;
mod counts;
mod elimination;
mod fault;
mod kept;
mod laws;
mod merged;
mod row_arithmetic;
mod signs;
mod step;
mod tableau;
#[cfg(test)]
mod tests;

pub use elimination::minimal_semiflows;
pub use fault::ElimFault;
pub use laws::{
    bases_are_minimal, bases_generate, failures_exclude_passing, first_failures_are_one,
    minimal_ones_are_proportional, order_is_free,
};
pub use tableau::Tableau;
