//! Certificates for answers on a net: its bounds by semiflows, a siphon without a marked trap, and a tree that has
//! a marked trap for every siphon. Each is well formed, and all that its lines ask of the net holds.
#![tactic(auto)]

mod bad_siphon;
mod bound_lines;
mod commoner;
mod fault;
mod flows;
mod laws;
#[cfg(test)]
mod tests;
mod tree;

pub use bad_siphon::bad_siphon_certificate;
pub use bound_lines::bound_certificate;
pub use commoner::commoner_certificate;
pub use fault::BoundCertFault;
pub use laws::{commoner_nets_have_a_certificate, named_rows_are_narrow_or_wide};
