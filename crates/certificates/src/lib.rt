//! Certificates: answers that another party can check against a net without trusting the search that found them.
//! What they are as values and as lines of text, what each line asks of a net, and what it then proves.
#![tactic(auto)]

mod certificate;
mod fault;
mod keywords;
mod laws;
mod line;
mod lines;
mod numbers;
mod printing;
mod progress;
mod reading;
#[cfg(test)]
mod tests;
mod tree_lines;
mod words;

pub use certificate::{
    BoundLines, Certificate, Claim, Claims, Flow, Flows, PlaceList, TreeLine, TreeLines,
};
pub use fault::ReadFault;
pub use laws::{a_certificate_or_a_bad_line, one_reading};
pub use numbers::place;
pub use printing::print;
pub use reading::read;
pub use words::{next_line, next_word, split};
