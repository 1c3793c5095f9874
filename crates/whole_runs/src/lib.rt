//! Whole runs over devices in memory: words, input and what the devices do on one side, the status and what
//! the two sinks hold on the other. The crate has tests only.
#![tactic(auto)]

#[cfg(test)]
mod bounds_and_verdicts;
#[cfg(test)]
mod certified;
#[cfg(test)]
mod classes;
#[cfg(test)]
mod devices;
#[cfg(test)]
mod documents;
#[cfg(test)]
mod faults;
#[cfg(test)]
mod fixture;
#[cfg(test)]
mod flattening;
#[cfg(test)]
mod nets;
#[cfg(test)]
mod options;
#[cfg(test)]
mod pieces;
#[cfg(test)]
mod replays;
#[cfg(test)]
mod resumes;
#[cfg(test)]
mod semiflows;
#[cfg(test)]
mod several_nets;
#[cfg(test)]
mod siphons_and_traps;
#[cfg(test)]
mod sub_semiflows;
