//! Tests of the front end and of what it stands on: sources, plans and trees with what was wanted of them, written by
//! hand from the rules. No contract says that memory is there, nor that the definitions say what was meant.
//!
//! The crate has nothing else: a library with tests of its own would be proved twice.
#![tactic(auto)]

#[cfg(test)]
mod base;
#[cfg(test)]
mod declarations;
#[cfg(test)]
mod expressions;
#[cfg(test)]
mod jobs;
#[cfg(test)]
mod printing;
#[cfg(test)]
mod refusals;
#[cfg(test)]
mod round_trips;
#[cfg(test)]
mod spellings;
#[cfg(test)]
mod statements;
#[cfg(test)]
mod tokens;
