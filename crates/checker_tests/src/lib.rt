//! Tests of the checker and of what it stands on: values, types, graphs and tables with what was wanted of them, written by hand
//! from the rules. No contract says that memory is there, nor that the definitions say what was meant.
//!
//! The crate has nothing else: a library with tests of its own would be proved twice.
#![tactic(auto)]

#[cfg(test)]
mod declarations;
#[cfg(test)]
mod expressions;
#[cfg(test)]
mod graph;
#[cfg(test)]
mod holding;
#[cfg(test)]
mod requirements;
#[cfg(test)]
mod sharing;
#[cfg(test)]
mod tables;
#[cfg(test)]
mod values;
#[cfg(test)]
mod world;
