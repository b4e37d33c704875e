//! Graphs as lists of successors: which numbers stand on a cycle, the least set that is closed under a rule, the longest
//! walk from each number, and ranks of strongly connected components.
//!
//! Numbers name themselves by their place, from 0 on. A successor may lie past the end: it has no successors, and is in no
//! set.
#![tactic(auto)]

mod components;
mod cycles;
mod least_sets;
mod longest;
mod marks;
mod turned;

pub use components::{Ranked, ranks};
pub use cycles::on_cycles;
pub use least_sets::least;
pub use longest::levels;
