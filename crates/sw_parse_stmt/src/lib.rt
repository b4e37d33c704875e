//! Statements and blocks: the trees that the tokens of a source spell.
//!
//! Each function reads a part of the grammar and answers as its reader does: the value, the position after it and
//! how many more parts may be counted, or the token that is refused and whether it is refused for an exceeded budget
//! alone. `bodies`, `nested`, `branches` and `switches` have the functions that lead back to a block, and the
//! other modules what stands in a statement beside blocks.
#![tactic(auto)]

mod bodies;
mod branches;
mod builders;
mod nested;
mod parts;
mod simple;
mod steps;
mod switches;

pub use bodies::{block, statements};
