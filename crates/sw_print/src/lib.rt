//! Writes the text of a tree, which spells that tree.
//!
//! `specs/` says how each part of a tree is written, as words with what stands before each.
#![tactic(auto)]

mod clauses;
mod declarations;
mod expressions;
mod first_words;
mod members;
mod names;
mod page;
mod patterns;
mod printing;
mod signatures;
mod statements;
mod types;
mod writing;

pub use printing::print;
