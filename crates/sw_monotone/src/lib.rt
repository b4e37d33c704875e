//! The types of expressions are monotone in what is known: one that has a type keeps it when more declarations give a type.
//!
//! The crate is a theory: `specs/Growth` says when more is known. Each law of `laws` is the contract of a function that
//! does nothing.
#![tactic(auto)]

mod laws;

pub use laws::{facts_are_ordered, types_are_kept};
