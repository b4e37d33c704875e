//! The layout of a text: words with what stands before each, and the text of a list of them.
//!
//! `specs/Words` says which text and which tokens a list of words is, `specs/Layouts` which lists are cut into their
//! words again. Each law of `laws` is the contract of a function that does nothing.
#![tactic(auto)]

mod gap;
mod laws;

pub use gap::Gap;
pub use laws::{cut_again, lexed_fit, questions_apart, unbroken};
