//! The pass of names: what a source declares twice, and the names in it that mean nothing.
#![tactic(auto)]

mod aliases;
mod bodies;
mod keys;
mod labels;
mod meeting;
mod pass;
mod scopes;
mod words;

pub use pass::names;
