//! Places: tokens that are alike but for their places spell trees that are alike but for their places.
//!
//! The crate is a theory: `specs/Places` says when tokens and trees are so. Each law of `laws` is the contract of a
//! function that does nothing.
#![tactic(auto)]

mod laws;

pub use laws::places_apart;
