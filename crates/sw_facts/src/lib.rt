//! What is known of the types and funcs of a source, as its declarations tell it: what each member, func, case and initialiser
//! takes and gives, and which entity it is.
#![tactic(auto)]

mod built_in;
mod call_error;
mod counts;
mod facts;
mod funcs;
mod numbers;
mod parts;
mod synthesized;
mod types;

pub use facts::known;
