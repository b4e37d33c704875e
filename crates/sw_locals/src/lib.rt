//! The variables in sight in a body with their types, by scopes, with one hashed look-up for each question.
#![tactic(auto)]

mod local;
mod locals;

pub use local::Local;
pub use locals::Locals;
