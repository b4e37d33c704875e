//! Declarations with their types, found by name: what a member, a func, an initialiser, a case takes and gives.
#![tactic(auto)]

mod declaration;
mod declarations;
mod firsts;
mod keys;

pub use declaration::{Declaration, Side};
pub use declarations::Declarations;
