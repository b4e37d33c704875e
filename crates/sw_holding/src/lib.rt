//! Which declared types hold which, over any table of types: those that hold themselves, the levels, those whose level is
//! too high, and those that may cross between nodes while circles may be there.
//!
//! A type is told by its number, which is its index in the table.
#![tactic(auto)]

mod above;
mod edges;
mod holding;
mod members;
mod parts;

pub use holding::{Holding, holding_of};
pub use members::{codable_members, is_member};
