//! The elaborated tree: expressions with their types, of which each name and member is resolved.
//!
//! It says of an expression what it means and no longer how it is written: which variable, member, func or case a name
//! stands for, on what it is used, where a value is converted, and what `??` gives. Brackets, `await` and `try` stay,
//! since the rules of isolation and effects read them. What has no type stands in it all the same, with its parts, since
//! later rules speak of the uses in it. The inductive tree in `specs/` is what definitions match on.
#![tactic(auto)]

mod entity;
mod expr;

pub use entity::{BuiltIn, Entity};
pub use expr::{Coalescing, Form, Receiver, Typed, TypedPiece, Variable};
