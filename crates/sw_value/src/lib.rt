//! Types and values of the language, the table of declared types, which values fit a type, and the
//! operators.
#![tactic(auto)]

mod codable;
mod equal;
mod fitting;
mod kinds;
mod operators;
mod settled;
mod shared;
mod ty;
mod value;
mod values;

pub use codable::is_codable;
pub use equal::{same, same_values};
pub use fitting::fits;
pub use kinds::{CaseOf, Form, Kind, Kinds};
pub use operators::{Op, OpError, TrapKind, apply, has_meaning};
pub use shared::Shared;
pub use ty::{Base, Mark, Ty, Tys};
pub use value::{Value, Values};
pub use values::{copy_all, own_items, own_value, take_item, with_item, with_last};

/// The most bytes of a string, and the most elements of an array.
pub const MOST: usize = 1_000_000;
