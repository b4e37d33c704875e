//! What each part of a source says of names: the events of its types, expressions, patterns and statements, one after
//! another.
//!
//! To walk over a part is to tell its events to a `Seen`, which finds the rules that they break.
#![tactic(auto)]

mod declarations;
mod expressions;
mod patterns;
mod statements;
mod types;

pub use declarations::{
    has_instance, item_has_instance, walk_func, walk_heading, walk_item, walk_member,
    walk_requirement,
};
pub use types::walk_type;
