//! The types of expressions: what each means, and the rules that it breaks.
#![tactic(auto)]

mod calls;
mod forms;
mod lists;
mod simple;
mod site;
mod syntax;
mod walk;

pub use walk::{check_expr, elaborate};
