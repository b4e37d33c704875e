//! Expressions, types and patterns: the trees that the tokens of a source spell.
//!
//! Each function of `expressions` reads a part of the grammar and answers as its reader does: the value, the
//! place after it and how many more parts may be counted, or the token that is refused and whether it is
//! refused since the budget alone is exceeded. `parse` gives the whole answer, with the rule that is broken.
#![tactic(auto)]

mod builders;
mod conditions;
mod expressions;
mod literals;
mod parse;
mod pattern_literals;
mod patterns;
mod switch_patterns;
mod types;

pub use conditions::{condition, initial_value};
pub use expressions::expr;
pub use parse::parse_expr;
pub use patterns::catch_pattern;
pub use switch_patterns::pattern;
pub use types::type_;
