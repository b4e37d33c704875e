//! Declarations and whole files: the trees that the tokens of a source spell.
//!
//! Each function reads a part of the grammar and answers as its reader does: the value, the position after it
//! and how many more parts may be counted, or the token that is refused and whether it is refused for an exceeded
//! budget alone. No type is declared within a type, so no function calls itself. `parsing` gives the whole answer.
#![tactic(auto)]

mod builders;
mod cases;
mod declarations;
mod files;
mod headings;
mod lists;
mod marks;
mod members;
mod modifiers;
mod parameters;
mod parsing;
mod properties;
mod requirements;
mod signatures;

pub use files::file;
pub use parsing::parse;
