//! The grammar of sources: a table of productions over the tokens of a source, whose values are syntax trees.
//!
//! `specs/Grammar` is the table. `specs/Tokens` says what the grammar sees of a token, `specs/Tests` which
//! tokens a terminal takes, `specs/Nonterminals` what the sentences of each nonterminal stand for, `specs/Values`
//! how a tree is made of its parts, and `specs/Tables` the sets first, nullable and follow-last of each.
//!
//! A [`Reader`] reads the sentences of one nonterminal. At most three of its readings, one of them with a line break put
//! before a token and one by the lenient grammar, tell which of the rules `P1` to `P6` is broken first, and where.
#![tactic(auto)]

mod broken;
mod class;
mod decl_tests;
mod laws;
mod lists;
mod reader;
mod view;

pub use broken::{refused_at, unbroken_after};
pub use class::{Class, Sight, Test};
pub use decl_tests::{Opening, expect_opening, stands};
pub use laws::{one_tree, readings_answer};
pub use lists::trimmed;
pub use reader::{Reader, SOURCE_BUDGET};
pub use view::{Budget, Read, Stop, TokenView};
