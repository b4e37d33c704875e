//! Cuts a source into tokens, or names the first rule that it breaks before it is parsed.
//!
//! `lex` gives the tokens as a `Tokens`, a list that lends them by `get` and `at`. The definitions that the
//! contracts cite are in `specs/`: the pieces of a string (`Strings`), comments (`Comments`), the lexeme that begins
//! some bytes (`Lexemes`), the cut of a source (`Cut`), its tokens (`Tokens`) and its broken rules (`Rules`). They are
//! relations, and take nothing but types from the code. `Kept` is how a list keeps its tokens. `Matching`,
//! `Characters`, `Emitted`, `FirstBroken`, `Scanning` and `Long` follow the code, for the contracts of private functions
//! alone; lemmas in `proofs/` show that both say the same.
#![tactic(auto)]

mod brackets;
mod broken;
mod bytes;
mod emit;
mod kept;
mod laws;
mod lexemes;
mod lexer;
mod limits;
mod long;
mod places;
mod scan;
mod strings;
mod tables;
mod token;
mod tokens;

pub use laws::integers_fit;
pub use lexer::lex;
pub use token::{Token, TokenKind, same_kind};
pub use tokens::{TokenRef, Tokens};
