//! Grammars in which one token ahead decides: what they mean, and the reader that is exact for each of them.
//!
//! The crate is a theory. A grammar is a table of productions; `specs/Grammar` says which runs of tokens are
//! sentences of a nonterminal and which are viable prefixes, `specs/Reading` reads from the left by the next token,
//! `specs/Deciding` says when one token ahead decides, and `specs/ReaderAnswers` what the reader's answer says.
//! Besides the sets first and nullable of a nonterminal there is follow-last: the tokens that may follow one of its
//! sentences within a longer one. That is FLAST of Krishnaswami and Yallop, "A typed, algebraic approach to parsing".
//! `proofs/Whole` proves that it says so, for every grammar that one token ahead decides.
#![tactic(auto)]
