//! The tokens of a source.

ghost use Rattle.std.specs.Prelude.{◌≡◌, ◌≤◌, ◌<◌, ◌+◌, ◌^◌, OnSome, length, slice_get, option_map, Some};
ghost use Rattle.sw_base.specs.Limits.{greatest_integer};
ghost use Rattle.sw_lex.specs.Lexing.{AreLexed};
ghost use Rattle.sw_lex.specs.Rules.{number};
ghost use Rattle.sw_lex.specs.Tokens.{AreInOrder, EndsOnce, token_of};

use crate::kept::KeptTokens;
use crate::token::TokenKind;
use std::marker::Model;
use sw_base::{Span, Text};

/// A token of a list, with its text lent: the fields are those of a `Token`.
#[derive(Clone, Copy, Debug)]
pub struct TokenRef<'a> {
    /// What a string piece stands for; of any other token its bytes.
    pub text: &'a Text,
    /// The place of its first byte.
    pub span: Span,
    pub kind: TokenKind,
    /// No earlier token stands on its line.
    pub first_on_line: bool,
    /// A token stands directly before it.
    pub touches: bool,
    /// White space stands directly before it.
    pub after_space: bool,
}

/// The tokens of a source, which contracts see as the list of them. Each stands before those that follow it, the
/// last and no other is the end of the source, and no integer is above the greatest.
#[derive(Debug, Drop)]
pub struct Tokens {
    kept: KeptTokens,
}

impl Model for Tokens {
    ghost use Rattle.std.specs.Prelude.{List};
    ghost use Rattle.sw_lex.specs.declared.token.Token.{Token};
    ghost use Rattle.sw_lex.specs.Lexing.{AreLexed};

    ghost Value = { List Token };

    ghost view = { λ tokens. tokens.kept };

    ghost invariant = { λ tokens. AreLexed tokens.kept };
}

impl Tokens {
    /// These tokens, of which all that is known to be true.
    pub(crate) fn new(kept: KeptTokens) -> Tokens
        requires { AreLexed kept }
        ensures { result ≡ kept }
    {
        Tokens { kept }
    }

    /// The number of tokens.
    pub fn len(&self) -> usize
        ensures value { result ≡ length self.now }
        ensures ended { EndsOnce self.now }
    {
        self.kept.len()
    }

    /// The token at an index, counted from 0; none past the end.
    pub fn get(&self, at: usize) -> Option<TokenRef<'_>>
        ensures value { option_map token_of result ≡ slice_get self.now at }
        ensures within { OnSome result (at < length self.now) }
        ensures countable { OnSome result (at + 1 < 2 ^ 64) }
    {
        if at < self.len() {
            Some(self.at(at))
        } else {
            None
        }
    }

    /// The token at an index that is known to be in the list.
    pub fn at(&self, at: usize) -> TokenRef<'_>
        requires { at < length self.now }
        ensures token { slice_get self.now at ≡ Some (token_of result) }
        ensures countable { at + 1 < 2 ^ 64 }
        ensures ordered { AreInOrder self.now }
        ensures fits { result.kind ≡ TokenKind.Integer → number 0 result.text.now ≤ greatest_integer }
    {
        self.kept.at(at)
    }
}
