//! The tokens of a source, as the grammar sees them, and why a reader stops.

ghost use Rattle.std.specs.Prelude.{◌≡◌, ◌<◌, ◌≤◌, ◌+◌, ℕ, Bool, List, [], drop, length, true, OnSome};
ghost use Rattle.sw_base.specs.Limits.{greatest_integer};
ghost use Rattle.sw_grammar.specs.Reading.{at_first, one};
ghost use Rattle.sw_syntax.specs.Answering.{Takes};
ghost use Rattle.sw_syntax.specs.ReadResults.{first_sight, Gives, Moves, Inside, met};
ghost use Rattle.sw_syntax.specs.Sights.{first_class, lent_face, passes};
ghost use Rattle.sw_syntax.specs.Broken.{broken_at, broken_if};
ghost use Rattle.sw_lex.specs.declared.token.TokenKind.TheVariants as k;
ghost use Rattle.sw_lex.specs.Rules.{number};
ghost use Rattle.sw_lex.specs.Tables.{is_same_text};
ghost use Rattle.sw_lex.specs.Tokens.{token_of, EndsOnce};
ghost use Rattle.sw_syntax.specs.Tests.{is};
ghost use Rattle.sw_syntax.specs.Tokens.{Sighted, sighted, class_in, is_next, touches_next, class_of_name};

use crate::class::{Class, Sight, Test};
use std::alloc::AllocError;
use std::marker::Model;
use sw_base::NoMemory;
use sw_lex::{TokenKind, TokenRef, Tokens, same_kind};

/// Why a reader stops: a token is refused, or memory is wanting.
#[derive(Debug, Drop)]
pub enum Stop {
    /// A token is refused.
    Refused {
        /// The position of the token.
        at: usize,
        /// It is refused since the budget alone is exceeded.
        over: bool,
    },
    /// There is no memory.
    NoMemory,
}

impl From<AllocError> for Stop {
    ghost use Rattle.std.specs.Prelude.{◌≡◌};
    ghost use Rattle.sw_syntax.specs.declared.view.Stop.TheVariants.{NoMemory};

    ghost from_gives = { λ _ stop. stop ≡ NoMemory };

    fn from(_error: AllocError) -> Stop {
        Stop::NoMemory
    }
}

impl From<NoMemory> for Stop {
    ghost use Rattle.std.specs.Prelude.{◌≡◌};
    ghost use Rattle.sw_syntax.specs.declared.view.Stop.TheVariants.{NoMemory};

    ghost from_gives = { λ _ stop. stop ≡ NoMemory };

    fn from(_error: NoMemory) -> Stop {
        Stop::NoMemory
    }
}

/// What was read, the position after it, and how many more parts may be counted.
pub type Read<T> = Result<(T, usize, u8), Stop>;

/// What a sentence may have of what is bounded.
#[derive(Clone, Copy, Debug, PartialEq, Eq)]
pub struct Budget {
    /// How many brackets may be opened.
    pub brackets: u8,
    /// How many more parts may be counted.
    pub left: u8,
    /// How many each count of its own may hold.
    pub limit: u8,
}

fn is_next(tokens: &Tokens, broken: usize, at: usize, kind: TokenKind) -> bool
    ensures { result ≡ is_next kind (drop at (broken_at broken tokens.now)) }
{
    match tokens.get(at) {
        Some(token) => same_kind(token.kind, kind),
        None => false,
    }
}

fn touches(token: TokenRef<'_>, is_broken: bool) -> bool
    ensures { result ≡ (broken_if is_broken (token_of token.entry)).touches }
{
    token.touches && !is_broken
}

fn touches_next(tokens: &Tokens, broken: usize, at: usize) -> bool
    ensures { result ≡ touches_next (drop at (broken_at broken tokens.now)) }
{
    match tokens.get(at) {
        Some(token) => touches(token, at == broken),
        None => false,
    }
}

fn is_word(text: &[u8], word: &[u8]) -> bool
    ensures { result ≡ is_same_text text.now word.now }
{
    text == word
}

/// What a name is, with the tokens from this position on after it.
fn class_of_name(text: &[u8], tokens: &Tokens, broken: usize, after: usize) -> Class
    ensures { result ≡ class_of_name text.now (drop after (broken_at broken tokens.now)) }
{
    if is_word(text, b"actor") {
        return Class::Actor;
    }
    if is_word(text, b"distributed") {
        return Class::Distributed;
    }
    if is_word(text, b"nonisolated") {
        return Class::Nonisolated;
    }
    if is_word(text, b"mutating") {
        return Class::Mutating;
    }
    if is_word(text, b"final") {
        return Class::Final;
    }
    if !is_word(text, b"get") {
        return Class::Is(TokenKind::Name);
    }
    if is_next(tokens, broken, after, TokenKind::LeftBrace) {
        Class::GetBlock
    } else {
        Class::Get
    }
}

/// What a `?` is, where a line break is put before it or none is.
fn class_of_question(token: TokenRef<'_>, is_broken: bool) -> Class
    ensures { result ≡ class_in k.Question (broken_if is_broken (token_of token.entry)) [] }
{
    if token.touches && !is_broken {
        Class::TouchingQuestion
    } else if token.after_space || is_broken {
        Class::SpacedQuestion
    } else {
        Class::Is(TokenKind::Question)
    }
}

/// What a `!` is, where a line break is put before it or none is.
fn class_of_bang(token: TokenRef<'_>, is_broken: bool) -> Class
    ensures { result ≡ class_in k.Bang (broken_if is_broken (token_of token.entry)) [] }
{
    if token.touches && !is_broken {
        Class::TouchingBang
    } else {
        Class::Is(TokenKind::Bang)
    }
}

fn is_first(token: TokenRef<'_>, is_broken: bool) -> bool
    ensures { result ≡ (broken_if is_broken (token_of token.entry)).first_on_line }
{
    token.first_on_line || is_broken
}

fn class_at(tokens: &Tokens, broken: usize, at: usize) -> Class
    requires { at < length tokens.now }
    ensures { result ≡ first_class (drop at (broken_at broken tokens.now)) }
{
    let token = tokens.at(at);
    match token.kind {
        TokenKind::Name => class_of_name(token.text.as_bytes(), tokens, broken, at + 1),
        TokenKind::Else => {
            if is_next(tokens, broken, at + 1, TokenKind::If) {
                Class::ElseIf
            } else {
                Class::Is(TokenKind::Else)
            }
        }
        TokenKind::Bang => class_of_bang(token, at == broken),
        TokenKind::Question => class_of_question(token, at == broken),
        TokenKind::Minus => {
            if touches_next(tokens, broken, at + 1) {
                Class::Is(TokenKind::Minus)
            } else {
                Class::LooseMinus
            }
        }
        kind => Class::Is(kind),
    }
}

/// The tokens of a source, as the grammar sees them.
#[derive(Debug, Drop)]
pub struct TokenView<'a> {
    tokens: &'a Tokens,
    /// The position of the token before which a line break is put; none stands at the end.
    broken: usize,
}

impl<'a> Model for TokenView<'a> {
    ghost use Rattle.std.specs.Prelude.{List};
    ghost use Rattle.sw_syntax.specs.Tokens.{Sighted, sighted};
    ghost use Rattle.sw_syntax.specs.Broken.{broken_at};

    ghost Value = { List Sighted };

    ghost view = { λ s. sighted (broken_at s.broken s.tokens.now) };
}

impl<'a> TokenView<'a> {
    /// These tokens as they are.
    pub fn new(tokens: &'a Tokens) -> TokenView<'a>
        ensures value { result ≡ sighted tokens.now }
        ensures ended { EndsOnce tokens.now }
    {
        TokenView {
            tokens,
            broken: tokens.len(),
        }
    }

    /// These tokens, with a line break before the one at this position.
    pub fn with_break(tokens: &'a Tokens, at: usize) -> TokenView<'a>
        ensures { result ≡ sighted (broken_at at tokens.now) }
    {
        TokenView { tokens, broken: at }
    }

    /// How many tokens there are.
    pub fn len(&self) -> usize
        ensures { result ≡ length self.now }
    {
        self.tokens.len()
    }

    pub(crate) fn sight(&self, at: usize) -> Option<Sight>
        ensures value { result ≡ first_sight (drop at self.now) }
        ensures within { OnSome result (at < length self.now) }
    {
        match self.tokens.get(at) {
            Some(token) => Some(Sight {
                class: class_at(self.tokens, self.broken, at),
                is_first: is_first(token, at == self.broken),
                before_colon: is_next(self.tokens, self.broken, at + 1, TokenKind::Colon),
            }),
            None => None,
        }
    }

    /// Tells whether the token at this position passes a test. At the end none does.
    pub fn is(&self, at: usize, test: Test) -> bool
        ensures value { result ≡ at_first (passes test) (drop at self.now) }
        ensures within { result ≡ true → at < length self.now }
    {
        match self.sight(at) {
            Some(sight) => sight.passes(test),
            None => false,
        }
    }

    /// The token at this position, which passed a test, and the position after it.
    pub fn take(&self, at: usize) -> (TokenRef<'a>, usize)
        requires { at < length self.now }
        ensures taken { (f : Sight → Bool) → at_first f (drop at self.now) ≡ true → Takes f (drop at self.now) (lent_face result.0) (drop result.1 self.now) }
        ensures fits { at_first (is k.Integer) (drop at self.now) ≡ true → number 0 result.0.text.now ≤ greatest_integer }
        ensures next { result.1 ≡ at + 1 }
    {
        (self.tokens.at(at), at + 1)
    }

    /// The token at this position, if it passes a test, and the position after it.
    pub fn expect(&self, at: usize, test: Test) -> Result<(TokenRef<'a>, usize), Stop>
        ensures gives { (left : ℕ) → Gives self.now (met left result) (one (passes test) left (drop at self.now)) }
        ensures moves { Moves at (met 0 result) }
        ensures inside { Inside (length self.now) (met 0 result) }
    {
        if self.is(at, test) {
            Ok(self.take(at))
        } else {
            Err(Stop::Refused { at, over: false })
        }
    }
}
