//! Single tokens that may be absent.

ghost use Rattle.std.specs.Prelude.{◌≡◌, ◌≤◌, ℕ, Bool, drop, length};
ghost use Rattle.sw_grammar.specs.Reading.{got};
ghost use Rattle.sw_syntax.specs.Members.{flag_part, mark_part};

use sw_base::Span;
use sw_lex::TokenKind;
use sw_syntax::{Test, TokenView};

/// Tells whether a token of the kind stands at this position, and gives the position after it.
pub fn flag(view: &TokenView, kind: TokenKind, at: usize) -> (bool, usize)
    requires { at ≤ length view.now }
    ensures gives { (lenient : Bool) (d l left : ℕ) → flag_part lenient kind d l left (drop at view.now) ≡ got result.0 left (drop result.1 view.now) }
    ensures stays { at ≤ result.1 }
    ensures inside { result.1 ≤ length view.now }
{
    if !view.is(at, Test::Is(kind)) {
        return (false, at);
    }
    let (_, end) = view.take(at);
    (true, end)
}

/// The span of the token of the kind at this position, if one stands there, and the position after it.
pub fn mark(view: &TokenView, kind: TokenKind, at: usize) -> (Option<Span>, usize)
    requires { at ≤ length view.now }
    ensures gives { (lenient : Bool) (d l left : ℕ) → mark_part lenient kind d l left (drop at view.now) ≡ got result.0 left (drop result.1 view.now) }
    ensures stays { at ≤ result.1 }
    ensures inside { result.1 ≤ length view.now }
{
    if !view.is(at, Test::Is(kind)) {
        return (None, at);
    }
    let (token, end) = view.take(at);
    (Some(token.span), end)
}
