//! The values of literals.

ghost use Rattle.std.specs.Prelude.{◌≡◌, ◌≤◌, ◌∷◌, [], IfOk, pos};
ghost use Rattle.sw_base.specs.Limits.{greatest_integer};
ghost use Rattle.sw_lex.specs.Rules.{number};
ghost use Rattle.sw_syntax.specs.Sights.{lent_face};
ghost use Rattle.sw_syntax.specs.Values as spec;

use sqlite_items::{Boxed, Items};
use std::alloc::{AllocError, Global};
use sw_base::{Duplicate, NoMemory, Text};
use sw_lex::{TokenKind, TokenRef};
use sw_tree::{Expr, Literal, StringPiece};

/// A number with one more digit, or with a `_` after it.
fn with_digit(so_far: u64, byte: u8) -> u64
    requires { number so_far (byte ∷ []) ≤ greatest_integer }
    ensures { result ≡ number so_far (byte ∷ []) }
{
    if byte == b'_' {
        return so_far;
    }
    so_far * 10 + byte.saturating_sub(48) as u64
}

/// The number of these digits.
fn number_of(digits: &[u8]) -> i64
    requires { number 0 digits.now ≤ greatest_integer }
    ensures { result ≡ pos (number 0 digits.now) }
{
    let mut so_far: u64 = 0;
    for byte in digits {
        so_far = with_digit(so_far, *byte);
    }
    so_far as i64
}

/// The expression of an integer.
pub fn integer(alloc: Global, token: TokenRef<'_>) -> Result<Expr, AllocError>
    requires { number 0 token.text.now ≤ greatest_integer }
    ensures { IfOk result (λ x. x ≡ Expr.Literal token.entry.span (spec.integer_of (lent_face token.entry))) }
{
    let value = Boxed::new(alloc, integer_value(token))?;
    Ok(Expr::Literal(token.span, value))
}

fn is_true(kind: TokenKind) -> bool
    ensures { result ≡ spec.bool_of kind }
{
    match kind {
        TokenKind::True => true,
        _ => false,
    }
}

/// The expression of `true` or `false`.
pub fn boolean(alloc: Global, token: TokenRef<'_>) -> Result<Expr, AllocError>
    ensures { IfOk result (λ x. x ≡ Expr.Literal token.entry.span (Literal.Bool (spec.bool_of token.entry.kind))) }
{
    let value = Boxed::new(alloc, boolean_value(token))?;
    Ok(Expr::Literal(token.span, value))
}

/// A string with no expressions.
pub fn text(alloc: Global, token: TokenRef<'_>) -> Result<Expr, NoMemory>
    ensures { IfOk result (λ x. x ≡ Expr.Literal token.entry.span (Literal.String token.entry.text.now [])) }
{
    string(alloc, token, Items::new(alloc))
}

/// A string that begins with this token, and the pieces after it.
pub fn string(
    alloc: Global,
    token: TokenRef<'_>,
    pieces: Items<StringPiece>,
) -> Result<Expr, NoMemory>
    ensures { IfOk result (λ x. x ≡ Expr.Literal token.entry.span (Literal.String token.entry.text.now pieces)) }
{
    let value = string_value(alloc, token, pieces)?;
    Ok(Expr::Literal(token.span, Boxed::new(alloc, value)?))
}

/// An expression of a string, and the text after it.
pub fn piece(value: Expr, token: TokenRef<'_>) -> Result<StringPiece, NoMemory>
    ensures { IfOk result (λ x. x ≡ record { value = value; text = token.entry.text.now }) }
{
    let text = token.text.copy()?;
    Ok(StringPiece { value, text })
}

/// The value of an integer.
pub fn integer_value(token: TokenRef<'_>) -> Literal
    requires { number 0 token.text.now ≤ greatest_integer }
    ensures { result ≡ spec.integer_of (lent_face token.entry) }
{
    Literal::Integer(number_of(token.text.as_bytes()))
}

/// The value of `true` or `false`.
pub fn boolean_value(token: TokenRef<'_>) -> Literal
    ensures { result ≡ Literal.Bool (spec.bool_of token.entry.kind) }
{
    Literal::Bool(is_true(token.kind))
}

/// The value of a string with no expressions.
pub fn text_value(alloc: Global, token: TokenRef<'_>) -> Result<Literal, NoMemory>
    ensures { IfOk result (λ x. x ≡ Literal.String token.entry.text.now []) }
{
    string_value(alloc, token, Items::new(alloc))
}

/// The value of a string that begins with this token, with the pieces after it.
pub fn string_value(
    alloc: Global,
    token: TokenRef<'_>,
    pieces: Items<StringPiece>,
) -> Result<Literal, NoMemory>
    ensures { IfOk result (λ x. x ≡ Literal.String token.entry.text.now pieces) }
{
    let text = token.text.copy()?;
    let text = Boxed::new(alloc, text)?;
    Ok(Literal::String(text, Boxed::new(alloc, pieces)?))
}
