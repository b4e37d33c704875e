//! The nodes of expressions that need memory, and what a token says of one.

ghost use Rattle.std.specs.Prelude.{◌≡◌, IfOk, Some, None};
ghost use Rattle.sw_syntax.specs.Sights.{lent_face};
ghost use Rattle.sw_syntax.specs.Values as spec;

use sqlite_items::{Boxed, Items};
use std::alloc::{AllocError, Global};
use sw_base::{Duplicate, NoMemory, Span};
use sw_lex::{TokenKind, TokenRef};
use sw_tree::{Argument, BinaryOperator, Expr, Name, PrefixOperator, TryForm};

/// The sign that a token is.
pub fn prefix_operator(kind: TokenKind) -> PrefixOperator
    ensures { result ≡ spec.prefix_of kind }
{
    match kind {
        TokenKind::Minus => PrefixOperator::Minus,
        _ => PrefixOperator::Not,
    }
}

/// The binary operator that a token is.
pub fn binary_operator(kind: TokenKind) -> BinaryOperator
    ensures { result ≡ spec.binary_of kind }
{
    match kind {
        TokenKind::Or => BinaryOperator::Or,
        TokenKind::And => BinaryOperator::And,
        TokenKind::EqualEqual => BinaryOperator::Equal,
        TokenKind::NotEqual => BinaryOperator::NotEqual,
        TokenKind::Less => BinaryOperator::Less,
        TokenKind::LessEqual => BinaryOperator::LessEqual,
        TokenKind::Greater => BinaryOperator::Greater,
        TokenKind::GreaterEqual => BinaryOperator::GreaterEqual,
        TokenKind::Coalesce => BinaryOperator::Coalesce,
        TokenKind::Plus => BinaryOperator::Add,
        TokenKind::Minus => BinaryOperator::Subtract,
        TokenKind::Star => BinaryOperator::Multiply,
        TokenKind::Slash => BinaryOperator::Divide,
        _ => BinaryOperator::Remainder,
    }
}

/// The name that a token spells.
pub fn name(token: TokenRef<'_>) -> Result<Name, NoMemory>
    ensures { IfOk result (λ name. name ≡ spec.name_of (lent_face token.entry)) }
{
    Ok(Name {
        text: token.text.copy()?,
        span: token.span,
    })
}

/// An expression after its `try` or `try?`, if it has one.
pub fn tried(alloc: Global, mark: Option<(Span, bool)>, x: Expr) -> Result<Expr, AllocError>
    ensures { IfOk result (λ y. y ≡ spec.tried mark x) }
{
    match mark {
        None => Ok(x),
        Some((at, is_optional)) => {
            let form = if is_optional {
                TryForm::Optional
            } else {
                TryForm::Plain
            };
            Ok(Expr::Try(form, at, Boxed::new(alloc, x)?))
        }
    }
}

/// An expression after its `await`, if it has one.
pub fn awaited(alloc: Global, mark: Option<Span>, x: Expr) -> Result<Expr, AllocError>
    ensures { IfOk result (λ y. y ≡ spec.awaited mark x) }
{
    match mark {
        None => Ok(x),
        Some(at) => Ok(Expr::Await(at, Boxed::new(alloc, x)?)),
    }
}

/// An expression with the marks before it.
pub fn with_marks(
    alloc: Global,
    try_mark: Option<(Span, bool)>,
    await_mark: Option<Span>,
    x: Expr,
) -> Result<Expr, AllocError>
    ensures { IfOk result (λ y. y ≡ spec.tried try_mark (spec.awaited await_mark x)) }
{
    let x = awaited(alloc, await_mark, x)?;
    tried(alloc, try_mark, x)
}

/// A condition and the two expressions that it chooses between.
pub fn ternary(alloc: Global, condition: Expr, x: Expr, y: Expr) -> Result<Expr, AllocError>
    ensures { IfOk result (λ z. z ≡ Expr.Ternary condition (x, y)) }
{
    let condition = Boxed::new(alloc, condition)?;
    let branches = Boxed::new(alloc, (x, y))?;
    Ok(Expr::Ternary(condition, branches))
}

/// Two operands and the mark between them.
pub fn binary(
    alloc: Global,
    mark: TokenRef<'_>,
    left: Expr,
    right: Expr,
) -> Result<Expr, AllocError>
    ensures { IfOk result (λ x. x ≡ Expr.Binary (spec.binary_of mark.entry.kind) mark.entry.span (left, right)) }
{
    let operands = Boxed::new(alloc, (left, right))?;
    Ok(Expr::Binary(binary_operator(mark.kind), mark.span, operands))
}

/// An operand after its sign.
pub fn prefix(alloc: Global, sign: TokenRef<'_>, x: Expr) -> Result<Expr, AllocError>
    ensures { IfOk result (λ y. y ≡ Expr.Prefix (spec.prefix_of sign.entry.kind) sign.entry.span x) }
{
    let x = Boxed::new(alloc, x)?;
    Ok(Expr::Prefix(prefix_operator(sign.kind), sign.span, x))
}

/// A member of a base, by the token of its name.
pub fn member(alloc: Global, base: Expr, token: TokenRef<'_>) -> Result<Expr, NoMemory>
    ensures { IfOk result (λ y. y ≡ Expr.Member base (spec.name_of (lent_face token.entry))) }
{
    let member = name(token)?;
    let base = Boxed::new(alloc, base)?;
    Ok(Expr::Member(base, Boxed::new(alloc, member)?))
}

/// A call of a base, with its arguments.
pub fn call(
    alloc: Global,
    base: Expr,
    at: Span,
    arguments: Items<Argument>,
) -> Result<Expr, AllocError>
    ensures { IfOk result (λ y. y ≡ Expr.Call base (at, arguments)) }
{
    let base = Boxed::new(alloc, base)?;
    Ok(Expr::Call(base, Boxed::new(alloc, (at, arguments))?))
}

/// A base with an index.
pub fn index(alloc: Global, base: Expr, at: Span, x: Expr) -> Result<Expr, AllocError>
    ensures { IfOk result (λ y. y ≡ Expr.Index base (at, x)) }
{
    let base = Boxed::new(alloc, base)?;
    Ok(Expr::Index(base, Boxed::new(alloc, (at, x))?))
}

/// A base with `!` after it.
pub fn force(alloc: Global, base: Expr, at: Span) -> Result<Expr, AllocError>
    ensures { IfOk result (λ y. y ≡ Expr.Force base at) }
{
    Ok(Expr::Force(Boxed::new(alloc, base)?, at))
}

/// An expression in brackets.
pub fn paren(alloc: Global, at: Span, x: Expr) -> Result<Expr, AllocError>
    ensures { IfOk result (λ y. y ≡ Expr.Paren at x) }
{
    Ok(Expr::Paren(at, Boxed::new(alloc, x)?))
}

/// An array of these elements.
pub fn array(alloc: Global, at: Span, elements: Items<Expr>) -> Result<Expr, AllocError>
    ensures { IfOk result (λ y. y ≡ Expr.Array at elements) }
{
    Ok(Expr::Array(at, Boxed::new(alloc, elements)?))
}

/// The name that a token spells, as an expression.
pub fn named(alloc: Global, token: TokenRef<'_>) -> Result<Expr, NoMemory>
    ensures { IfOk result (λ x. x ≡ Expr.Name (spec.name_of (lent_face token.entry))) }
{
    let name = name(token)?;
    Ok(Expr::Name(Boxed::new(alloc, name)?))
}

/// The name after a `.` that has no base.
pub fn implicit(alloc: Global, at: Span, token: TokenRef<'_>) -> Result<Expr, NoMemory>
    ensures { IfOk result (λ x. x ≡ Expr.Implicit at (spec.name_of (lent_face token.entry))) }
{
    let name = name(token)?;
    Ok(Expr::Implicit(at, Boxed::new(alloc, name)?))
}

/// A value after its label.
pub fn labelled(token: TokenRef<'_>, value: Expr) -> Result<Argument, NoMemory>
    ensures { IfOk result (λ x. x ≡ record { label = Some (spec.name_of (lent_face token.entry)); value = value }) }
{
    let label = name(token)?;
    Ok(Argument {
        label: Some(label),
        value,
    })
}
