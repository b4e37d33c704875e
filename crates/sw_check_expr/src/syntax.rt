//! What is read off an expression before it has a type.

ghost use Rattle.std.specs.Prelude.{◌≡◌, map};
ghost use Rattle.sw_typed.specs.SyntaxOf.{expr_of, exprs_of};
ghost use Rattle.sw_check_expr.specs.Syntax.{asks, first, is_empty, is_implicit, is_nil};

use sqlite_items::Items;
use sw_base::Span;
use sw_tree::Expr;

/// The first token.
pub(crate) fn first(e: &Expr) -> Span
    ensures { result ≡ first (expr_of e.now) }
{
    match e {
        Expr::Try(_, at, _) => *at,
        Expr::Await(at, _) => *at,
        Expr::Ternary(condition, _) => first(condition.get()),
        Expr::Binary(_, _, operands) => first(&operands.get().0),
        Expr::Prefix(_, at, _) => *at,
        Expr::Member(base, _) => first(base.get()),
        Expr::Call(callee, _) => first(callee.get()),
        Expr::Index(base, _) => first(base.get()),
        Expr::Force(base, _) => first(base.get()),
        Expr::Literal(at, _) => *at,
        Expr::Nil(at) => *at,
        Expr::Name(name) => name.get().span,
        Expr::SelfValue(at) => *at,
        Expr::Implicit(at, _) => *at,
        Expr::Paren(at, _) => *at,
        Expr::Array(at, _) => *at,
        Expr::Issue(at, _) => *at,
        Expr::Wait(name) => name.get().span,
    }
}

/// Tells whether an operand takes the other operand's type: `nil`, `[]`, `.name` and `.name( )`, also in brackets.
pub(crate) fn asks(e: &Expr) -> bool
    ensures { result ≡ asks (expr_of e.now) }
{
    match e {
        Expr::Nil(_) => true,
        Expr::Implicit(_, _) => true,
        Expr::Call(callee, _) => is_implicit(callee.get()),
        Expr::Array(_, elements) => is_empty(elements.get()),
        Expr::Paren(_, e) => asks(e.get()),
        _ => false,
    }
}

/// Tells whether an expression is `nil`, also in brackets.
pub(crate) fn is_nil(e: &Expr) -> bool
    ensures { result ≡ is_nil (expr_of e.now) }
{
    match e {
        Expr::Nil(_) => true,
        Expr::Paren(_, e) => is_nil(e.get()),
        _ => false,
    }
}

/// Tells whether an expression is `.name`.
fn is_implicit(e: &Expr) -> bool
    ensures { result ≡ is_implicit (expr_of e.now) }
{
    match e {
        Expr::Implicit(_, _) => true,
        _ => false,
    }
}

/// Tells whether there are no elements.
#[tactic(auto, using(crate::proofs::Walks::none_first))]
fn is_empty(elements: &Items<Expr>) -> bool
    ensures { result ≡ is_empty (exprs_of (map expr_of elements.now)) }
{
    elements.get(0).is_none()
}
