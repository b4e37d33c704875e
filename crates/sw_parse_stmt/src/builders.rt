//! What a token says of a statement, and the nodes of statements that need memory.

ghost use Rattle.std.specs.Prelude.{◌≡◌, IfOk};
ghost use Rattle.sw_syntax.specs.Sights.{lent_face};
ghost use Rattle.sw_syntax.specs.Values as spec;

use sw_base::{Duplicate, NoMemory};
use sw_lex::{TokenKind, TokenRef};
use sw_tree::{AssignOperator, Binding, Expr, Name, RangeOperator, Stmt, Type};

/// Whether a name is bound for good, by the token before it.
pub fn binding(kind: TokenKind) -> Binding
    ensures { result ≡ spec.binding_of kind }
{
    match kind {
        TokenKind::Let => Binding::Let,
        _ => Binding::Var,
    }
}

/// The mark of an assignment that a token is.
pub fn assign_operator(kind: TokenKind) -> AssignOperator
    ensures { result ≡ spec.assign_of kind }
{
    match kind {
        TokenKind::PlusAssign => AssignOperator::Add,
        TokenKind::MinusAssign => AssignOperator::Subtract,
        TokenKind::StarAssign => AssignOperator::Multiply,
        TokenKind::SlashAssign => AssignOperator::Divide,
        TokenKind::PercentAssign => AssignOperator::Remainder,
        _ => AssignOperator::Assign,
    }
}

/// The mark of a range that a token is.
pub fn range_operator(kind: TokenKind) -> RangeOperator
    ensures { result ≡ spec.range_of kind }
{
    match kind {
        TokenKind::HalfOpenRange => RangeOperator::HalfOpen,
        _ => RangeOperator::Closed,
    }
}

/// Tells whether an expression ends in a name, a member or an index.
pub fn is_target(x: &Expr) -> bool
    ensures { result ≡ spec.is_target x.now }
{
    match x {
        Expr::Name(_) => true,
        Expr::Implicit(_, _) => true,
        Expr::Member(_, _) => true,
        Expr::Index(_, _) => true,
        _ => false,
    }
}

/// The name that a token spells.
pub fn name(token: TokenRef<'_>) -> Result<Name, NoMemory>
    ensures { IfOk result (λ name. name ≡ spec.name_of (lent_face token.entry)) }
{
    Ok(Name {
        text: token.text.copy()?,
        span: token.span,
    })
}

/// `let` or `var`, the name after it, and the type and the value of that.
pub fn local(
    mark: TokenRef<'_>,
    name_token: TokenRef<'_>,
    declared: Option<Type>,
    value: Expr,
) -> Result<Stmt, NoMemory>
    ensures { IfOk result (λ x. x ≡ Stmt.Local mark.entry.span (spec.binding_of mark.entry.kind) (spec.name_of (lent_face name_token.entry)) declared value) }
{
    let name = name(name_token)?;
    Ok(Stmt::Local(mark.span, binding(mark.kind), name, declared, value))
}
