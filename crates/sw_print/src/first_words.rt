//! Finds statements that begin with `.`.

ghost use Rattle.std.specs.Prelude.{◌≡◌, List, ◌++◌};
ghost use Rattle.sw_layout.specs.declared.gap.Gap.TheVariants as GapValue;
ghost use Rattle.sw_layout.specs.Words.{Word};
ghost use Rattle.sw_print.specs.Expressions.{expr_words};
ghost use Rattle.sw_print.specs.Statements.{begins_with_dot, stmt_words};

use sw_tree::{Expr, Stmt};

/// Tells whether an expression begins with `.` as it is written, whatever follows it.
#[cycle(left)]
fn begins_with_dot(x: &Expr) -> bool
    ensures { (following : List Word) → begins_with_dot (expr_words x.now GapValue.Line ++ following) ≡ result }
{
    match x {
        Expr::Implicit(..) => true,
        Expr::Binary(_, _, operands) => begins_with_dot(&operands.get().0),
        Expr::Ternary(left, _)
        | Expr::Member(left, _)
        | Expr::Call(left, _)
        | Expr::Index(left, _)
        | Expr::Force(left, _)
        | Expr::Issue(_, left) => begins_with_dot(left.get()),
        Expr::Try(..)
        | Expr::Await(..)
        | Expr::Prefix(..)
        | Expr::Literal(..)
        | Expr::Nil(_)
        | Expr::Name(_)
        | Expr::SelfValue(_)
        | Expr::Paren(..)
        | Expr::Array(..)
        | Expr::Wait(_) => false,
    }
}

/// Tells whether a statement begins with `.` as it is written.
#[tactic(auto, using(crate::proofs::StmtWords::stmt_rules))]
pub fn stmt_begins_with_dot(x: &Stmt) -> bool
    ensures { begins_with_dot (stmt_words x.now GapValue.Line) ≡ result }
{
    match x {
        Stmt::Assign(first, ..) | Stmt::Expr(first) => begins_with_dot(first),
        Stmt::Local(..)
        | Stmt::Discard(..)
        | Stmt::If(..)
        | Stmt::Guard(..)
        | Stmt::While(..)
        | Stmt::For(..)
        | Stmt::Switch(..)
        | Stmt::Do(..)
        | Stmt::Return(..)
        | Stmt::Throw(..)
        | Stmt::Break(_)
        | Stmt::Continue(_) => false,
    }
}
