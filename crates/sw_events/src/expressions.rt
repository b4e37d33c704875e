//! Expressions. The only error is want of memory.

ghost use Rattle.std.specs.Prelude.{◌≡◌, ◌++◌, OnOk};
ghost use Rattle.std.specs.Option.{option_copied, option_map};
ghost use Rattle.sw_declared.specs.Declarations.{argument_labels};
ghost use Rattle.sw_scope.specs.Events.{each, perhaps};
ghost use Rattle.sw_scope.specs.Walk.{run};
ghost use Rattle.sw_events.specs.Bodies.{argument_events, called_events, expr_events, literal_events, piece_events};

use sqlite_items::Items;
use sw_base::{NoMemory, Span};
use sw_scope::{Around, Seen, read, read_self};
use sw_tree::{Argument, Expr, Literal, StringPiece};

/// Walks over an expression, which may be called with these arguments.
#[cycle(expr)]
#[tactic(auto, using(crate::proofs::ExprEvents::expr_rules))]
fn called(
    around: &Around<'_>,
    seen: &mut Seen,
    x: &Expr,
    called_with: Option<&[Argument]>,
) -> Result<(), NoMemory>
    ensures { OnOk result (seen.new ≡ run around.now (called_events x.now (option_map argument_labels (option_copied called_with.entry))) seen.old) }
{
    match x {
        Expr::Try(_, _, x) | Expr::Prefix(_, _, x) => expr(around, seen, x.get()),
        Expr::Await(_, x) | Expr::Paren(_, x) | Expr::Issue(_, x) => expr(around, seen, x.get()),
        Expr::Ternary(x, both) => {
            expr(around, seen, x.get())?;
            two(around, seen, both.get())
        }
        Expr::Binary(_, _, both) => two(around, seen, both.get()),
        Expr::Member(x, _) => expr(around, seen, x.get()),
        Expr::Call(x, list) => {
            called(around, seen, x.get(), Some(list.get().1.as_slice()))?;
            walk_arguments(around, seen, list.get())
        }
        Expr::Index(x, index) => {
            expr(around, seen, x.get())?;
            expr(around, seen, &index.get().1)
        }
        Expr::Force(x, _) => expr(around, seen, x.get()),
        Expr::Literal(_, value) => literal(around, seen, value.get()),
        Expr::Nil(_) | Expr::Implicit(_, _) => Ok(()),
        Expr::Name(name) => read(around, seen, name.get(), called_with),
        Expr::SelfValue(at) => {
            read_self(around, seen, *at);
            Ok(())
        }
        Expr::Array(_, elements) => walk_elements(around, seen, elements.get().as_slice()),
        Expr::Wait(name) => read(around, seen, name.get(), None),
    }
}

/// Walks over an expression that is not called.
#[cycle(expr)]
pub fn expr(around: &Around<'_>, seen: &mut Seen, x: &Expr) -> Result<(), NoMemory>
    ensures { OnOk result (seen.new ≡ run around.now (expr_events x.now) seen.old) }
{
    called(around, seen, x, None)
}

/// Walks over two expressions.
#[cycle(expr)]
#[tactic(auto, using(crate::proofs::Runs::run_rules))]
fn two(around: &Around<'_>, seen: &mut Seen, both: &(Expr, Expr)) -> Result<(), NoMemory>
    ensures { OnOk result (seen.new ≡ run around.now (expr_events both.now.0 ++ expr_events both.now.1) seen.old) }
{
    expr(around, seen, &both.0)?;
    expr(around, seen, &both.1)
}

/// Walks over the arguments of a call.
#[cycle(expr)]
fn walk_arguments(
    around: &Around<'_>,
    seen: &mut Seen,
    list: &(Span, Items<Argument>),
) -> Result<(), NoMemory>
    ensures { OnOk result (seen.new ≡ run around.now (each argument_events list.now.1) seen.old) }
{
    for argument in list.1.as_slice() {
        expr(around, seen, &argument.value)?;
    }
    Ok(())
}

/// Walks over the elements of an array.
#[cycle(expr)]
fn walk_elements(around: &Around<'_>, seen: &mut Seen, elements: &[Expr]) -> Result<(), NoMemory>
    ensures { OnOk result (seen.new ≡ run around.now (each expr_events elements.now) seen.old) }
{
    for element in elements {
        expr(around, seen, element)?;
    }
    Ok(())
}

/// Walks over a literal.
#[cycle(expr)]
#[tactic(auto, using(crate::proofs::ExprEvents::literal_rules))]
pub fn literal(around: &Around<'_>, seen: &mut Seen, x: &Literal) -> Result<(), NoMemory>
    ensures { OnOk result (seen.new ≡ run around.now (literal_events x.now) seen.old) }
{
    match x {
        Literal::Integer(_) | Literal::Bool(_) => Ok(()),
        Literal::String(_, pieces) => walk_pieces(around, seen, pieces.get().as_slice()),
    }
}

/// Walks over the expressions in a string.
#[cycle(expr)]
fn walk_pieces(around: &Around<'_>, seen: &mut Seen, pieces: &[StringPiece]) -> Result<(), NoMemory>
    ensures { OnOk result (seen.new ≡ run around.now (each piece_events pieces.now) seen.old) }
{
    for piece in pieces {
        expr(around, seen, &piece.value)?;
    }
    Ok(())
}

/// Walks over an expression, where there is one.
#[tactic(auto, using(crate::proofs::Runs::run_rules))]
pub fn walk_value(
    around: &Around<'_>,
    seen: &mut Seen,
    value: &Option<Expr>,
) -> Result<(), NoMemory>
    ensures { OnOk result (seen.new ≡ run around.now (perhaps expr_events value.now) seen.old) }
{
    match value {
        None => Ok(()),
        Some(value) => expr(around, seen, value),
    }
}
