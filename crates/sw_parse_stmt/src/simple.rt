//! Statements in which no other stands.

ghost use Rattle.std.specs.Prelude.{◌≡◌, false, ◌<◌, ◌≤◌, drop, length, true};
ghost use Rattle.sw_grammar.specs.Reading.{at_first};
ghost use Rattle.sw_lex.specs.declared.token.TokenKind.TheVariants as k;
ghost use Rattle.sw_syntax.specs.Bodies.{IsJump, assigned_part};
ghost use Rattle.sw_syntax.specs.Answering.{read};
ghost use Rattle.sw_syntax.specs.ReadResults.{Gives, Inside, Moves, Stays};
ghost use Rattle.sw_syntax.specs.Nonterminals as nonterminal;
ghost use Rattle.sw_syntax.specs.Tests.{is, is_let_or_var, starts_expr};

use crate::builders;
use crate::parts::annotation;
use std::alloc::Global;
use sw_lex::TokenKind;
use sw_parse_expr::expr;
use sw_syntax::{Budget, Opening, Read, Test, TokenView, stands};
use sw_tree::{Expr, Stmt};

/// `let` or `var` at this position, with a name, perhaps a type, and a value.
fn local(alloc: Global, view: &TokenView, lenient: bool, at: usize, budget: Budget) -> Read<Stmt>
    requires { (at_first is_let_or_var (drop at view.now) ≡ true) × (at < length view.now) }
    ensures gives { Gives view.now result (read lenient (nonterminal.Statement nonterminal.Open) budget.brackets budget.limit budget.left (drop at view.now)) }
    ensures moves { Moves at result }
    ensures inside { Inside (length view.now) result }
{
    let (mark, next) = view.take(at);
    let (name_token, name_end) = view.expect(next, Test::Name)?;
    let (declared, type_end, left) = annotation(alloc, view, lenient, name_end, budget)?;
    let (_, value_at) = view.expect(type_end, Test::Is(TokenKind::Assign))?;
    let own = Budget {
        left: budget.limit,
        ..budget
    };
    let (x, end, _) = expr(alloc, view, lenient, value_at, own)?;
    let node = builders::local(mark, name_token, declared, x)?;
    Ok((node, end, left))
}

/// What an expression is as a statement: a target where the mark of an assignment follows it, with what is
/// assigned.
fn assigned(
    alloc: Global,
    view: &TokenView,
    lenient: bool,
    x: Expr,
    at: usize,
    budget: Budget,
) -> Read<Stmt>
    requires { at ≤ length view.now }
    ensures gives { Gives view.now result (assigned_part lenient budget.brackets budget.limit budget.left x (drop at view.now)) }
    ensures stays { Stays at result }
    ensures inside { Inside (length view.now) result }
{
    if !builders::is_target(&x) {
        return Ok((Stmt::Expr(x), at, budget.left));
    }
    if !stands(view, at, Opening::Assignment) {
        return Ok((Stmt::Expr(x), at, budget.left));
    }
    let (mark, next) = view.take(at);
    let own = Budget {
        left: budget.limit,
        ..budget
    };
    let (value, end, _) = expr(alloc, view, lenient, next, own)?;
    let operator = builders::assign_operator(mark.kind);
    Ok((
        Stmt::Assign(x, operator, mark.span, value),
        end,
        budget.left,
    ))
}

/// An expression or an assignment.
fn expression(
    alloc: Global,
    view: &TokenView,
    lenient: bool,
    at: usize,
    budget: Budget,
) -> Read<Stmt>
    requires { (at_first is_let_or_var (drop at view.now) ≡ false) × (at_first starts_expr (drop at view.now) ≡ true) × (at ≤ length view.now) }
    ensures gives { Gives view.now result (read lenient (nonterminal.Statement nonterminal.Open) budget.brackets budget.limit budget.left (drop at view.now)) }
    ensures moves { Moves at result }
    ensures inside { Inside (length view.now) result }
{
    let own = Budget {
        left: budget.limit,
        ..budget
    };
    let (x, end, _) = expr(alloc, view, lenient, at, own)?;
    assigned(alloc, view, lenient, x, end, budget)
}

/// `_ =` and an expression.
fn discard(alloc: Global, view: &TokenView, lenient: bool, at: usize, budget: Budget) -> Read<Stmt>
    requires { (at_first is_let_or_var (drop at view.now) ≡ false) × (at_first starts_expr (drop at view.now) ≡ false) × (at_first (is k.Underscore) (drop at view.now) ≡ true) × (at < length view.now) }
    ensures gives { Gives view.now result (read lenient (nonterminal.Statement nonterminal.Open) budget.brackets budget.limit budget.left (drop at view.now)) }
    ensures moves { Moves at result }
    ensures inside { Inside (length view.now) result }
{
    let (token, next) = view.take(at);
    let (_, value_at) = view.expect(next, Test::Is(TokenKind::Assign))?;
    let own = Budget {
        left: budget.limit,
        ..budget
    };
    let (x, end, _) = expr(alloc, view, lenient, value_at, own)?;
    Ok((Stmt::Discard(token.span, x), end, budget.left))
}

/// A statement at this position that ends in an expression and is no `return`.
pub fn open_statement(
    alloc: Global,
    view: &TokenView,
    lenient: bool,
    at: usize,
    budget: Budget,
) -> Read<Stmt>
    ensures gives { Gives view.now result (read lenient (nonterminal.Statement nonterminal.Open) budget.brackets budget.limit budget.left (drop at view.now)) }
    ensures moves { Moves at result }
    ensures inside { Inside (length view.now) result }
{
    if view.is(at, Test::LetOrVar) {
        return local(alloc, view, lenient, at, budget);
    }
    if view.is(at, Test::Expr) {
        return expression(alloc, view, lenient, at, budget);
    }
    if view.is(at, Test::Is(TokenKind::Underscore)) {
        return discard(alloc, view, lenient, at, budget);
    }
    let (token, value_at) = view.expect(at, Test::Is(TokenKind::Throw))?;
    let own = Budget {
        left: budget.limit,
        ..budget
    };
    let (x, end, _) = expr(alloc, view, lenient, value_at, own)?;
    Ok((Stmt::Throw(token.span, x), end, budget.left))
}

/// `break` or `continue`.
pub fn jump(view: &TokenView, lenient: bool, at: usize, budget: Budget) -> Read<Stmt>
    requires { IsJump (drop at view.now) }
    ensures gives { Gives view.now result (read lenient (nonterminal.Statement nonterminal.Closed) budget.brackets budget.limit budget.left (drop at view.now)) }
    ensures moves { Moves at result }
    ensures inside { Inside (length view.now) result }
{
    if view.is(at, Test::Is(TokenKind::Break)) {
        let (token, end) = view.take(at);
        return Ok((Stmt::Break(token.span), end, budget.left));
    }
    let (token, after) = view.expect(at, Test::Is(TokenKind::Continue))?;
    Ok((Stmt::Continue(token.span), after, budget.left))
}
