//! Conditions, and the value of a new name.

ghost use Rattle.std.specs.Prelude.{◌≡◌, ◌<◌, ◌≤◌, drop, length};
ghost use Rattle.sw_syntax.specs.Bodies.{initial_part};
ghost use Rattle.sw_syntax.specs.Answering.{read};
ghost use Rattle.sw_syntax.specs.ReadResults.{Gives, Inside, Moves, Stays};
ghost use Rattle.sw_syntax.specs.Nonterminals as nonterminal;
ghost use Rattle.sw_syntax.specs.Values as value;

use crate::builders;
use crate::expressions::expr;
use std::alloc::Global;
use sw_lex::TokenKind;
use sw_syntax::{Budget, Read, Test, TokenView};
use sw_tree::{Binding, Condition, Expr};

fn binding(kind: TokenKind) -> Binding
    ensures { result ≡ value.binding_of kind }
{
    match kind {
        TokenKind::Let => Binding::Let,
        _ => Binding::Var,
    }
}

/// The expression after `=`, if one stands at this position.
pub fn initial_value(
    alloc: Global,
    view: &TokenView,
    lenient: bool,
    at: usize,
    budget: Budget,
) -> Read<Option<Expr>>
    requires { at ≤ length view.now }
    ensures gives { Gives view.now result (initial_part lenient budget.brackets budget.limit budget.left (drop at view.now)) }
    ensures stays { Stays at result }
    ensures inside { Inside (length view.now) result }
{
    if !view.is(at, Test::Is(TokenKind::Assign)) {
        return Ok((None, at, budget.left));
    }
    let (_, next) = view.take(at);
    let own = Budget {
        left: budget.limit,
        ..budget
    };
    let (x, end, _) = expr(alloc, view, lenient, next, own)?;
    Ok((Some(x), end, budget.left))
}

/// The condition at this position.
pub fn condition(
    alloc: Global,
    view: &TokenView,
    lenient: bool,
    at: usize,
    budget: Budget,
) -> Read<Condition>
    requires { at ≤ length view.now }
    ensures gives { Gives view.now result (read lenient nonterminal.Condition budget.brackets budget.limit budget.left (drop at view.now)) }
    ensures moves { Moves at result }
    ensures inside { Inside (length view.now) result }
{
    if view.is(at, Test::Expr) {
        let own = Budget {
            left: budget.limit,
            ..budget
        };
        let (x, end, _) = expr(alloc, view, lenient, at, own)?;
        return Ok((Condition::Expr(x), end, budget.left));
    }
    let (mark, mark_end) = view.expect(at, Test::LetOrVar)?;
    let (token, token_end) = view.expect(mark_end, Test::Name)?;
    let (x, end, left) = initial_value(alloc, view, lenient, token_end, budget)?;
    let name = builders::name(token)?;
    Ok((Condition::Bind(binding(mark.kind), name, x), end, left))
}
