//! Statements that end in a block, or in a word alone.

ghost use Rattle.std.specs.Prelude.{◌≡◌, false, ◌<◌, ◌≤◌, [], drop, length, true};
ghost use Rattle.sw_grammar.specs.Reading.{at_first};
ghost use Rattle.sw_lex.specs.declared.token.TokenKind.TheVariants as k;
ghost use Rattle.sw_syntax.specs.Bodies.{IsNoCondition, catches_from};
ghost use Rattle.sw_syntax.specs.Answering.{read};
ghost use Rattle.sw_syntax.specs.ReadResults.{Gives, Inside, Moves, Stays};
ghost use Rattle.sw_syntax.specs.Nonterminals as nonterminal;
ghost use Rattle.sw_syntax.specs.Tests.{is};

use crate::bodies::block;
use crate::branches::if_statement;
use crate::parts::{caught, conditions, loop_name, range_end};
use crate::simple::jump;
use crate::switches::switch_statement;
use sqlite_items::Items;
use std::alloc::Global;
use sw_lex::TokenKind;
use sw_parse_expr::expr;
use sw_syntax::{Budget, Opening, Read, Test, TokenView, expect_opening, trimmed};
use sw_tree::{Catch, Stmt};

/// A statement at this position that does not end in an expression, and is no `return`.
#[cycle(stmt)]
pub fn closed_statement(
    alloc: Global,
    view: &TokenView,
    lenient: bool,
    at: usize,
    budget: Budget,
) -> Read<Stmt>
    ensures gives { Gives view.now result (read lenient (nonterminal.Statement nonterminal.Closed) budget.brackets budget.limit budget.left (drop at view.now)) }
    ensures moves { Moves at result }
    ensures inside { Inside (length view.now) result }
{
    if view.is(at, Test::Is(TokenKind::If)) {
        return if_statement(alloc, view, lenient, at, budget);
    }
    if view.is(at, Test::Is(TokenKind::Guard)) {
        return guard_statement(alloc, view, lenient, at, budget);
    }
    if view.is(at, Test::Is(TokenKind::While)) {
        return while_statement(alloc, view, lenient, at, budget);
    }
    if view.is(at, Test::Is(TokenKind::For)) {
        return for_statement(alloc, view, lenient, at, budget);
    }
    if view.is(at, Test::Is(TokenKind::Switch)) {
        return switch_statement(alloc, view, lenient, at, budget);
    }
    if view.is(at, Test::Is(TokenKind::Do)) {
        return do_statement(alloc, view, lenient, at, budget);
    }
    jump(view, lenient, at, budget)
}

/// `guard`, its conditions, and the block after its `else`.
#[cycle(stmt)]
fn guard_statement(
    alloc: Global,
    view: &TokenView,
    lenient: bool,
    at: usize,
    budget: Budget,
) -> Read<Stmt>
    requires { (at_first (is k.If) (drop at view.now) ≡ false) × (at_first (is k.Guard) (drop at view.now) ≡ true) × (at < length view.now) }
    ensures gives { Gives view.now result (read lenient (nonterminal.Statement nonterminal.Closed) budget.brackets budget.limit budget.left (drop at view.now)) }
    ensures moves { Moves at result }
    ensures inside { Inside (length view.now) result }
{
    let (token, next) = view.take(at);
    let (conditions, end, left) = conditions(alloc, view, lenient, next, budget)?;
    let (_, block_at) = expect_opening(view, end, Opening::AnyElse)?;
    let (body, after, left) = block(alloc, view, lenient, block_at, Budget { left, ..budget })?;
    Ok((Stmt::Guard(token.span, conditions, body), after, left))
}

/// `while`, its conditions and its block.
#[cycle(stmt)]
fn while_statement(
    alloc: Global,
    view: &TokenView,
    lenient: bool,
    at: usize,
    budget: Budget,
) -> Read<Stmt>
    requires { (at_first (is k.If) (drop at view.now) ≡ false) × (at_first (is k.Guard) (drop at view.now) ≡ false) × (at_first (is k.While) (drop at view.now) ≡ true) × (at < length view.now) }
    ensures gives { Gives view.now result (read lenient (nonterminal.Statement nonterminal.Closed) budget.brackets budget.limit budget.left (drop at view.now)) }
    ensures moves { Moves at result }
    ensures inside { Inside (length view.now) result }
{
    let (token, next) = view.take(at);
    let (conditions, end, left) = conditions(alloc, view, lenient, next, budget)?;
    let (body, after, left) = block(alloc, view, lenient, end, Budget { left, ..budget })?;
    Ok((Stmt::While(token.span, conditions, body), after, left))
}

/// `for`, its name, what it goes over, and its block.
#[cycle(stmt)]
fn for_statement(
    alloc: Global,
    view: &TokenView,
    lenient: bool,
    at: usize,
    budget: Budget,
) -> Read<Stmt>
    requires { IsNoCondition (drop at view.now) × (at_first (is k.For) (drop at view.now) ≡ true) × (at < length view.now) }
    ensures gives { Gives view.now result (read lenient (nonterminal.Statement nonterminal.Closed) budget.brackets budget.limit budget.left (drop at view.now)) }
    ensures moves { Moves at result }
    ensures inside { Inside (length view.now) result }
{
    let (token, next) = view.take(at);
    let (name, name_end, left) = loop_name(view, lenient, next, budget)?;
    let (_, start_at) = view.expect(name_end, Test::Is(TokenKind::In))?;
    let own = Budget {
        left: budget.limit,
        ..budget
    };
    let (start, start_end, _) = expr(alloc, view, lenient, start_at, own)?;
    let (range, block_at, left) = range_end(
        alloc,
        view,
        lenient,
        start_end,
        Budget { left, ..budget },
    )?;
    let (body, after, left) = block(alloc, view, lenient, block_at, Budget { left, ..budget })?;
    Ok((Stmt::For(token.span, name, start, range, body), after, left))
}

/// Each `catch` at this position, perhaps none.
#[cycle(stmt)]
fn catches(
    alloc: Global,
    view: &TokenView,
    lenient: bool,
    at: usize,
    budget: Budget,
) -> Read<Items<Catch>>
    requires { at ≤ length view.now }
    ensures gives { Gives view.now result (catches_from lenient budget.brackets budget.limit budget.left [] (drop at view.now)) }
    ensures stays { Stays at result }
    ensures inside { Inside (length view.now) result }
{
    let mut xs = Items::new(alloc);
    let mut end = at;
    let mut left = budget.left;
    'catches: while view.is(end, Test::Is(TokenKind::Catch)) {
        let (mark, next) = view.take(end);
        let (pattern, block_at, block_left) = caught(
            alloc,
            view,
            lenient,
            next,
            Budget { left, ..budget },
        )?;
        let inner = Budget {
            left: block_left,
            ..budget
        };
        let (body, body_end, body_left) = block(alloc, view, lenient, block_at, inner)?;
        let span = mark.span;
        xs.push(Catch {
            span,
            pattern,
            body,
        })?;
        end = body_end;
        left = body_left;
    }
    let kept = trimmed(alloc, xs)?;
    Ok((kept, end, left))
}

/// `do`, its block, and each `catch` after that.
#[cycle(stmt)]
fn do_statement(
    alloc: Global,
    view: &TokenView,
    lenient: bool,
    at: usize,
    budget: Budget,
) -> Read<Stmt>
    requires { IsNoCondition (drop at view.now) × (at_first (is k.For) (drop at view.now) ≡ false) × (at_first (is k.Switch) (drop at view.now) ≡ false) × (at_first (is k.Do) (drop at view.now) ≡ true) × (at < length view.now) }
    ensures gives { Gives view.now result (read lenient (nonterminal.Statement nonterminal.Closed) budget.brackets budget.limit budget.left (drop at view.now)) }
    ensures moves { Moves at result }
    ensures inside { Inside (length view.now) result }
{
    let (token, next) = view.take(at);
    let (body, end, left) = block(alloc, view, lenient, next, budget)?;
    let (handlers, after, left) = catches(alloc, view, lenient, end, Budget { left, ..budget })?;
    Ok((Stmt::Do(token.span, body, handlers), after, left))
}
