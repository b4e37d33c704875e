//! Patterns of a `catch`.

ghost use Rattle.std.specs.Prelude.{◌≡◌, ◌<◌, ◌≤◌, ◌||◌, drop, length};
ghost use Rattle.sw_grammar.specs.Reading.{at_first};
ghost use Rattle.sw_lex.specs.declared.token.TokenKind.TheVariants as k;
ghost use Rattle.sw_syntax.specs.Answering.{read};
ghost use Rattle.sw_syntax.specs.Patterns.{bind_list, bind_part, binds_part};
ghost use Rattle.sw_syntax.specs.ReadResults.{Gives, Inside, Moves, Stays};
ghost use Rattle.sw_syntax.specs.Nonterminals as nonterminal;
ghost use Rattle.sw_syntax.specs.Tests.{is};

use crate::builders;
use sqlite_items::Items;
use std::alloc::Global;
use sw_lex::TokenKind;
use sw_syntax::{Budget, Read, Stop, Test, TokenView, trimmed};
use sw_tree::{Bind, CatchPattern};

fn starts_bind(view: &TokenView, at: usize) -> bool
    ensures { result ≡ at_first (λ t. is k.Let t || is k.Underscore t) (drop at view.now) }
{
    if view.is(at, Test::Is(TokenKind::Let)) {
        return true;
    }
    view.is(at, Test::Is(TokenKind::Underscore))
}

/// `let` and a name, or `_`.
fn bind(view: &TokenView, lenient: bool, at: usize, budget: Budget) -> Read<Bind>
    ensures gives { Gives view.now result (bind_part lenient budget.brackets budget.limit budget.left (drop at view.now)) }
    ensures moves { Moves at result }
    ensures inside { Inside (length view.now) result }
{
    if view.is(at, Test::Is(TokenKind::Let)) {
        let (_, next) = view.take(at);
        let (token, end) = view.expect(next, Test::Name)?;
        let name = builders::name(token)?;
        return Ok((Bind::Let(name), end, budget.left));
    }
    let (_, after) = view.expect(at, Test::Is(TokenKind::Underscore))?;
    Ok((Bind::Any, after, budget.left))
}

/// Binds with commas between, perhaps none.
fn bind_list(
    alloc: Global,
    view: &TokenView,
    lenient: bool,
    at: usize,
    budget: Budget,
) -> Read<Items<Bind>>
    requires { at ≤ length view.now }
    ensures gives { Gives view.now result (bind_list lenient budget.brackets budget.limit budget.left (drop at view.now)) }
    ensures stays { Stays at result }
    ensures inside { Inside (length view.now) result }
{
    let mut xs = Items::new(alloc);
    if !starts_bind(view, at) {
        return Ok((xs, at, budget.left));
    }
    let (x, mut end, mut left) = bind(view, lenient, at, budget)?;
    xs.push(x)?;
    'binds: while view.is(end, Test::Is(TokenKind::Comma)) {
        let (_, next) = view.take(end);
        let (y, y_end, y_left) = bind(view, lenient, next, Budget { left, ..budget })?;
        xs.push(y)?;
        end = y_end;
        left = y_left;
    }
    let kept = trimmed(alloc, xs)?;
    Ok((kept, end, left))
}

/// Binds in brackets, if they stand there.
pub fn binds(
    alloc: Global,
    view: &TokenView,
    lenient: bool,
    at: usize,
    budget: Budget,
) -> Read<Option<Items<Bind>>>
    requires { at ≤ length view.now }
    ensures gives { Gives view.now result (binds_part lenient budget.brackets budget.limit budget.left (drop at view.now)) }
    ensures stays { Stays at result }
    ensures inside { Inside (length view.now) result }
{
    if !view.is(at, Test::Is(TokenKind::LeftParen)) {
        return Ok((None, at, budget.left));
    }
    if budget.brackets == 0 {
        return Err(Stop::Refused { at, over: true });
    }
    let (_, next) = view.take(at);
    let inner = Budget {
        brackets: budget.brackets - 1,
        ..budget
    };
    let (xs, end, left) = bind_list(alloc, view, lenient, next, inner)?;
    let (_, after) = view.expect(end, Test::Is(TokenKind::RightParen))?;
    Ok((Some(xs), after, left))
}

/// The pattern of a `catch` at this position.
pub fn catch_pattern(
    alloc: Global,
    view: &TokenView,
    lenient: bool,
    at: usize,
    budget: Budget,
) -> Read<CatchPattern>
    ensures gives { Gives view.now result (read lenient nonterminal.Caught budget.brackets budget.limit budget.left (drop at view.now)) }
    ensures moves { Moves at result }
    ensures inside { Inside (length view.now) result }
{
    if view.is(at, Test::Is(TokenKind::Let)) {
        let (_, next) = view.take(at);
        let (token, token_end) = view.expect(next, Test::Name)?;
        let (_, as_end) = view.expect(token_end, Test::Is(TokenKind::As))?;
        let (type_token, type_end) = view.expect(as_end, Test::Name)?;
        let name = builders::name(token)?;
        let type_name = builders::name(type_token)?;
        return Ok((CatchPattern::As(name, type_name), type_end, budget.left));
    }
    let (outer_token, outer_end) = view.expect(at, Test::Name)?;
    let (_, dot_end) = view.expect(outer_end, Test::Is(TokenKind::Dot))?;
    let (case_token, case_end) = view.expect(dot_end, Test::Name)?;
    let (xs, end, left) = binds(alloc, view, lenient, case_end, budget)?;
    let outer = builders::name(outer_token)?;
    let case_name = builders::name(case_token)?;
    Ok((CatchPattern::Case(outer, case_name, xs), end, left))
}
