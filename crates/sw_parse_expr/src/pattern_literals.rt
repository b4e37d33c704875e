//! Literals as patterns: the expressions of a string have counts of their own.

ghost use Rattle.std.specs.Prelude.{◌≡◌, false, ◌<◌, drop, length, true};
ghost use Rattle.sw_grammar.specs.Reading.{at_first};
ghost use Rattle.sw_lex.specs.declared.token.TokenKind.TheVariants as k;
ghost use Rattle.sw_syntax.specs.Patterns.{literal_part};
ghost use Rattle.sw_syntax.specs.ReadResults.{Gives, Inside, Moves};
ghost use Rattle.sw_syntax.specs.Tests.{is, is_bool, starts_literal};

use crate::expressions::expr;
use crate::literals;
use sqlite_items::Items;
use std::alloc::Global;
use sw_base::Span;
use sw_lex::TokenKind;
use sw_syntax::{Budget, Read, Stop, Test, TokenView, trimmed};
use sw_tree::Literal;

/// A literal, and the place of its first token.
pub fn literal(
    alloc: Global,
    view: &TokenView,
    lenient: bool,
    at: usize,
    budget: Budget,
) -> Read<(Span, Literal)>
    requires { at_first starts_literal (drop at view.now) ≡ true }
    ensures gives { Gives view.now result (literal_part lenient budget.brackets budget.limit budget.left (drop at view.now)) }
    ensures moves { Moves at result }
    ensures inside { Inside (length view.now) result }
{
    if view.is(at, Test::Is(TokenKind::Integer)) {
        let (token, end) = view.take(at);
        return Ok((
            (token.span, literals::integer_value(token)),
            end,
            budget.left,
        ));
    }
    if view.is(at, Test::Bool) {
        let (token, end) = view.take(at);
        return Ok((
            (token.span, literals::boolean_value(token)),
            end,
            budget.left,
        ));
    }
    if view.is(at, Test::Is(TokenKind::StringWhole)) {
        let (token, end) = view.take(at);
        let value = literals::text_value(alloc, token)?;
        return Ok(((token.span, value), end, budget.left));
    }
    string(alloc, view, lenient, at, budget)
}

/// A string with expressions in it.
fn string(
    alloc: Global,
    view: &TokenView,
    lenient: bool,
    at: usize,
    budget: Budget,
) -> Read<(Span, Literal)>
    requires { (at_first (is k.Integer) (drop at view.now) ≡ false) × (at_first is_bool (drop at view.now) ≡ false) × (at_first (is k.StringWhole) (drop at view.now) ≡ false) × (at_first (is k.StringStart) (drop at view.now) ≡ true) × (at < length view.now) }
    ensures gives { Gives view.now result (literal_part lenient budget.brackets budget.limit budget.left (drop at view.now)) }
    ensures moves { Moves at result }
    ensures inside { Inside (length view.now) result }
{
    if budget.brackets == 0 {
        return Err(Stop::Refused { at, over: true });
    }
    let (start, next) = view.take(at);
    let inner = Budget {
        brackets: budget.brackets - 1,
        left: budget.limit,
        ..budget
    };
    let mut pieces = Items::new(alloc);
    let (mut x, mut end, _) = expr(alloc, view, lenient, next, inner)?;
    'pieces: while view.is(end, Test::Is(TokenKind::StringMiddle)) {
        let (middle, next) = view.take(end);
        let piece = literals::piece(x, middle)?;
        pieces.push(piece)?;
        let (y, y_end, _) = expr(alloc, view, lenient, next, inner)?;
        x = y;
        end = y_end;
    }
    let (last, after) = view.expect(end, Test::Is(TokenKind::StringLast))?;
    let piece = literals::piece(x, last)?;
    pieces.push(piece)?;
    let kept = trimmed(alloc, pieces)?;
    let value = literals::string_value(alloc, start, kept)?;
    Ok(((start.span, value), after, budget.left))
}
