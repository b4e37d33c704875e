//! The parts of statements in which no statement stands.

ghost use Rattle.std.specs.Prelude.{◌<◌, ◌≤◌, drop, length};
ghost use Rattle.sw_syntax.specs.Bodies.{annotation_part, catch_pattern, cond_list, label_part, loop_name, pattern_list, range_part};
ghost use Rattle.sw_syntax.specs.ReadResults.{Gives, Inside, Moves, Stays};

use crate::builders;
use sqlite_items::Items;
use std::alloc::Global;
use sw_lex::TokenKind;
use sw_parse_expr::{catch_pattern, condition, expr, pattern, type_};
use sw_syntax::{Budget, Opening, Read, Test, TokenView, stands, trimmed};
use sw_tree::{ArmLabel, CatchPattern, Condition, Name, Pattern, RangeEnd, Type};

/// The `:` and the type at this position, if they stand there.
pub fn annotation(
    alloc: Global,
    view: &TokenView,
    lenient: bool,
    at: usize,
    budget: Budget,
) -> Read<Option<Type>>
    requires { at ≤ length view.now }
    ensures gives { Gives view.now result (annotation_part lenient budget.brackets budget.limit budget.left (drop at view.now)) }
    ensures stays { Stays at result }
    ensures inside { Inside (length view.now) result }
{
    if !view.is(at, Test::Is(TokenKind::Colon)) {
        return Ok((None, at, budget.left));
    }
    let (_, next) = view.take(at);
    let own = Budget {
        left: budget.limit,
        ..budget
    };
    let (x, end, _) = type_(alloc, view, lenient, next, own)?;
    Ok((Some(x), end, budget.left))
}

/// Conditions with commas between, at least one.
pub fn conditions(
    alloc: Global,
    view: &TokenView,
    lenient: bool,
    at: usize,
    budget: Budget,
) -> Read<Items<Condition>>
    requires { at ≤ length view.now }
    ensures gives { Gives view.now result (cond_list lenient budget.brackets budget.limit budget.left (drop at view.now)) }
    ensures moves { Moves at result }
    ensures inside { Inside (length view.now) result }
{
    let mut xs = Items::new(alloc);
    let (x, mut end, mut left) = condition(alloc, view, lenient, at, budget)?;
    xs.push(x)?;
    'conditions: while view.is(end, Test::Is(TokenKind::Comma)) {
        let (_, next) = view.take(end);
        let (y, y_end, y_left) = condition(alloc, view, lenient, next, Budget { left, ..budget })?;
        xs.push(y)?;
        end = y_end;
        left = y_left;
    }
    let kept = trimmed(alloc, xs)?;
    Ok((kept, end, left))
}

/// The name of a `for`, or its `_`.
pub fn loop_name(view: &TokenView, lenient: bool, at: usize, budget: Budget) -> Read<Option<Name>>
    ensures gives { Gives view.now result (loop_name lenient budget.brackets budget.limit budget.left (drop at view.now)) }
    ensures moves { Moves at result }
    ensures inside { Inside (length view.now) result }
{
    if view.is(at, Test::Name) {
        let (token, end) = view.take(at);
        let name = builders::name(token)?;
        return Ok((Some(name), end, budget.left));
    }
    let (_, after) = view.expect(at, Test::Is(TokenKind::Underscore))?;
    Ok((None, after, budget.left))
}

/// The mark of a range and its second end, if they stand at this position.
pub fn range_end(
    alloc: Global,
    view: &TokenView,
    lenient: bool,
    at: usize,
    budget: Budget,
) -> Read<Option<RangeEnd>>
    requires { at ≤ length view.now }
    ensures gives { Gives view.now result (range_part lenient budget.brackets budget.limit budget.left (drop at view.now)) }
    ensures stays { Stays at result }
    ensures inside { Inside (length view.now) result }
{
    if !stands(view, at, Opening::Range) {
        return Ok((None, at, budget.left));
    }
    let (mark, next) = view.take(at);
    let own = Budget {
        left: budget.limit,
        ..budget
    };
    let (value, end, _) = expr(alloc, view, lenient, next, own)?;
    let operator = builders::range_operator(mark.kind);
    let end_of_range = RangeEnd {
        span: mark.span,
        operator,
        value,
    };
    Ok((Some(end_of_range), end, budget.left))
}

/// The pattern of a `catch`, if one stands at this position.
pub fn caught(
    alloc: Global,
    view: &TokenView,
    lenient: bool,
    at: usize,
    budget: Budget,
) -> Read<Option<CatchPattern>>
    requires { at ≤ length view.now }
    ensures gives { Gives view.now result (catch_pattern lenient budget.brackets budget.limit budget.left (drop at view.now)) }
    ensures stays { Stays at result }
    ensures inside { Inside (length view.now) result }
{
    if !stands(view, at, Opening::CatchPattern) {
        return Ok((None, at, budget.left));
    }
    let (x, end, left) = catch_pattern(alloc, view, lenient, at, budget)?;
    Ok((Some(x), end, left))
}

/// Patterns with commas between, perhaps none.
fn patterns(
    alloc: Global,
    view: &TokenView,
    lenient: bool,
    at: usize,
    budget: Budget,
) -> Read<Items<Pattern>>
    requires { at ≤ length view.now }
    ensures gives { Gives view.now result (pattern_list lenient budget.brackets budget.limit budget.left (drop at view.now)) }
    ensures stays { Stays at result }
    ensures inside { Inside (length view.now) result }
{
    let mut xs = Items::new(alloc);
    if !stands(view, at, Opening::Pattern) {
        return Ok((xs, at, budget.left));
    }
    let (x, mut end, mut left) = pattern(alloc, view, lenient, at, budget)?;
    xs.push(x)?;
    'patterns: while view.is(end, Test::Is(TokenKind::Comma)) {
        let (_, next) = view.take(end);
        let (y, y_end, y_left) = pattern(alloc, view, lenient, next, Budget { left, ..budget })?;
        xs.push(y)?;
        end = y_end;
        left = y_left;
    }
    let kept = trimmed(alloc, xs)?;
    Ok((kept, end, left))
}

/// `case` and its patterns, or `default`.
pub fn label(
    alloc: Global,
    view: &TokenView,
    lenient: bool,
    at: usize,
    budget: Budget,
) -> Read<ArmLabel>
    ensures gives { Gives view.now result (label_part lenient budget.brackets budget.limit budget.left (drop at view.now)) }
    ensures moves { Moves at result }
    ensures inside { Inside (length view.now) result }
{
    if view.is(at, Test::Is(TokenKind::Case)) {
        let (_, next) = view.take(at);
        let (xs, end, left) = patterns(alloc, view, lenient, next, budget)?;
        return Ok((ArmLabel::Case(xs), end, left));
    }
    let (_, after) = view.expect(at, Test::Is(TokenKind::Default))?;
    Ok((ArmLabel::Default, after, budget.left))
}
