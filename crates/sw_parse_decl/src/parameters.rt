//! Parameters.

ghost use Rattle.std.specs.Prelude.{◌≡◌, ◌≤◌, drop, false, length};
ghost use Rattle.sw_grammar.specs.Reading.{at_first};
ghost use Rattle.sw_syntax.specs.Answering.{read};
ghost use Rattle.sw_syntax.specs.Members.{param_list, param_names, params_part};
ghost use Rattle.sw_syntax.specs.ReadResults.{Gives, Inside, Moves, Stays};
ghost use Rattle.sw_syntax.specs.Nonterminals as nonterminal;
ghost use Rattle.sw_syntax.specs.Tests.{is_name};

use crate::builders;
use crate::marks::mark;
use sqlite_items::Items;
use std::alloc::Global;
use sw_lex::TokenKind;
use sw_parse_expr::type_;
use sw_syntax::{Budget, Opening, Read, Stop, Test, TokenView, expect_opening, stands, trimmed};
use sw_tree::{Name, Parameter, ParameterLabel};

/// The names of a parameter whose first is no name itself.
fn other_names(
    view: &TokenView,
    lenient: bool,
    at: usize,
    budget: Budget,
) -> Read<(ParameterLabel, Name)>
    requires { at_first is_name (drop at view.now) ≡ false }
    ensures gives { Gives view.now result (param_names lenient budget.brackets budget.limit budget.left (drop at view.now)) }
    ensures moves { Moves at result }
    ensures inside { Inside (length view.now) result }
{
    let (other, own_at) = expect_opening(view, at, Opening::OtherLabel)?;
    let (own, end) = view.expect(own_at, Test::Name)?;
    let label = builders::label(other)?;
    let name = builders::name(own)?;
    Ok(((label, name), end, budget.left))
}

/// The names before the `:` of a parameter.
fn names(view: &TokenView, lenient: bool, at: usize, budget: Budget) -> Read<(ParameterLabel, Name)>
    ensures gives { Gives view.now result (param_names lenient budget.brackets budget.limit budget.left (drop at view.now)) }
    ensures moves { Moves at result }
    ensures inside { Inside (length view.now) result }
{
    if !view.is(at, Test::Name) {
        return other_names(view, lenient, at, budget);
    }
    let (token, next) = view.take(at);
    let name = builders::name(token)?;
    if !view.is(next, Test::Name) {
        return Ok(((ParameterLabel::Own, name), next, budget.left));
    }
    let (own, end) = view.take(next);
    let own_name = builders::name(own)?;
    Ok(((ParameterLabel::Other(name), own_name), end, budget.left))
}

/// A parameter.
fn parameter(
    alloc: Global,
    view: &TokenView,
    lenient: bool,
    at: usize,
    budget: Budget,
) -> Read<Parameter>
    ensures gives { Gives view.now result (read lenient nonterminal.Param budget.brackets budget.limit budget.left (drop at view.now)) }
    ensures moves { Moves at result }
    ensures inside { Inside (length view.now) result }
{
    let (names, names_end, left) = names(view, lenient, at, budget)?;
    let (_, colon_end) = view.expect(names_end, Test::Is(TokenKind::Colon))?;
    let (inout, type_at) = mark(view, TokenKind::Inout, colon_end);
    let whole = Budget {
        left: budget.limit,
        ..budget
    };
    let (declared, type_end, _) = type_(alloc, view, lenient, type_at, whole)?;
    let (variadic, end) = mark(view, TokenKind::Ellipsis, type_end);
    let (label, name) = names;
    let parameter = Parameter {
        label,
        name,
        inout,
        declared,
        variadic,
    };
    Ok((parameter, end, left))
}

/// Parameters with commas between, perhaps none.
fn list(
    alloc: Global,
    view: &TokenView,
    lenient: bool,
    at: usize,
    budget: Budget,
) -> Read<Items<Parameter>>
    requires { at ≤ length view.now }
    ensures gives { Gives view.now result (param_list lenient budget.brackets budget.limit budget.left (drop at view.now)) }
    ensures stays { Stays at result }
    ensures inside { Inside (length view.now) result }
{
    let mut xs = Items::new(alloc);
    if !stands(view, at, Opening::Parameter) {
        return Ok((xs, at, budget.left));
    }
    let (x, mut end, mut left) = parameter(alloc, view, lenient, at, budget)?;
    xs.push(x)?;
    'parameters: while view.is(end, Test::Is(TokenKind::Comma)) {
        let (_, next) = view.take(end);
        let (y, y_end, y_left) = parameter(alloc, view, lenient, next, Budget { left, ..budget })?;
        xs.push(y)?;
        end = y_end;
        left = y_left;
    }
    let kept = trimmed(alloc, xs)?;
    Ok((kept, end, left))
}

/// Parameters in brackets.
pub fn parameters(
    alloc: Global,
    view: &TokenView,
    lenient: bool,
    at: usize,
    budget: Budget,
) -> Read<Items<Parameter>>
    ensures gives { Gives view.now result (params_part lenient budget.brackets budget.limit budget.left (drop at view.now)) }
    ensures moves { Moves at result }
    ensures inside { Inside (length view.now) result }
{
    if !view.is(at, Test::Is(TokenKind::LeftParen)) {
        return Err(Stop::Refused { at, over: false });
    }
    if budget.brackets == 0 {
        return Err(Stop::Refused { at, over: true });
    }
    let (_, next) = view.take(at);
    let inner = Budget {
        brackets: budget.brackets - 1,
        ..budget
    };
    let (xs, end, left) = list(alloc, view, lenient, next, inner)?;
    let (_, after) = view.expect(end, Test::Is(TokenKind::RightParen))?;
    Ok((xs, after, left))
}
