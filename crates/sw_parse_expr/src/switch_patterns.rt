//! Patterns of a `switch`.

ghost use Rattle.std.specs.Prelude.{◌≡◌, false, ◌<◌, ◌≤◌, drop, length};
ghost use Rattle.sw_grammar.specs.Reading.{at_first};
ghost use Rattle.sw_lex.specs.declared.token.TokenKind.TheVariants as k;
ghost use Rattle.sw_syntax.specs.Answering.{read};
ghost use Rattle.sw_syntax.specs.Patterns.{type_part};
ghost use Rattle.sw_syntax.specs.ReadResults.{Gives, Inside, Moves, Stays};
ghost use Rattle.sw_syntax.specs.Nonterminals as nonterminal;
ghost use Rattle.sw_syntax.specs.Tests.{is, starts_literal};

use crate::builders;
use crate::pattern_literals::literal;
use crate::patterns::binds;
use std::alloc::Global;
use sw_base::Span;
use sw_lex::TokenKind;
use sw_syntax::{Budget, Read, Test, TokenView};
use sw_tree::{Literal, Name, Pattern};

fn literal_pattern(x: (Span, Literal)) -> Pattern
    ensures { result ≡ Pattern.Literal x.0 x.1 }
{
    Pattern::Literal(x.0, x.1)
}

/// The pattern of a `switch` at this position.
pub fn pattern(
    alloc: Global,
    view: &TokenView,
    lenient: bool,
    at: usize,
    budget: Budget,
) -> Read<Pattern>
    requires { at ≤ length view.now }
    ensures gives { Gives view.now result (read lenient nonterminal.Pattern budget.brackets budget.limit budget.left (drop at view.now)) }
    ensures moves { Moves at result }
    ensures inside { Inside (length view.now) result }
{
    if view.is(at, Test::Is(TokenKind::Underscore)) {
        let (token, end) = view.take(at);
        return Ok((Pattern::Any(token.span), end, budget.left));
    }
    if view.is(at, Test::Literal) {
        let (x, end, left) = literal(alloc, view, lenient, at, budget)?;
        return Ok((literal_pattern(x), end, left));
    }
    if view.is(at, Test::Is(TokenKind::Nil)) {
        let (token, end) = view.take(at);
        return Ok((Pattern::Nil(token.span), end, budget.left));
    }
    case(alloc, view, lenient, at, budget)
}

/// The type before the `.` of a case, if one stands there.
fn case_type(view: &TokenView, lenient: bool, at: usize, budget: Budget) -> Read<Option<Name>>
    requires { at ≤ length view.now }
    ensures gives { Gives view.now result (type_part lenient budget.brackets budget.limit budget.left (drop at view.now)) }
    ensures stays { Stays at result }
    ensures inside { Inside (length view.now) result }
{
    if !view.is(at, Test::Name) {
        return Ok((None, at, budget.left));
    }
    let (token, end) = view.take(at);
    let name = builders::name(token)?;
    Ok((Some(name), end, budget.left))
}

/// A case of an enum, perhaps with its type before it and with binds after it.
fn case(alloc: Global, view: &TokenView, lenient: bool, at: usize, budget: Budget) -> Read<Pattern>
    requires { (at_first (is k.Underscore) (drop at view.now) ≡ false) × (at_first starts_literal (drop at view.now) ≡ false) × (at_first (is k.Nil) (drop at view.now) ≡ false) × (at ≤ length view.now) }
    ensures gives { Gives view.now result (read lenient nonterminal.Pattern budget.brackets budget.limit budget.left (drop at view.now)) }
    ensures moves { Moves at result }
    ensures inside { Inside (length view.now) result }
{
    let (outer, type_end, left) = case_type(view, lenient, at, budget)?;
    let (dot, dot_end) = view.expect(type_end, Test::Is(TokenKind::Dot))?;
    let (token, token_end) = view.expect(dot_end, Test::Name)?;
    let (xs, end, left) = binds(alloc, view, lenient, token_end, Budget { left, ..budget })?;
    let name = builders::name(token)?;
    Ok((Pattern::Case(outer, dot.span, name, xs), end, left))
}
