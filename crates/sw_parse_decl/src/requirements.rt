//! Requirements of protocols.

ghost use Rattle.std.specs.Prelude.{◌≡◌, ◌<◌, ◌≤◌, [], drop, length, true};
ghost use Rattle.sw_grammar.specs.Reading.{at_first};
ghost use Rattle.sw_lex.specs.declared.token.TokenKind.TheVariants as k;
ghost use Rattle.sw_syntax.specs.Lists.{items_from};
ghost use Rattle.sw_syntax.specs.Answering.{read};
ghost use Rattle.sw_syntax.specs.Members.{get_block};
ghost use Rattle.sw_syntax.specs.ReadResults.{Gives, Inside, Moves, Stays, met};
ghost use Rattle.sw_syntax.specs.Nonterminals as nonterminal;
ghost use Rattle.sw_syntax.specs.Tests.{is};

use crate::builders;
use crate::lists::past_separator;
use crate::modifiers::modifiers;
use crate::signatures::signature;
use sqlite_items::Items;
use std::alloc::Global;
use sw_lex::{TokenKind, TokenRef};
use sw_parse_expr::type_;
use sw_syntax::{Budget, Opening, Read, Stop, Test, TokenView, expect_opening, stands};
use sw_tree::Requirement;

/// The `get` between the braces of a property, and the position after the braces.
fn get_block<'a>(
    view: &TokenView<'a>,
    lenient: bool,
    at: usize,
    budget: Budget,
) -> Result<(TokenRef<'a>, usize), Stop>
    ensures gives { Gives view.now (met budget.left result) (get_block lenient budget.brackets budget.limit budget.left (drop at view.now)) }
    ensures moves { Moves at (met 0 result) }
    ensures inside { Inside (length view.now) (met 0 result) }
{
    if !view.is(at, Test::Is(TokenKind::LeftBrace)) {
        return Err(Stop::Refused { at, over: false });
    }
    if budget.brackets == 0 {
        return Err(Stop::Refused { at, over: true });
    }
    let (_, next) = view.take(at);
    let (get, get_end) = expect_opening(view, next, Opening::Get)?;
    let (_, end) = view.expect(get_end, Test::Is(TokenKind::RightBrace))?;
    Ok((get, end))
}

/// A property that a protocol requires.
fn property(
    alloc: Global,
    view: &TokenView,
    lenient: bool,
    at: usize,
    budget: Budget,
) -> Read<Requirement>
    requires { (at_first (is k.Var) (drop at view.now) ≡ true) × (at < length view.now) }
    ensures gives { Gives view.now result (read lenient (nonterminal.Item nonterminal.Requirements) budget.brackets budget.limit budget.left (drop at view.now)) }
    ensures moves { Moves at result }
    ensures inside { Inside (length view.now) result }
{
    let (_, name_at) = view.take(at);
    let (token, name_end) = view.expect(name_at, Test::Name)?;
    let (_, type_at) = view.expect(name_end, Test::Is(TokenKind::Colon))?;
    let whole = Budget {
        left: budget.limit,
        ..budget
    };
    let (declared, type_end, _) = type_(alloc, view, lenient, type_at, whole)?;
    let (_, end) = get_block(view, lenient, type_end, budget)?;
    let name = builders::name(token)?;
    Ok((Requirement::Property(name, declared), end, budget.left))
}

/// A requirement of a protocol.
fn requirement(
    alloc: Global,
    view: &TokenView,
    lenient: bool,
    at: usize,
    budget: Budget,
) -> Read<Requirement>
    requires { at ≤ length view.now }
    ensures gives { Gives view.now result (read lenient (nonterminal.Item nonterminal.Requirements) budget.brackets budget.limit budget.left (drop at view.now)) }
    ensures moves { Moves at result }
    ensures inside { Inside (length view.now) result }
{
    if view.is(at, Test::Is(TokenKind::Var)) {
        return property(alloc, view, lenient, at, budget);
    }
    let (modifiers, next, left) = modifiers(alloc, view, lenient, at, budget)?;
    let (x, end, left) = signature(
        alloc,
        view,
        lenient,
        modifiers,
        next,
        Budget { left, ..budget },
    )?;
    Ok((Requirement::Func(x), end, left))
}

/// Requirements that `;` or line breaks separate, perhaps none.
pub fn requirements(
    alloc: Global,
    view: &TokenView,
    lenient: bool,
    at: usize,
    budget: Budget,
) -> Read<Items<Requirement>>
    requires { at ≤ length view.now }
    ensures gives { Gives view.now result (items_from lenient nonterminal.Requirements budget.brackets budget.limit budget.left [] (drop at view.now)) }
    ensures stays { Stays at result }
    ensures inside { Inside (length view.now) result }
{
    let mut xs = Items::new(alloc);
    let mut end = at;
    let mut left = budget.left;
    'items: while stands(view, end, Opening::Requirement) {
        let (x, x_end, x_left) = requirement(alloc, view, lenient, end, Budget { left, ..budget })?;
        xs.push(x)?;
        match past_separator(view, x_end) {
            Some(next) => {
                end = next;
                left = x_left;
            }
            None => return Ok((xs, x_end, x_left)),
        }
    }
    Ok((xs, end, left))
}
