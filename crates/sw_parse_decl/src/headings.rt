//! Headings of types, and names for types.

ghost use Rattle.std.specs.Prelude.{◌≤◌, drop, length};
ghost use Rattle.sw_syntax.specs.Members.{conformances, heading_from, typealias_part};
ghost use Rattle.sw_syntax.specs.ReadResults.{Gives, Inside, Moves, Stays};

use crate::builders;
use sqlite_items::Items;
use std::alloc::Global;
use sw_lex::TokenKind;
use sw_parse_expr::type_;
use sw_syntax::{Budget, Read, Test, TokenView, trimmed};
use sw_tree::{Heading, Modifier, Name, Typealias};

/// The names after a `:`, if one stands there.
fn conformances(
    alloc: Global,
    view: &TokenView,
    lenient: bool,
    at: usize,
    budget: Budget,
) -> Read<Items<Name>>
    requires { at ≤ length view.now }
    ensures gives { Gives view.now result (conformances lenient budget.brackets budget.limit budget.left (drop at view.now)) }
    ensures stays { Stays at result }
    ensures inside { Inside (length view.now) result }
{
    let mut xs = Items::new(alloc);
    if !view.is(at, Test::Is(TokenKind::Colon)) {
        return Ok((xs, at, budget.left));
    }
    let (_, first) = view.take(at);
    let (token, mut end) = view.expect(first, Test::Name)?;
    let name = builders::name(token)?;
    xs.push(name)?;
    'names: while view.is(end, Test::Is(TokenKind::Comma)) {
        let (_, next) = view.take(end);
        let (other, other_end) = view.expect(next, Test::Name)?;
        let other_name = builders::name(other)?;
        xs.push(other_name)?;
        end = other_end;
    }
    let kept = trimmed(alloc, xs)?;
    Ok((kept, end, budget.left))
}

/// The heading of a type after its modifiers and its word.
pub fn heading(
    alloc: Global,
    view: &TokenView,
    lenient: bool,
    modifiers: Items<Modifier>,
    at: usize,
    budget: Budget,
) -> Read<Heading>
    requires { at ≤ length view.now }
    ensures gives { Gives view.now result (heading_from lenient budget.brackets budget.limit budget.left modifiers (drop at view.now)) }
    ensures moves { Moves at result }
    ensures inside { Inside (length view.now) result }
{
    let (token, name_end) = view.expect(at, Test::Name)?;
    let (conformances, end, left) = conformances(alloc, view, lenient, name_end, budget)?;
    let name = builders::name(token)?;
    let heading = Heading {
        modifiers,
        name,
        conformances,
    };
    Ok((heading, end, left))
}

/// A name for a type.
pub fn typealias(
    alloc: Global,
    view: &TokenView,
    lenient: bool,
    at: usize,
    budget: Budget,
) -> Read<Typealias>
    requires { at ≤ length view.now }
    ensures gives { Gives view.now result (typealias_part lenient budget.brackets budget.limit budget.left (drop at view.now)) }
    ensures moves { Moves at result }
    ensures inside { Inside (length view.now) result }
{
    let (mark, mark_end) = view.expect(at, Test::Is(TokenKind::Typealias))?;
    let (token, name_end) = view.expect(mark_end, Test::Name)?;
    let (_, assign_end) = view.expect(name_end, Test::Is(TokenKind::Assign))?;
    let whole = Budget {
        left: budget.limit,
        ..budget
    };
    let (target, end, _) = type_(alloc, view, lenient, assign_end, whole)?;
    let name = builders::name(token)?;
    let typealias = Typealias {
        span: mark.span,
        name,
        target,
    };
    Ok((typealias, end, budget.left))
}
