//! Cases of enums, and the items that they stand among.

ghost use Rattle.std.specs.Prelude.{◌≡◌, ◌≤◌, [], drop, length, IfOk, Some};
ghost use Rattle.sw_syntax.specs.Lists.{items_from};
ghost use Rattle.sw_syntax.specs.Answering.{read};
ghost use Rattle.sw_syntax.specs.Members.{case_list, payload_list, payload_part};
ghost use Rattle.sw_syntax.specs.ReadResults.{Gives, Inside, Moves, Stays};
ghost use Rattle.sw_syntax.specs.Sights.{lent_face};
ghost use Rattle.sw_syntax.specs.Nonterminals as nonterminal;
ghost use Rattle.sw_syntax.specs.Values.{name_of};

use crate::builders;
use crate::lists::past_separator;
use crate::members::member;
use sqlite_items::Items;
use std::alloc::Global;
use sw_base::NoMemory;
use sw_lex::{TokenKind, TokenRef};
use sw_parse_expr::type_;
use sw_syntax::{Budget, Opening, Read, Stop, Test, TokenView, stands, trimmed};
use sw_tree::{Case, EnumItem, Payload, Type};

/// A part of a payload with the label that a token spells.
fn labelled(token: TokenRef<'_>, declared: Type) -> Result<Payload, NoMemory>
    ensures { IfOk result (λ x. x ≡ record { label = Some (name_of (lent_face token.entry)); declared = declared }) }
{
    let label = builders::name(token)?;
    Ok(Payload {
        label: Some(label),
        declared,
    })
}

/// A part of a payload, perhaps with a label.
fn payload(
    alloc: Global,
    view: &TokenView,
    lenient: bool,
    at: usize,
    budget: Budget,
) -> Read<Payload>
    ensures gives { Gives view.now result (read lenient nonterminal.Payload budget.brackets budget.limit budget.left (drop at view.now)) }
    ensures moves { Moves at result }
    ensures inside { Inside (length view.now) result }
{
    let whole = Budget {
        left: budget.limit,
        ..budget
    };
    if stands(view, at, Opening::PayloadLabel) {
        let (token, next) = view.take(at);
        let (_, type_at) = view.expect(next, Test::Is(TokenKind::Colon))?;
        let (declared, end, _) = type_(alloc, view, lenient, type_at, whole)?;
        let payload = labelled(token, declared)?;
        return Ok((payload, end, budget.left));
    }
    if !stands(view, at, Opening::BareType) {
        return Err(Stop::Refused { at, over: false });
    }
    let (declared, end, _) = type_(alloc, view, lenient, at, whole)?;
    let payload = Payload {
        label: None,
        declared,
    };
    Ok((payload, end, budget.left))
}

/// The parts of a payload with commas between, perhaps none.
fn payload_list(
    alloc: Global,
    view: &TokenView,
    lenient: bool,
    at: usize,
    budget: Budget,
) -> Read<Items<Payload>>
    requires { at ≤ length view.now }
    ensures gives { Gives view.now result (payload_list lenient budget.brackets budget.limit budget.left (drop at view.now)) }
    ensures stays { Stays at result }
    ensures inside { Inside (length view.now) result }
{
    let mut xs = Items::new(alloc);
    if !stands(view, at, Opening::Payload) {
        return Ok((xs, at, budget.left));
    }
    let (x, mut end, mut left) = payload(alloc, view, lenient, at, budget)?;
    xs.push(x)?;
    'payloads: while view.is(end, Test::Is(TokenKind::Comma)) {
        let (_, next) = view.take(end);
        let (y, y_end, y_left) = payload(alloc, view, lenient, next, Budget { left, ..budget })?;
        xs.push(y)?;
        end = y_end;
        left = y_left;
    }
    let kept = trimmed(alloc, xs)?;
    Ok((kept, end, left))
}

/// The payload of a case, if it stands there.
fn payloads(
    alloc: Global,
    view: &TokenView,
    lenient: bool,
    at: usize,
    budget: Budget,
) -> Read<Option<Items<Payload>>>
    requires { at ≤ length view.now }
    ensures gives { Gives view.now result (payload_part lenient budget.brackets budget.limit budget.left (drop at view.now)) }
    ensures stays { Stays at result }
    ensures inside { Inside (length view.now) result }
{
    if !view.is(at, Test::Is(TokenKind::LeftParen)) {
        return Ok((None, at, budget.left));
    }
    if budget.brackets == 0 {
        return Err(Stop::Refused { at, over: true });
    }
    let (_, next) = view.take(at);
    let inner = Budget {
        brackets: budget.brackets - 1,
        ..budget
    };
    let (xs, end, left) = payload_list(alloc, view, lenient, next, inner)?;
    let (_, after) = view.expect(end, Test::Is(TokenKind::RightParen))?;
    Ok((Some(xs), after, left))
}

/// A case of an enum.
fn case(alloc: Global, view: &TokenView, lenient: bool, at: usize, budget: Budget) -> Read<Case>
    ensures gives { Gives view.now result (read lenient nonterminal.Case budget.brackets budget.limit budget.left (drop at view.now)) }
    ensures moves { Moves at result }
    ensures inside { Inside (length view.now) result }
{
    let (token, name_end) = view.expect(at, Test::Name)?;
    let (payload, end, left) = payloads(alloc, view, lenient, name_end, budget)?;
    let name = builders::name(token)?;
    Ok((Case { name, payload }, end, left))
}

/// Cases with commas between, at least one.
fn case_list(
    alloc: Global,
    view: &TokenView,
    lenient: bool,
    at: usize,
    budget: Budget,
) -> Read<Items<Case>>
    ensures gives { Gives view.now result (case_list lenient budget.brackets budget.limit budget.left (drop at view.now)) }
    ensures moves { Moves at result }
    ensures inside { Inside (length view.now) result }
{
    let mut xs = Items::new(alloc);
    let (x, mut end, mut left) = case(alloc, view, lenient, at, budget)?;
    xs.push(x)?;
    'cases: while view.is(end, Test::Is(TokenKind::Comma)) {
        let (_, next) = view.take(end);
        let (y, y_end, y_left) = case(alloc, view, lenient, next, Budget { left, ..budget })?;
        xs.push(y)?;
        end = y_end;
        left = y_left;
    }
    let kept = trimmed(alloc, xs)?;
    Ok((kept, end, left))
}

/// An item of an enum.
fn enum_item(
    alloc: Global,
    view: &TokenView,
    lenient: bool,
    at: usize,
    budget: Budget,
) -> Read<EnumItem>
    requires { at ≤ length view.now }
    ensures gives { Gives view.now result (read lenient (nonterminal.Item nonterminal.EnumItems) budget.brackets budget.limit budget.left (drop at view.now)) }
    ensures moves { Moves at result }
    ensures inside { Inside (length view.now) result }
{
    if view.is(at, Test::Is(TokenKind::Case)) {
        let (_, next) = view.take(at);
        let (xs, end, left) = case_list(alloc, view, lenient, next, budget)?;
        return Ok((EnumItem::Cases(xs), end, left));
    }
    let (x, end, left) = member(alloc, view, lenient, at, budget)?;
    Ok((EnumItem::Member(x), end, left))
}

/// Items of an enum that `;` or line breaks separate, perhaps none.
pub fn enum_items(
    alloc: Global,
    view: &TokenView,
    lenient: bool,
    at: usize,
    budget: Budget,
) -> Read<Items<EnumItem>>
    requires { at ≤ length view.now }
    ensures gives { Gives view.now result (items_from lenient nonterminal.EnumItems budget.brackets budget.limit budget.left [] (drop at view.now)) }
    ensures stays { Stays at result }
    ensures inside { Inside (length view.now) result }
{
    let mut xs = Items::new(alloc);
    let mut end = at;
    let mut left = budget.left;
    'items: while stands(view, end, Opening::EnumItem) {
        let (x, x_end, x_left) = enum_item(alloc, view, lenient, end, Budget { left, ..budget })?;
        xs.push(x)?;
        match past_separator(view, x_end) {
            Some(next) => {
                end = next;
                left = x_left;
            }
            None => return Ok((xs, x_end, x_left)),
        }
    }
    Ok((xs, end, left))
}
