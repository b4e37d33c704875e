//! Declarations of a file.

ghost use Rattle.std.specs.Prelude.{◌≡◌, ◌<◌, ◌≤◌, [], drop, false, length, true};
ghost use Rattle.sw_grammar.specs.Reading.{at_first};
ghost use Rattle.sw_lex.specs.declared.token.TokenKind.TheVariants as k;
ghost use Rattle.sw_syntax.specs.Lists.{items_from};
ghost use Rattle.sw_syntax.specs.Answering.{read};
ghost use Rattle.sw_syntax.specs.Members.{decl_from, item_block};
ghost use Rattle.sw_syntax.specs.ReadResults.{Gives, Inside, Moves, Stays};
ghost use Rattle.sw_syntax.specs.Nonterminals as nonterminal;
ghost use Rattle.sw_syntax.specs.Tests.{is, is_actor};

use crate::builders;
use crate::cases::enum_items;
use crate::headings::{heading, typealias};
use crate::lists::past_separator;
use crate::members::members;
use crate::modifiers::modifiers;
use crate::requirements::requirements;
use crate::signatures::signature;
use sqlite_items::Items;
use std::alloc::Global;
use sw_lex::TokenKind;
use sw_parse_stmt::block;
use sw_syntax::{Budget, Opening, Read, Stop, Test, TokenView, stands, trimmed};
use sw_tree::{Decl, EnumItem, Func, Member, Modifier, Requirement};

/// Members between braces.
fn member_block(
    alloc: Global,
    view: &TokenView,
    lenient: bool,
    at: usize,
    budget: Budget,
) -> Read<Items<Member>>
    ensures gives { Gives view.now result (item_block lenient nonterminal.Members budget.brackets budget.limit budget.left (drop at view.now)) }
    ensures moves { Moves at result }
    ensures inside { Inside (length view.now) result }
{
    if !view.is(at, Test::Is(TokenKind::LeftBrace)) {
        return Err(Stop::Refused { at, over: false });
    }
    if budget.brackets == 0 {
        return Err(Stop::Refused { at, over: true });
    }
    let (_, next) = view.take(at);
    let inner = Budget {
        brackets: budget.brackets - 1,
        ..budget
    };
    let (xs, end, left) = members(alloc, view, lenient, next, inner)?;
    let (_, after) = view.expect(end, Test::Is(TokenKind::RightBrace))?;
    let kept = trimmed(alloc, xs)?;
    Ok((kept, after, left))
}

/// Items of an enum between braces.
fn enum_block(
    alloc: Global,
    view: &TokenView,
    lenient: bool,
    at: usize,
    budget: Budget,
) -> Read<Items<EnumItem>>
    ensures gives { Gives view.now result (item_block lenient nonterminal.EnumItems budget.brackets budget.limit budget.left (drop at view.now)) }
    ensures moves { Moves at result }
    ensures inside { Inside (length view.now) result }
{
    if !view.is(at, Test::Is(TokenKind::LeftBrace)) {
        return Err(Stop::Refused { at, over: false });
    }
    if budget.brackets == 0 {
        return Err(Stop::Refused { at, over: true });
    }
    let (_, next) = view.take(at);
    let inner = Budget {
        brackets: budget.brackets - 1,
        ..budget
    };
    let (xs, end, left) = enum_items(alloc, view, lenient, next, inner)?;
    let (_, after) = view.expect(end, Test::Is(TokenKind::RightBrace))?;
    let kept = trimmed(alloc, xs)?;
    Ok((kept, after, left))
}

/// Requirements of a protocol between braces.
fn requirement_block(
    alloc: Global,
    view: &TokenView,
    lenient: bool,
    at: usize,
    budget: Budget,
) -> Read<Items<Requirement>>
    ensures gives { Gives view.now result (item_block lenient nonterminal.Requirements budget.brackets budget.limit budget.left (drop at view.now)) }
    ensures moves { Moves at result }
    ensures inside { Inside (length view.now) result }
{
    if !view.is(at, Test::Is(TokenKind::LeftBrace)) {
        return Err(Stop::Refused { at, over: false });
    }
    if budget.brackets == 0 {
        return Err(Stop::Refused { at, over: true });
    }
    let (_, next) = view.take(at);
    let inner = Budget {
        brackets: budget.brackets - 1,
        ..budget
    };
    let (xs, end, left) = requirements(alloc, view, lenient, next, inner)?;
    let (_, after) = view.expect(end, Test::Is(TokenKind::RightBrace))?;
    let kept = trimmed(alloc, xs)?;
    Ok((kept, after, left))
}

/// A struct, after its modifiers.
fn struct_(
    alloc: Global,
    view: &TokenView,
    lenient: bool,
    modifiers: Items<Modifier>,
    at: usize,
    budget: Budget,
) -> Read<Decl>
    requires { (at_first (is k.Struct) (drop at view.now) ≡ true) × (at < length view.now) }
    ensures gives { Gives view.now result (decl_from lenient budget.brackets budget.limit budget.left modifiers (drop at view.now)) }
    ensures moves { Moves at result }
    ensures inside { Inside (length view.now) result }
{
    let (_, next) = view.take(at);
    let (heading, heading_end, left) = heading(alloc, view, lenient, modifiers, next, budget)?;
    let (members, end, left) = member_block(
        alloc,
        view,
        lenient,
        heading_end,
        Budget { left, ..budget },
    )?;
    Ok((Decl::Struct(heading, members), end, left))
}

/// An enum, after its modifiers.
fn enum_(
    alloc: Global,
    view: &TokenView,
    lenient: bool,
    modifiers: Items<Modifier>,
    at: usize,
    budget: Budget,
) -> Read<Decl>
    requires { (at_first (is k.Struct) (drop at view.now) ≡ false) × (at_first (is k.Enum) (drop at view.now) ≡ true) × (at < length view.now) }
    ensures gives { Gives view.now result (decl_from lenient budget.brackets budget.limit budget.left modifiers (drop at view.now)) }
    ensures moves { Moves at result }
    ensures inside { Inside (length view.now) result }
{
    let (_, next) = view.take(at);
    let (heading, heading_end, left) = heading(alloc, view, lenient, modifiers, next, budget)?;
    let (items, end, left) = enum_block(
        alloc,
        view,
        lenient,
        heading_end,
        Budget { left, ..budget },
    )?;
    Ok((Decl::Enum(heading, items), end, left))
}

/// A protocol, after its modifiers.
fn protocol(
    alloc: Global,
    view: &TokenView,
    lenient: bool,
    modifiers: Items<Modifier>,
    at: usize,
    budget: Budget,
) -> Read<Decl>
    requires { (at_first (is k.Struct) (drop at view.now) ≡ false) × (at_first (is k.Enum) (drop at view.now) ≡ false) × (at_first (is k.Protocol) (drop at view.now) ≡ true) × (at < length view.now) }
    ensures gives { Gives view.now result (decl_from lenient budget.brackets budget.limit budget.left modifiers (drop at view.now)) }
    ensures moves { Moves at result }
    ensures inside { Inside (length view.now) result }
{
    let (_, next) = view.take(at);
    let (heading, heading_end, left) = heading(alloc, view, lenient, modifiers, next, budget)?;
    let (requirements, end, left) = requirement_block(
        alloc,
        view,
        lenient,
        heading_end,
        Budget { left, ..budget },
    )?;
    Ok((Decl::Protocol(heading, requirements), end, left))
}

/// An actor, after its modifiers.
fn actor(
    alloc: Global,
    view: &TokenView,
    lenient: bool,
    modifiers: Items<Modifier>,
    at: usize,
    budget: Budget,
) -> Read<Decl>
    requires { (at_first (is k.Struct) (drop at view.now) ≡ false) × (at_first (is k.Enum) (drop at view.now) ≡ false) × (at_first (is k.Protocol) (drop at view.now) ≡ false) × (at_first is_actor (drop at view.now) ≡ true) × (at < length view.now) }
    ensures gives { Gives view.now result (decl_from lenient budget.brackets budget.limit budget.left modifiers (drop at view.now)) }
    ensures moves { Moves at result }
    ensures inside { Inside (length view.now) result }
{
    let (_, next) = view.take(at);
    let (heading, heading_end, left) = heading(alloc, view, lenient, modifiers, next, budget)?;
    let (members, end, left) = member_block(
        alloc,
        view,
        lenient,
        heading_end,
        Budget { left, ..budget },
    )?;
    Ok((Decl::Actor(heading, members), end, left))
}

/// A func, after its modifiers.
fn func(
    alloc: Global,
    view: &TokenView,
    lenient: bool,
    modifiers: Items<Modifier>,
    at: usize,
    budget: Budget,
) -> Read<Decl>
    requires { (at ≤ length view.now) × (at_first (is k.Struct) (drop at view.now) ≡ false) × (at_first (is k.Enum) (drop at view.now) ≡ false) × (at_first (is k.Protocol) (drop at view.now) ≡ false) × (at_first is_actor (drop at view.now) ≡ false) }
    ensures gives { Gives view.now result (decl_from lenient budget.brackets budget.limit budget.left modifiers (drop at view.now)) }
    ensures moves { Moves at result }
    ensures inside { Inside (length view.now) result }
{
    let (signature, signature_end, left) = signature(alloc, view, lenient, modifiers, at, budget)?;
    let (body, end, left) = block(
        alloc,
        view,
        lenient,
        signature_end,
        Budget { left, ..budget },
    )?;
    Ok((Decl::Func(Func { signature, body }), end, left))
}

/// A declaration, after its modifiers.
fn modified(
    alloc: Global,
    view: &TokenView,
    lenient: bool,
    modifiers: Items<Modifier>,
    at: usize,
    budget: Budget,
) -> Read<Decl>
    requires { at ≤ length view.now }
    ensures gives { Gives view.now result (decl_from lenient budget.brackets budget.limit budget.left modifiers (drop at view.now)) }
    ensures moves { Moves at result }
    ensures inside { Inside (length view.now) result }
{
    if view.is(at, Test::Is(TokenKind::Struct)) {
        return struct_(alloc, view, lenient, modifiers, at, budget);
    }
    if view.is(at, Test::Is(TokenKind::Enum)) {
        return enum_(alloc, view, lenient, modifiers, at, budget);
    }
    if view.is(at, Test::Is(TokenKind::Protocol)) {
        return protocol(alloc, view, lenient, modifiers, at, budget);
    }
    if stands(view, at, Opening::Actor) {
        return actor(alloc, view, lenient, modifiers, at, budget);
    }
    func(alloc, view, lenient, modifiers, at, budget)
}

/// A declaration of a file.
fn declaration(
    alloc: Global,
    view: &TokenView,
    lenient: bool,
    at: usize,
    budget: Budget,
) -> Read<Decl>
    requires { at ≤ length view.now }
    ensures gives { Gives view.now result (read lenient (nonterminal.Item nonterminal.Decls) budget.brackets budget.limit budget.left (drop at view.now)) }
    ensures moves { Moves at result }
    ensures inside { Inside (length view.now) result }
{
    if view.is(at, Test::Is(TokenKind::Import)) {
        let (mark, next) = view.take(at);
        let (token, end) = view.expect(next, Test::Name)?;
        let name = builders::name(token)?;
        return Ok((Decl::Import(mark.span, name), end, budget.left));
    }
    if view.is(at, Test::Is(TokenKind::Typealias)) {
        let (x, end, left) = typealias(alloc, view, lenient, at, budget)?;
        return Ok((Decl::Typealias(x), end, left));
    }
    let (modifiers, next, left) = modifiers(alloc, view, lenient, at, budget)?;
    modified(
        alloc,
        view,
        lenient,
        modifiers,
        next,
        Budget { left, ..budget },
    )
}

/// Declarations that `;` or line breaks separate, perhaps none.
pub fn declarations(
    alloc: Global,
    view: &TokenView,
    lenient: bool,
    at: usize,
    budget: Budget,
) -> Read<Items<Decl>>
    requires { at ≤ length view.now }
    ensures gives { Gives view.now result (items_from lenient nonterminal.Decls budget.brackets budget.limit budget.left [] (drop at view.now)) }
    ensures stays { Stays at result }
    ensures inside { Inside (length view.now) result }
{
    let mut xs = Items::new(alloc);
    let mut end = at;
    let mut left = budget.left;
    'items: while stands(view, end, Opening::Decl) {
        let (x, x_end, x_left) = declaration(alloc, view, lenient, end, Budget { left, ..budget })?;
        xs.push(x)?;
        match past_separator(view, x_end) {
            Some(next) => {
                end = next;
                left = x_left;
            }
            None => return Ok((xs, x_end, x_left)),
        }
    }
    Ok((xs, end, left))
}
