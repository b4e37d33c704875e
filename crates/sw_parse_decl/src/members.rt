//! Members of types.

ghost use Rattle.std.specs.Prelude.{◌≡◌, ◌≤◌, [], drop, false, length, true};
ghost use Rattle.sw_grammar.specs.Reading.{at_first};
ghost use Rattle.sw_lex.specs.declared.token.TokenKind.TheVariants as k;
ghost use Rattle.sw_syntax.specs.Lists.{items_from};
ghost use Rattle.sw_syntax.specs.Answering.{read};
ghost use Rattle.sw_syntax.specs.Members.{member_from};
ghost use Rattle.sw_syntax.specs.ReadResults.{Gives, Inside, Moves, Stays};
ghost use Rattle.sw_syntax.specs.Nonterminals as nonterminal;
ghost use Rattle.sw_syntax.specs.Tests.{is};

use crate::headings::typealias;
use crate::lists::past_separator;
use crate::marks::flag;
use crate::modifiers::modifiers;
use crate::parameters::parameters;
use crate::properties::{let_property, var_property};
use crate::signatures::signature;
use sqlite_items::Items;
use std::alloc::Global;
use sw_lex::TokenKind;
use sw_parse_stmt::block;
use sw_syntax::{Budget, Opening, Read, Test, TokenView, stands};
use sw_tree::{Func, Initializer, Member, Modifier};

/// An initializer, after its modifiers.
fn initializer(
    alloc: Global,
    view: &TokenView,
    lenient: bool,
    modifiers: Items<Modifier>,
    at: usize,
    budget: Budget,
) -> Read<Member>
    requires { (at ≤ length view.now) × (at_first (is k.Let) (drop at view.now) ≡ false) × (at_first (is k.Var) (drop at view.now) ≡ false) × (at_first (is k.Func) (drop at view.now) ≡ false) }
    ensures gives { Gives view.now result (member_from lenient budget.brackets budget.limit budget.left modifiers (drop at view.now)) }
    ensures moves { Moves at result }
    ensures inside { Inside (length view.now) result }
{
    let (mark, mark_end) = view.expect(at, Test::Is(TokenKind::Init))?;
    let (parameters, parameters_end, left) = parameters(alloc, view, lenient, mark_end, budget)?;
    let (throws, throws_end) = flag(view, TokenKind::Throws, parameters_end);
    let (body, end, left) = block(alloc, view, lenient, throws_end, Budget { left, ..budget })?;
    let initializer = Initializer {
        modifiers,
        span: mark.span,
        parameters,
        throws,
        body,
    };
    Ok((Member::Initializer(initializer), end, left))
}

/// A func, after its modifiers.
fn func(
    alloc: Global,
    view: &TokenView,
    lenient: bool,
    modifiers: Items<Modifier>,
    at: usize,
    budget: Budget,
) -> Read<Member>
    requires { (at ≤ length view.now) × (at_first (is k.Let) (drop at view.now) ≡ false) × (at_first (is k.Var) (drop at view.now) ≡ false) × (at_first (is k.Func) (drop at view.now) ≡ true) }
    ensures gives { Gives view.now result (member_from lenient budget.brackets budget.limit budget.left modifiers (drop at view.now)) }
    ensures moves { Moves at result }
    ensures inside { Inside (length view.now) result }
{
    let (signature, signature_end, left) = signature(alloc, view, lenient, modifiers, at, budget)?;
    let (body, end, left) = block(
        alloc,
        view,
        lenient,
        signature_end,
        Budget { left, ..budget },
    )?;
    Ok((Member::Func(Func { signature, body }), end, left))
}

/// A member, after its modifiers.
fn modified(
    alloc: Global,
    view: &TokenView,
    lenient: bool,
    modifiers: Items<Modifier>,
    at: usize,
    budget: Budget,
) -> Read<Member>
    requires { at ≤ length view.now }
    ensures gives { Gives view.now result (member_from lenient budget.brackets budget.limit budget.left modifiers (drop at view.now)) }
    ensures moves { Moves at result }
    ensures inside { Inside (length view.now) result }
{
    if view.is(at, Test::Is(TokenKind::Let)) {
        return let_property(alloc, view, lenient, modifiers, at, budget);
    }
    if view.is(at, Test::Is(TokenKind::Var)) {
        return var_property(alloc, view, lenient, modifiers, at, budget);
    }
    if view.is(at, Test::Is(TokenKind::Func)) {
        return func(alloc, view, lenient, modifiers, at, budget);
    }
    initializer(alloc, view, lenient, modifiers, at, budget)
}

/// A member of a type.
pub fn member(
    alloc: Global,
    view: &TokenView,
    lenient: bool,
    at: usize,
    budget: Budget,
) -> Read<Member>
    requires { at ≤ length view.now }
    ensures gives { Gives view.now result (read lenient (nonterminal.Item nonterminal.Members) budget.brackets budget.limit budget.left (drop at view.now)) }
    ensures moves { Moves at result }
    ensures inside { Inside (length view.now) result }
{
    if view.is(at, Test::Is(TokenKind::Typealias)) {
        let (x, end, left) = typealias(alloc, view, lenient, at, budget)?;
        return Ok((Member::Typealias(x), end, left));
    }
    let (modifiers, next, left) = modifiers(alloc, view, lenient, at, budget)?;
    modified(
        alloc,
        view,
        lenient,
        modifiers,
        next,
        Budget { left, ..budget },
    )
}

/// Members that `;` or line breaks separate, perhaps none.
pub fn members(
    alloc: Global,
    view: &TokenView,
    lenient: bool,
    at: usize,
    budget: Budget,
) -> Read<Items<Member>>
    requires { at ≤ length view.now }
    ensures gives { Gives view.now result (items_from lenient nonterminal.Members budget.brackets budget.limit budget.left [] (drop at view.now)) }
    ensures stays { Stays at result }
    ensures inside { Inside (length view.now) result }
{
    let mut xs = Items::new(alloc);
    let mut end = at;
    let mut left = budget.left;
    'items: while stands(view, end, Opening::Member) {
        let (x, x_end, x_left) = member(alloc, view, lenient, end, Budget { left, ..budget })?;
        xs.push(x)?;
        match past_separator(view, x_end) {
            Some(next) => {
                end = next;
                left = x_left;
            }
            None => return Ok((xs, x_end, x_left)),
        }
    }
    Ok((xs, end, left))
}
