//! Properties of types.

ghost use Rattle.std.specs.Prelude.{◌≡◌, ◌<◌, ◌≤◌, drop, false, length, true};
ghost use Rattle.sw_grammar.specs.Reading.{at_first};
ghost use Rattle.sw_lex.specs.declared.token.TokenKind.TheVariants as k;
ghost use Rattle.sw_syntax.specs.Bodies.{annotation_part};
ghost use Rattle.sw_syntax.specs.Forms.{computed_var, stored_var};
ghost use Rattle.sw_syntax.specs.Members.{accessor_part, getter_part, member_from, typed_from, var_from};
ghost use Rattle.sw_syntax.specs.ReadResults.{Gives, Inside, Moves, Stays};
ghost use Rattle.sw_syntax.specs.Tests.{is};

use crate::builders;
use sqlite_items::Items;
use std::alloc::Global;
use sw_lex::TokenKind;
use sw_parse_expr::{expr, initial_value, type_};
use sw_parse_stmt::{block, statements};
use sw_syntax::{Budget, Opening, Read, Stop, Test, TokenView, stands};
use sw_tree::{
    Accessor, Binding, ComputedProperty, Expr, Member, Modifier, Name, StoredProperty, Type,
};

/// The type after `:`, if it stands there.
fn annotation(
    alloc: Global,
    view: &TokenView,
    lenient: bool,
    at: usize,
    budget: Budget,
) -> Read<Option<Type>>
    requires { at ≤ length view.now }
    ensures gives { Gives view.now result (annotation_part lenient budget.brackets budget.limit budget.left (drop at view.now)) }
    ensures stays { Stays at result }
    ensures inside { Inside (length view.now) result }
{
    if !view.is(at, Test::Is(TokenKind::Colon)) {
        return Ok((None, at, budget.left));
    }
    let (_, next) = view.take(at);
    let whole = Budget {
        left: budget.limit,
        ..budget
    };
    let (x, end, _) = type_(alloc, view, lenient, next, whole)?;
    Ok((Some(x), end, budget.left))
}

/// A property with `let`, after its modifiers.
pub fn let_property(
    alloc: Global,
    view: &TokenView,
    lenient: bool,
    modifiers: Items<Modifier>,
    at: usize,
    budget: Budget,
) -> Read<Member>
    requires { (at_first (is k.Let) (drop at view.now) ≡ true) × (at < length view.now) }
    ensures gives { Gives view.now result (member_from lenient budget.brackets budget.limit budget.left modifiers (drop at view.now)) }
    ensures moves { Moves at result }
    ensures inside { Inside (length view.now) result }
{
    let (_, next) = view.take(at);
    let (token, name_end) = view.expect(next, Test::Name)?;
    let (declared, type_end, left) = annotation(alloc, view, lenient, name_end, budget)?;
    let (initial, end, left) = initial_value(
        alloc,
        view,
        lenient,
        type_end,
        Budget { left, ..budget },
    )?;
    let name = builders::name(token)?;
    let property = StoredProperty {
        modifiers,
        binding: Binding::Let,
        name,
        declared,
        initial,
    };
    Ok((Member::Stored(property), end, left))
}

/// What stands between the braces of a getter.
fn accessor(
    alloc: Global,
    view: &TokenView,
    lenient: bool,
    at: usize,
    budget: Budget,
) -> Read<Accessor>
    requires { at ≤ length view.now }
    ensures gives { Gives view.now result (accessor_part lenient budget.brackets budget.limit budget.left (drop at view.now)) }
    ensures stays { Stays at result }
    ensures inside { Inside (length view.now) result }
{
    if stands(view, at, Opening::GetBlock) {
        let (_, next) = view.take(at);
        let (body, end, left) = block(alloc, view, lenient, next, budget)?;
        return Ok((Accessor::Get(body), end, left));
    }
    let (body, end, left) = statements(alloc, view, lenient, at, budget)?;
    Ok((Accessor::Body(body), end, left))
}

/// A getter.
fn getter(
    alloc: Global,
    view: &TokenView,
    lenient: bool,
    at: usize,
    budget: Budget,
) -> Read<Accessor>
    requires { (at_first (is k.LeftBrace) (drop at view.now) ≡ true) × (at < length view.now) }
    ensures gives { Gives view.now result (getter_part lenient budget.brackets budget.limit budget.left (drop at view.now)) }
    ensures moves { Moves at result }
    ensures inside { Inside (length view.now) result }
{
    if budget.brackets == 0 {
        return Err(Stop::Refused { at, over: true });
    }
    let (_, next) = view.take(at);
    let inner = Budget {
        brackets: budget.brackets - 1,
        ..budget
    };
    let (x, end, left) = accessor(alloc, view, lenient, next, inner)?;
    let (_, after) = view.expect(end, Test::Is(TokenKind::RightBrace))?;
    Ok((x, after, left))
}

/// The modifiers and the name of a property.
#[derive(Drop)]
struct PropertyHead {
    modifiers: Items<Modifier>,
    name: Name,
}

fn stored(head: PropertyHead, declared: Option<Type>, initial: Option<Expr>) -> Member
    ensures { result ≡ stored_var declared initial head.modifiers head.name }
{
    Member::Stored(StoredProperty {
        modifiers: head.modifiers,
        binding: Binding::Var,
        name: head.name,
        declared,
        initial,
    })
}

fn computed(head: PropertyHead, declared: Type, accessor: Accessor) -> Member
    ensures { result ≡ computed_var accessor declared head.modifiers head.name }
{
    Member::Computed(ComputedProperty {
        modifiers: head.modifiers,
        name: head.name,
        declared,
        accessor,
    })
}

/// A property with `var` after its type.
fn typed(
    alloc: Global,
    view: &TokenView,
    lenient: bool,
    head: PropertyHead,
    declared: Type,
    at: usize,
    budget: Budget,
) -> Read<Member>
    requires { at ≤ length view.now }
    ensures gives { Gives view.now result (typed_from lenient budget.brackets budget.limit budget.left head.modifiers head.name declared (drop at view.now)) }
    ensures stays { Stays at result }
    ensures inside { Inside (length view.now) result }
{
    if view.is(at, Test::Is(TokenKind::Assign)) {
        let (_, next) = view.take(at);
        let whole = Budget {
            left: budget.limit,
            ..budget
        };
        let (x, end, _) = expr(alloc, view, lenient, next, whole)?;
        return Ok((stored(head, Some(declared), Some(x)), end, budget.left));
    }
    if !view.is(at, Test::Is(TokenKind::LeftBrace)) {
        return Ok((stored(head, Some(declared), None), at, budget.left));
    }
    let (accessor, end, left) = getter(alloc, view, lenient, at, budget)?;
    Ok((computed(head, declared, accessor), end, left))
}

/// A property with `var` after its name.
fn untyped(
    alloc: Global,
    view: &TokenView,
    lenient: bool,
    head: PropertyHead,
    at: usize,
    budget: Budget,
) -> Read<Member>
    requires { at ≤ length view.now }
    ensures gives { Gives view.now result (var_from lenient budget.brackets budget.limit budget.left head.modifiers head.name (drop at view.now)) }
    ensures stays { Stays at result }
    ensures inside { Inside (length view.now) result }
{
    let whole = Budget {
        left: budget.limit,
        ..budget
    };
    if view.is(at, Test::Is(TokenKind::Colon)) {
        let (_, type_at) = view.take(at);
        let (declared, end, _) = type_(alloc, view, lenient, type_at, whole)?;
        return typed(alloc, view, lenient, head, declared, end, budget);
    }
    if !view.is(at, Test::Is(TokenKind::Assign)) {
        return Ok((stored(head, None, None), at, budget.left));
    }
    let (_, value_at) = view.take(at);
    let (x, end, _) = expr(alloc, view, lenient, value_at, whole)?;
    Ok((stored(head, None, Some(x)), end, budget.left))
}

/// A property with `var`, after its modifiers.
pub fn var_property(
    alloc: Global,
    view: &TokenView,
    lenient: bool,
    modifiers: Items<Modifier>,
    at: usize,
    budget: Budget,
) -> Read<Member>
    requires { (at_first (is k.Let) (drop at view.now) ≡ false) × (at_first (is k.Var) (drop at view.now) ≡ true) × (at < length view.now) }
    ensures gives { Gives view.now result (member_from lenient budget.brackets budget.limit budget.left modifiers (drop at view.now)) }
    ensures moves { Moves at result }
    ensures inside { Inside (length view.now) result }
{
    let (_, next) = view.take(at);
    let (token, end) = view.expect(next, Test::Name)?;
    let name = builders::name(token)?;
    untyped(
        alloc,
        view,
        lenient,
        PropertyHead { modifiers, name },
        end,
        budget,
    )
}
