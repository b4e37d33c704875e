//! Types.

ghost use Rattle.std.specs.Prelude.{◌≡◌, false, ◌<◌, drop, length, true, IfOk};
ghost use Rattle.sw_grammar.specs.Reading.{at_first};
ghost use Rattle.sw_lex.specs.declared.token.TokenKind.TheVariants as k;
ghost use Rattle.sw_syntax.specs.Answering.{read};
ghost use Rattle.sw_syntax.specs.ReadResults.{Gives, Inside, Moves};
ghost use Rattle.sw_syntax.specs.Nonterminals as nonterminal;
ghost use Rattle.sw_syntax.specs.Tests.{is, is_name};

use crate::builders;
use sqlite_items::Boxed;
use std::alloc::{AllocError, Global};
use sw_lex::TokenKind;
use sw_syntax::{Budget, Read, Stop, Test, TokenView};
use sw_tree::Type;

fn optional(alloc: Global, wrapped: Type) -> Result<Type, AllocError>
    ensures { IfOk result (λ x. x ≡ Type.Optional wrapped) }
{
    Ok(Type::Optional(Boxed::new(alloc, wrapped)?))
}

/// The type at this position.
#[cycle(types)]
pub fn type_(
    alloc: Global,
    view: &TokenView,
    lenient: bool,
    at: usize,
    budget: Budget,
) -> Read<Type>
    ensures gives { Gives view.now result (read lenient nonterminal.TypeExpr budget.brackets budget.limit budget.left (drop at view.now)) }
    ensures moves { Moves at result }
    ensures inside { Inside (length view.now) result }
{
    let (mut x, mut end, mut left) = base(alloc, view, lenient, at, budget)?;
    'marks: while view.is(end, Test::JoinedQuestion) {
        if left == 0 {
            return Err(Stop::Refused {
                at: end,
                over: true,
            });
        }
        let (_, next) = view.take(end);
        x = optional(alloc, x)?;
        end = next;
        left -= 1;
    }
    Ok((x, end, left))
}

/// A type without `?` after it.
#[cycle(types)]
fn base(alloc: Global, view: &TokenView, lenient: bool, at: usize, budget: Budget) -> Read<Type>
    ensures gives { Gives view.now result (read lenient nonterminal.BaseType budget.brackets budget.limit budget.left (drop at view.now)) }
    ensures moves { Moves at result }
    ensures inside { Inside (length view.now) result }
{
    if view.is(at, Test::Name) {
        return named(view, lenient, at, budget);
    }
    if view.is(at, Test::Is(TokenKind::LeftBracket)) {
        return array(alloc, view, lenient, at, budget);
    }
    if view.is(at, Test::Is(TokenKind::Any)) {
        let (any, next) = view.take(at);
        let (token, end) = view.expect(next, Test::Name)?;
        let name = builders::name(token)?;
        return Ok((Type::Any(any.span, name), end, budget.left));
    }
    void(view, lenient, at, budget)
}

/// A type's name, or the name of a type in a type.
fn named(view: &TokenView, lenient: bool, at: usize, budget: Budget) -> Read<Type>
    requires { (at_first is_name (drop at view.now) ≡ true) × (at < length view.now) }
    ensures gives { Gives view.now result (read lenient nonterminal.BaseType budget.brackets budget.limit budget.left (drop at view.now)) }
    ensures moves { Moves at result }
    ensures inside { Inside (length view.now) result }
{
    let (token, end) = view.take(at);
    let outer = builders::name(token)?;
    if !view.is(end, Test::Is(TokenKind::Dot)) {
        return Ok((Type::Name(outer), end, budget.left));
    }
    let (_, next) = view.take(end);
    let (inner_token, after) = view.expect(next, Test::Name)?;
    let inner = builders::name(inner_token)?;
    Ok((Type::Member(outer, inner), after, budget.left))
}

/// An array's type.
#[cycle(types)]
fn array(alloc: Global, view: &TokenView, lenient: bool, at: usize, budget: Budget) -> Read<Type>
    requires { (at_first is_name (drop at view.now) ≡ false) × (at_first (is k.LeftBracket) (drop at view.now) ≡ true) × (at < length view.now) }
    ensures gives { Gives view.now result (read lenient nonterminal.BaseType budget.brackets budget.limit budget.left (drop at view.now)) }
    ensures moves { Moves at result }
    ensures inside { Inside (length view.now) result }
{
    if budget.brackets == 0 {
        return Err(Stop::Refused { at, over: true });
    }
    if budget.left == 0 {
        return Err(Stop::Refused { at, over: true });
    }
    let (open, next) = view.take(at);
    let inner = Budget {
        brackets: budget.brackets - 1,
        left: budget.left - 1,
        ..budget
    };
    let (x, end, left) = type_(alloc, view, lenient, next, inner)?;
    let (_, after) = view.expect(end, Test::Is(TokenKind::RightBracket))?;
    let element = Boxed::new(alloc, x)?;
    Ok((Type::Array(open.span, element), after, left))
}

/// `()`
fn void(view: &TokenView, lenient: bool, at: usize, budget: Budget) -> Read<Type>
    requires { (at_first is_name (drop at view.now) ≡ false) × (at_first (is k.LeftBracket) (drop at view.now) ≡ false) × (at_first (is k.Any) (drop at view.now) ≡ false) }
    ensures gives { Gives view.now result (read lenient nonterminal.BaseType budget.brackets budget.limit budget.left (drop at view.now)) }
    ensures moves { Moves at result }
    ensures inside { Inside (length view.now) result }
{
    if !view.is(at, Test::Is(TokenKind::LeftParen)) {
        return Err(Stop::Refused { at, over: false });
    }
    if budget.brackets == 0 {
        return Err(Stop::Refused { at, over: true });
    }
    let (open, next) = view.take(at);
    let (_, end) = view.expect(next, Test::Is(TokenKind::RightParen))?;
    Ok((Type::Void(open.span), end, budget.left))
}
