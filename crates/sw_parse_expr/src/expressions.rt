//! Expressions, from the weakest marks to operands.

ghost use Rattle.std.specs.Prelude.{◌≡◌, false, ◌<◌, ◌≤◌, ◌+◌, ℕ, Bool, not, ◌&&◌, drop, length, true};
ghost use Rattle.sw_grammar.specs.Reading.{at_first, got};
ghost use Rattle.sw_lex.specs.declared.token.TokenKind.TheVariants as k;
ghost use Rattle.sw_syntax.specs.Chains.{IsLater, arg_list, await_part, element_list, forms, takes_one, try_part};
ghost use Rattle.sw_syntax.specs.Grammar.{right};
ghost use Rattle.sw_syntax.specs.Answering.{read, read_part};
ghost use Rattle.sw_syntax.specs.ReadResults.{Gives, GoesOn, Inside, Moves, Stays};
ghost use Rattle.sw_syntax.specs.Nonterminals as nonterminal;
ghost use Rattle.sw_syntax.specs.Tables.{is_form};
ghost use Rattle.sw_syntax.specs.Tests.{is, is_bool, is_call, is_index, starts_literal, starts_operand};

use crate::{builders, literals};
use sqlite_items::Items;
use std::alloc::Global;
use sw_base::Span;
use sw_lex::TokenKind;
use sw_syntax::{Budget, Read, Stop, Test, TokenView, trimmed};
use sw_tree::{Argument, Expr};

/// The `try` or `try?` at this position, if one stands there, and the position after it.
fn try_mark(view: &TokenView, at: usize) -> (Option<(Span, bool)>, usize)
    requires { at ≤ length view.now }
    ensures gives { (lenient : Bool) (d l left : ℕ) → try_part lenient d l left (drop at view.now) ≡ got result.0 left (drop result.1 view.now) }
    ensures stays { at ≤ result.1 }
    ensures inside { result.1 ≤ length view.now }
{
    if !view.is(at, Test::Is(TokenKind::Try)) {
        return (None, at);
    }
    let (mark, end) = view.take(at);
    if !view.is(end, Test::JoinedQuestion) {
        return (Some((mark.span, false)), end);
    }
    let (_, after) = view.take(end);
    (Some((mark.span, true)), after)
}

/// The `await` at this position, if one stands there, and the position after it.
fn await_mark(view: &TokenView, at: usize) -> (Option<Span>, usize)
    requires { at ≤ length view.now }
    ensures gives { (lenient : Bool) (d l left : ℕ) → await_part lenient d l left (drop at view.now) ≡ got result.0 left (drop result.1 view.now) }
    ensures stays { at ≤ result.1 }
    ensures inside { result.1 ≤ length view.now }
{
    if !view.is(at, Test::Is(TokenKind::Await)) {
        return (None, at);
    }
    let (mark, end) = view.take(at);
    (Some(mark.span), end)
}

/// Tells whether at most one mark of this strength stands in a row.
fn takes_one(lenient: bool, strength: u8) -> bool
    ensures { result ≡ takes_one lenient strength }
{
    match strength {
        2 => !lenient,
        3 => true,
        _ => false,
    }
}

/// Tells whether the token at this position, right of a binary mark, is to be a `try` or `await`.
fn lacks_operand(view: &TokenView, lenient: bool, at: usize) -> bool
    ensures { result ≡ (lenient && not (at_first starts_operand (drop at view.now))) }
{
    lenient && !view.is(at, Test::Operand)
}

/// The expression at this position.
#[cycle(expr)]
pub fn expr(alloc: Global, view: &TokenView, lenient: bool, at: usize, budget: Budget) -> Read<Expr>
    requires { at ≤ length view.now }
    ensures gives { Gives view.now result (read lenient nonterminal.Expr budget.brackets budget.limit budget.left (drop at view.now)) }
    ensures moves { Moves at result }
    ensures inside { Inside (length view.now) result }
{
    let (try_mark, after_try) = try_mark(view, at);
    let (await_mark, after) = await_mark(view, after_try);
    let (x, end, left) = ternary(alloc, view, lenient, after, budget)?;
    let node = builders::with_marks(alloc, try_mark, await_mark, x)?;
    Ok((node, end, left))
}

/// An expression without marks before it.
#[cycle(expr)]
fn ternary(alloc: Global, view: &TokenView, lenient: bool, at: usize, budget: Budget) -> Read<Expr>
    ensures gives { Gives view.now result (read lenient nonterminal.Ternary budget.brackets budget.limit budget.left (drop at view.now)) }
    ensures moves { Moves at result }
    ensures inside { Inside (length view.now) result }
{
    let (condition, end, left) = binary(alloc, view, lenient, 0, at, budget)?;
    if !view.is(end, Test::Ternary) {
        return Ok((condition, end, left));
    }
    if left == 0 {
        return Err(Stop::Refused {
            at: end,
            over: true,
        });
    }
    let (_, next) = view.take(end);
    let (x, x_end, left) = expr(
        alloc,
        view,
        lenient,
        next,
        Budget {
            left: left - 1,
            ..budget
        },
    )?;
    let (_, next) = view.expect(x_end, Test::Is(TokenKind::Colon))?;
    let (y, y_end, left) = expr(alloc, view, lenient, next, Budget { left, ..budget })?;
    let node = builders::ternary(alloc, condition, x, y)?;
    Ok((node, y_end, left))
}

/// An expression with binary marks of this strength or more.
#[cycle(expr)]
fn binary(
    alloc: Global,
    view: &TokenView,
    lenient: bool,
    strength: u8,
    at: usize,
    budget: Budget,
) -> Read<Expr>
    requires { strength ≤ 6 }
    ensures gives { Gives view.now result (read lenient (nonterminal.Binary strength) budget.brackets budget.limit budget.left (drop at view.now)) }
    ensures moves { Moves at result }
    ensures inside { Inside (length view.now) result }
{
    if strength < 6 {
        if takes_one(lenient, strength) {
            return one_mark(alloc, view, lenient, strength, at, budget);
        }
        return leftward(alloc, view, lenient, strength, at, budget);
    }
    prefix(alloc, view, lenient, at, budget)
}

/// Operands with marks of this strength between, which are taken to the left.
#[cycle(expr)]
fn leftward(
    alloc: Global,
    view: &TokenView,
    lenient: bool,
    strength: u8,
    at: usize,
    budget: Budget,
) -> Read<Expr>
    requires { (strength < 6) × (takes_one lenient strength ≡ false) }
    ensures gives { Gives view.now result (read lenient (nonterminal.Binary strength) budget.brackets budget.limit budget.left (drop at view.now)) }
    ensures moves { Moves at result }
    ensures inside { Inside (length view.now) result }
{
    let (mut x, mut end, mut left) = binary(alloc, view, lenient, strength + 1, at, budget)?;
    'marks: while view.is(end, Test::Binary(strength)) {
        if left == 0 {
            return Err(Stop::Refused {
                at: end,
                over: true,
            });
        }
        let (mark, next) = view.take(end);
        let (y, y_end, y_left) = operand(
            alloc,
            view,
            lenient,
            strength + 1,
            next,
            Budget {
                left: left - 1,
                ..budget
            },
        )?;
        x = builders::binary(alloc, mark, x, y)?;
        end = y_end;
        left = y_left;
    }
    Ok((x, end, left))
}

/// An operand, and perhaps a mark of this strength and its right operand.
#[cycle(expr)]
fn one_mark(
    alloc: Global,
    view: &TokenView,
    lenient: bool,
    strength: u8,
    at: usize,
    budget: Budget,
) -> Read<Expr>
    requires { (strength < 6) × (takes_one lenient strength ≡ true) }
    ensures gives { Gives view.now result (read lenient (nonterminal.Binary strength) budget.brackets budget.limit budget.left (drop at view.now)) }
    ensures moves { Moves at result }
    ensures inside { Inside (length view.now) result }
{
    let (x, end, left) = binary(alloc, view, lenient, strength + 1, at, budget)?;
    if !view.is(end, Test::Binary(strength)) {
        return Ok((x, end, left));
    }
    if left == 0 {
        return Err(Stop::Refused {
            at: end,
            over: true,
        });
    }
    let (mark, next) = view.take(end);
    let (y, y_end, y_left) = operand(
        alloc,
        view,
        lenient,
        3,
        next,
        Budget {
            left: left - 1,
            ..budget
        },
    )?;
    let node = builders::binary(alloc, mark, x, y)?;
    Ok((node, y_end, y_left))
}

/// What stands right of a binary mark.
#[cycle(expr)]
fn operand(
    alloc: Global,
    view: &TokenView,
    lenient: bool,
    strength: u8,
    at: usize,
    budget: Budget,
) -> Read<Expr>
    requires { strength ≤ 6 }
    ensures gives { Gives view.now result (read_part lenient (right lenient strength) budget.brackets budget.limit budget.left (drop at view.now)) }
    ensures moves { Moves at result }
    ensures inside { Inside (length view.now) result }
{
    if lacks_operand(view, lenient, at) {
        let (mark, end) = view.expect(at, Test::Effect)?;
        return Ok((Expr::Nil(mark.span), end, budget.left));
    }
    binary(alloc, view, lenient, strength, at, budget)
}

/// An operand with the signs before it.
#[cycle(expr)]
fn prefix(alloc: Global, view: &TokenView, lenient: bool, at: usize, budget: Budget) -> Read<Expr>
    ensures gives { Gives view.now result (read lenient nonterminal.Prefix budget.brackets budget.limit budget.left (drop at view.now)) }
    ensures moves { Moves at result }
    ensures inside { Inside (length view.now) result }
{
    if !view.is(at, Test::Sign) {
        return postfix(alloc, view, lenient, at, budget);
    }
    if budget.left == 0 {
        return Err(Stop::Refused { at, over: true });
    }
    let (sign, next) = view.take(at);
    let (x, end, left) = prefix(
        alloc,
        view,
        lenient,
        next,
        Budget {
            left: budget.left - 1,
            ..budget
        },
    )?;
    let node = builders::prefix(alloc, sign, x)?;
    Ok((node, end, left))
}

/// An operand with the forms after it.
#[cycle(expr)]
fn postfix(alloc: Global, view: &TokenView, lenient: bool, at: usize, budget: Budget) -> Read<Expr>
    ensures gives { Gives view.now result (read lenient nonterminal.Postfix budget.brackets budget.limit budget.left (drop at view.now)) }
    ensures moves { Moves at result }
    ensures inside { Inside (length view.now) result }
{
    let (mut x, mut end, mut left) = primary(alloc, view, lenient, at, budget)?;
    'forms: while view.is(end, Test::PostfixForm) {
        let (y, y_end, y_left) = form(alloc, view, lenient, x, end, Budget { left, ..budget })?;
        x = y;
        end = y_end;
        left = y_left;
    }
    Ok((x, end, left))
}

/// The form at this position, after its base.
#[cycle(expr)]
fn form(
    alloc: Global,
    view: &TokenView,
    lenient: bool,
    base: Expr,
    at: usize,
    budget: Budget,
) -> Read<Expr>
    requires { at_first is_form (drop at view.now) ≡ true }
    ensures gives { GoesOn (forms lenient budget.brackets budget.limit) view.now result (forms lenient budget.brackets budget.limit budget.left base (drop at view.now)) }
    ensures moves { Moves at result }
    ensures inside { Inside (length view.now) result }
{
    if budget.left == 0 {
        return Err(Stop::Refused { at, over: true });
    }
    if view.is(at, Test::Is(TokenKind::Dot)) {
        let (_, next) = view.take(at);
        let (member, end) = view.expect(next, Test::Name)?;
        let node = builders::member(alloc, base, member)?;
        return Ok((node, end, budget.left - 1));
    }
    if view.is(at, Test::Call) {
        return call(alloc, view, lenient, base, at, budget);
    }
    if view.is(at, Test::Index) {
        return index(alloc, view, lenient, base, at, budget);
    }
    let (mark, end) = view.expect(at, Test::Force)?;
    let node = builders::force(alloc, base, mark.span)?;
    Ok((node, end, budget.left - 1))
}

/// A call after its callee.
#[cycle(expr)]
fn call(
    alloc: Global,
    view: &TokenView,
    lenient: bool,
    base: Expr,
    at: usize,
    budget: Budget,
) -> Read<Expr>
    requires { (at_first (is k.Dot) (drop at view.now) ≡ false) × (at_first is_call (drop at view.now) ≡ true) × (at < length view.now) × (0 < budget.left) }
    ensures gives { GoesOn (forms lenient budget.brackets budget.limit) view.now result (forms lenient budget.brackets budget.limit budget.left base (drop at view.now)) }
    ensures moves { Moves at result }
    ensures inside { Inside (length view.now) result }
{
    if budget.brackets == 0 {
        return Err(Stop::Refused { at, over: true });
    }
    let (open, next) = view.take(at);
    let (arguments, end, left) = arguments(
        alloc,
        view,
        lenient,
        next,
        Budget {
            brackets: budget.brackets - 1,
            left: budget.left - 1,
            ..budget
        },
    )?;
    let (_, after) = view.expect(end, Test::Is(TokenKind::RightParen))?;
    let node = builders::call(alloc, base, open.span, arguments)?;
    Ok((node, after, left))
}

/// An index after its base.
#[cycle(expr)]
fn index(
    alloc: Global,
    view: &TokenView,
    lenient: bool,
    base: Expr,
    at: usize,
    budget: Budget,
) -> Read<Expr>
    requires { (at_first (is k.Dot) (drop at view.now) ≡ false) × (at_first is_call (drop at view.now) ≡ false) × (at_first is_index (drop at view.now) ≡ true) × (at < length view.now) × (0 < budget.left) }
    ensures gives { GoesOn (forms lenient budget.brackets budget.limit) view.now result (forms lenient budget.brackets budget.limit budget.left base (drop at view.now)) }
    ensures moves { Moves at result }
    ensures inside { Inside (length view.now) result }
{
    if budget.brackets == 0 {
        return Err(Stop::Refused { at, over: true });
    }
    let (open, next) = view.take(at);
    let (x, end, left) = expr(
        alloc,
        view,
        lenient,
        next,
        Budget {
            brackets: budget.brackets - 1,
            left: budget.left - 1,
            ..budget
        },
    )?;
    let (_, after) = view.expect(end, Test::Is(TokenKind::RightBracket))?;
    let node = builders::index(alloc, base, open.span, x)?;
    Ok((node, after, left))
}

/// Arguments with commas between, perhaps none.
#[cycle(expr)]
fn arguments(
    alloc: Global,
    view: &TokenView,
    lenient: bool,
    at: usize,
    budget: Budget,
) -> Read<Items<Argument>>
    requires { at ≤ length view.now }
    ensures gives { Gives view.now result (arg_list lenient budget.brackets budget.limit budget.left (drop at view.now)) }
    ensures stays { Stays at result }
    ensures inside { Inside (length view.now) result }
{
    let mut xs = Items::new(alloc);
    if !view.is(at, Test::Argument) {
        return Ok((xs, at, budget.left));
    }
    let (x, mut end, mut left) = argument(alloc, view, lenient, at, budget)?;
    xs.push(x)?;
    'arguments: while view.is(end, Test::Is(TokenKind::Comma)) {
        let (_, next) = view.take(end);
        let (y, y_end, y_left) = argument(alloc, view, lenient, next, Budget { left, ..budget })?;
        xs.push(y)?;
        end = y_end;
        left = y_left;
    }
    let kept = trimmed(alloc, xs)?;
    Ok((kept, end, left))
}

/// An argument, perhaps with a label.
#[cycle(expr)]
fn argument(
    alloc: Global,
    view: &TokenView,
    lenient: bool,
    at: usize,
    budget: Budget,
) -> Read<Argument>
    ensures gives { Gives view.now result (read lenient nonterminal.Argument budget.brackets budget.limit budget.left (drop at view.now)) }
    ensures moves { Moves at result }
    ensures inside { Inside (length view.now) result }
{
    if view.is(at, Test::Label) {
        let (label, next) = view.take(at);
        let (_, after) = view.expect(next, Test::Is(TokenKind::Colon))?;
        let (x, end, left) = expr(alloc, view, lenient, after, budget)?;
        let node = builders::labelled(label, x)?;
        return Ok((node, end, left));
    }
    if !view.is(at, Test::Unlabelled) {
        return Err(Stop::Refused { at, over: false });
    }
    let (value, end, left) = expr(alloc, view, lenient, at, budget)?;
    Ok((Argument { label: None, value }, end, left))
}

/// An operand without signs and forms.
#[cycle(expr)]
fn primary(alloc: Global, view: &TokenView, lenient: bool, at: usize, budget: Budget) -> Read<Expr>
    ensures gives { Gives view.now result (read lenient nonterminal.Primary budget.brackets budget.limit budget.left (drop at view.now)) }
    ensures moves { Moves at result }
    ensures inside { Inside (length view.now) result }
{
    if view.is(at, Test::Literal) {
        return literal(alloc, view, lenient, at, budget);
    }
    if view.is(at, Test::Is(TokenKind::Nil)) {
        let (token, end) = view.take(at);
        return Ok((Expr::Nil(token.span), end, budget.left));
    }
    if view.is(at, Test::Name) {
        let (token, end) = view.take(at);
        let node = builders::named(alloc, token)?;
        return Ok((node, end, budget.left));
    }
    if view.is(at, Test::Is(TokenKind::Self_)) {
        let (token, end) = view.take(at);
        return Ok((Expr::SelfValue(token.span), end, budget.left));
    }
    if view.is(at, Test::Is(TokenKind::Dot)) {
        let (dot, next) = view.take(at);
        let (token, end) = view.expect(next, Test::Name)?;
        let node = builders::implicit(alloc, dot.span, token)?;
        return Ok((node, end, budget.left));
    }
    if view.is(at, Test::Is(TokenKind::LeftParen)) {
        return paren(alloc, view, lenient, at, budget);
    }
    array(alloc, view, lenient, at, budget)
}

/// An expression in brackets.
#[cycle(expr)]
fn paren(alloc: Global, view: &TokenView, lenient: bool, at: usize, budget: Budget) -> Read<Expr>
    requires { IsLater (drop at view.now) × (at_first (is k.Dot) (drop at view.now) ≡ false) × (at_first (is k.LeftParen) (drop at view.now) ≡ true) × (at < length view.now) }
    ensures gives { Gives view.now result (read lenient nonterminal.Primary budget.brackets budget.limit budget.left (drop at view.now)) }
    ensures moves { Moves at result }
    ensures inside { Inside (length view.now) result }
{
    if budget.brackets == 0 {
        return Err(Stop::Refused { at, over: true });
    }
    let (open, next) = view.take(at);
    let inner = Budget {
        brackets: budget.brackets - 1,
        ..budget
    };
    let (x, end, left) = expr(alloc, view, lenient, next, inner)?;
    let (_, after) = view.expect(end, Test::Is(TokenKind::RightParen))?;
    let node = builders::paren(alloc, open.span, x)?;
    Ok((node, after, left))
}

/// An array.
#[cycle(expr)]
fn array(alloc: Global, view: &TokenView, lenient: bool, at: usize, budget: Budget) -> Read<Expr>
    requires { IsLater (drop at view.now) × (at_first (is k.Dot) (drop at view.now) ≡ false) × (at_first (is k.LeftParen) (drop at view.now) ≡ false) }
    ensures gives { Gives view.now result (read lenient nonterminal.Primary budget.brackets budget.limit budget.left (drop at view.now)) }
    ensures moves { Moves at result }
    ensures inside { Inside (length view.now) result }
{
    if !view.is(at, Test::Is(TokenKind::LeftBracket)) {
        return Err(Stop::Refused { at, over: false });
    }
    if budget.brackets == 0 {
        return Err(Stop::Refused { at, over: true });
    }
    let (open, next) = view.take(at);
    let inner = Budget {
        brackets: budget.brackets - 1,
        ..budget
    };
    let (xs, end, left) = elements(alloc, view, lenient, next, inner)?;
    let (_, after) = view.expect(end, Test::Is(TokenKind::RightBracket))?;
    let kept = trimmed(alloc, xs)?;
    let node = builders::array(alloc, open.span, kept)?;
    Ok((node, after, left))
}

/// The elements of an array, perhaps none. A comma may follow the last.
#[cycle(expr)]
fn elements(
    alloc: Global,
    view: &TokenView,
    lenient: bool,
    at: usize,
    budget: Budget,
) -> Read<Items<Expr>>
    requires { at ≤ length view.now }
    ensures gives { Gives view.now result (element_list lenient budget.brackets budget.limit budget.left (drop at view.now)) }
    ensures stays { Stays at result }
    ensures inside { Inside (length view.now) result }
{
    let mut xs = Items::new(alloc);
    let mut end = at;
    let mut left = budget.left;
    'elements: while view.is(end, Test::Expr) {
        let (x, x_end, x_left) = expr(alloc, view, lenient, end, Budget { left, ..budget })?;
        xs.push(x)?;
        if !view.is(x_end, Test::Is(TokenKind::Comma)) {
            return Ok((xs, x_end, x_left));
        }
        let (_, next) = view.take(x_end);
        end = next;
        left = x_left;
    }
    Ok((xs, end, left))
}

/// A literal.
#[cycle(expr)]
fn literal(alloc: Global, view: &TokenView, lenient: bool, at: usize, budget: Budget) -> Read<Expr>
    requires { at_first starts_literal (drop at view.now) ≡ true }
    ensures gives { Gives view.now result (read lenient nonterminal.Primary budget.brackets budget.limit budget.left (drop at view.now)) }
    ensures moves { Moves at result }
    ensures inside { Inside (length view.now) result }
{
    if view.is(at, Test::Is(TokenKind::Integer)) {
        let (token, end) = view.take(at);
        let node = literals::integer(alloc, token)?;
        return Ok((node, end, budget.left));
    }
    if view.is(at, Test::Bool) {
        let (token, end) = view.take(at);
        let node = literals::boolean(alloc, token)?;
        return Ok((node, end, budget.left));
    }
    if view.is(at, Test::Is(TokenKind::StringWhole)) {
        let (token, end) = view.take(at);
        let node = literals::text(alloc, token)?;
        return Ok((node, end, budget.left));
    }
    string(alloc, view, lenient, at, budget)
}

/// A string with expressions in it.
#[cycle(expr)]
fn string(alloc: Global, view: &TokenView, lenient: bool, at: usize, budget: Budget) -> Read<Expr>
    requires { (at_first (is k.Integer) (drop at view.now) ≡ false) × (at_first is_bool (drop at view.now) ≡ false) × (at_first (is k.StringWhole) (drop at view.now) ≡ false) × (at_first (is k.StringStart) (drop at view.now) ≡ true) × (at < length view.now) }
    ensures gives { Gives view.now result (read lenient nonterminal.Primary budget.brackets budget.limit budget.left (drop at view.now)) }
    ensures moves { Moves at result }
    ensures inside { Inside (length view.now) result }
{
    if budget.brackets == 0 {
        return Err(Stop::Refused { at, over: true });
    }
    let (start, next) = view.take(at);
    let inner = Budget {
        brackets: budget.brackets - 1,
        ..budget
    };
    let mut pieces = Items::new(alloc);
    let (mut x, mut end, mut left) = expr(alloc, view, lenient, next, inner)?;
    'pieces: while view.is(end, Test::Is(TokenKind::StringMiddle)) {
        let (middle, next) = view.take(end);
        let piece = literals::piece(x, middle)?;
        pieces.push(piece)?;
        let (y, y_end, y_left) = expr(alloc, view, lenient, next, Budget { left, ..inner })?;
        x = y;
        end = y_end;
        left = y_left;
    }
    let (last, after) = view.expect(end, Test::Is(TokenKind::StringLast))?;
    let piece = literals::piece(x, last)?;
    pieces.push(piece)?;
    let kept = trimmed(alloc, pieces)?;
    let node = literals::string(alloc, start, kept)?;
    Ok((node, after, left))
}
