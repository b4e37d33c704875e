//! `switch`, with its arms.

ghost use Rattle.std.specs.Prelude.{◌≡◌, false, ◌<◌, ◌≤◌, drop, length, true};
ghost use Rattle.sw_grammar.specs.Reading.{at_first};
ghost use Rattle.sw_lex.specs.declared.token.TokenKind.TheVariants as k;
ghost use Rattle.sw_syntax.specs.Bodies.{IsNoCondition, arm_list, switch_block};
ghost use Rattle.sw_syntax.specs.Answering.{read};
ghost use Rattle.sw_syntax.specs.ReadResults.{Gives, Inside, Moves, Stays};
ghost use Rattle.sw_syntax.specs.Nonterminals as nonterminal;
ghost use Rattle.sw_syntax.specs.Tests.{is};

use crate::bodies::body;
use crate::parts::label;
use sqlite_items::Items;
use std::alloc::Global;
use sw_lex::TokenKind;
use sw_parse_expr::expr;
use sw_syntax::{Budget, Opening, Read, Stop, Test, TokenView, stands, trimmed};
use sw_tree::{Stmt, SwitchArm};

/// The arms between the braces of a `switch`, perhaps none.
#[cycle(stmt)]
fn arms(
    alloc: Global,
    view: &TokenView,
    lenient: bool,
    at: usize,
    budget: Budget,
) -> Read<Items<SwitchArm>>
    requires { at ≤ length view.now }
    ensures gives { Gives view.now result (arm_list lenient budget.brackets budget.limit budget.left (drop at view.now)) }
    ensures stays { Stays at result }
    ensures inside { Inside (length view.now) result }
{
    let mut xs = Items::new(alloc);
    let mut end = at;
    let mut left = budget.left;
    let mut before_arm = stands(view, at, Opening::Arm);
    'arms: while before_arm {
        let (label, label_end, label_left) = label(
            alloc,
            view,
            lenient,
            end,
            Budget { left, ..budget },
        )?;
        let (_, next) = view.expect(label_end, Test::Is(TokenKind::Colon))?;
        let inner = Budget {
            left: label_left,
            ..budget
        };
        let (read_body, body_end, body_left) = body(alloc, view, lenient, next, inner)?;
        let body = trimmed(alloc, read_body.block)?;
        xs.push(SwitchArm { label, body })?;
        before_arm = read_body.before_arm;
        end = body_end;
        left = body_left;
    }
    let kept = trimmed(alloc, xs)?;
    Ok((kept, end, left))
}

/// The braces of a `switch` and the arms between them.
#[cycle(stmt)]
fn arm_block(
    alloc: Global,
    view: &TokenView,
    lenient: bool,
    at: usize,
    budget: Budget,
) -> Read<Items<SwitchArm>>
    requires { at ≤ length view.now }
    ensures gives { Gives view.now result (switch_block lenient budget.brackets budget.limit budget.left (drop at view.now)) }
    ensures moves { Moves at result }
    ensures inside { Inside (length view.now) result }
{
    if !view.is(at, Test::Is(TokenKind::LeftBrace)) {
        return Err(Stop::Refused { at, over: false });
    }
    if budget.brackets == 0 {
        return Err(Stop::Refused { at, over: true });
    }
    let (_, next) = view.take(at);
    let inner = Budget {
        brackets: budget.brackets - 1,
        ..budget
    };
    let (xs, end, left) = arms(alloc, view, lenient, next, inner)?;
    let (_, after) = view.expect(end, Test::Is(TokenKind::RightBrace))?;
    Ok((xs, after, left))
}

/// `switch`, what it looks at, and its arms.
#[cycle(stmt)]
pub fn switch_statement(
    alloc: Global,
    view: &TokenView,
    lenient: bool,
    at: usize,
    budget: Budget,
) -> Read<Stmt>
    requires { IsNoCondition (drop at view.now) × (at_first (is k.For) (drop at view.now) ≡ false) × (at_first (is k.Switch) (drop at view.now) ≡ true) × (at < length view.now) }
    ensures gives { Gives view.now result (read lenient (nonterminal.Statement nonterminal.Closed) budget.brackets budget.limit budget.left (drop at view.now)) }
    ensures moves { Moves at result }
    ensures inside { Inside (length view.now) result }
{
    let (token, next) = view.take(at);
    let own = Budget {
        left: budget.limit,
        ..budget
    };
    let (x, end, _) = expr(alloc, view, lenient, next, own)?;
    let (xs, after, left) = arm_block(alloc, view, lenient, end, budget)?;
    Ok((Stmt::Switch(token.span, x, xs), after, left))
}
