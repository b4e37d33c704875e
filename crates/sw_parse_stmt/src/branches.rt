//! `if`, with its branches.

ghost use Rattle.std.specs.Prelude.{◌≡◌, ◌<◌, drop, length, true};
ghost use Rattle.sw_grammar.specs.Reading.{at_first};
ghost use Rattle.sw_lex.specs.declared.token.TokenKind.TheVariants as k;
ghost use Rattle.sw_syntax.specs.Bodies.{branch_part};
ghost use Rattle.sw_syntax.specs.Answering.{read};
ghost use Rattle.sw_syntax.specs.ReadResults.{Gives, Inside, Moves};
ghost use Rattle.sw_syntax.specs.Nonterminals as nonterminal;
ghost use Rattle.sw_syntax.specs.Tests.{is};

use crate::bodies::block;
use crate::parts::conditions;
use sqlite_items::Items;
use std::alloc::Global;
use sw_lex::TokenKind;
use sw_syntax::{Budget, Opening, Read, Stop, Test, TokenView, stands, trimmed};
use sw_tree::{Branch, Stmt};

/// `if` with its conditions and its block.
#[cycle(stmt)]
fn branch(alloc: Global, view: &TokenView, lenient: bool, at: usize, budget: Budget) -> Read<Branch>
    ensures gives { Gives view.now result (branch_part lenient budget.brackets budget.limit budget.left (drop at view.now)) }
    ensures moves { Moves at result }
    ensures inside { Inside (length view.now) result }
{
    let (token, next) = view.expect(at, Test::Is(TokenKind::If))?;
    let (conditions, end, left) = conditions(alloc, view, lenient, next, budget)?;
    let (body, after, left) = block(alloc, view, lenient, end, Budget { left, ..budget })?;
    let span = token.span;
    Ok((
        Branch {
            span,
            conditions,
            body,
        },
        after,
        left,
    ))
}

/// An `if`, each `else if` after it, and the block of an `else` without `if`.
#[cycle(stmt)]
pub fn if_statement(
    alloc: Global,
    view: &TokenView,
    lenient: bool,
    at: usize,
    budget: Budget,
) -> Read<Stmt>
    requires { at_first (is k.If) (drop at view.now) ≡ true }
    ensures gives { Gives view.now result (read lenient (nonterminal.Statement nonterminal.Closed) budget.brackets budget.limit budget.left (drop at view.now)) }
    ensures moves { Moves at result }
    ensures inside { Inside (length view.now) result }
{
    let own = Budget {
        left: budget.limit,
        ..budget
    };
    let (first, mut end, mut left) = branch(alloc, view, lenient, at, own)?;
    let mut others = Items::new(alloc);
    'branches: while stands(view, end, Opening::ElseIf) {
        if left == 0 {
            return Err(Stop::Refused {
                at: end,
                over: true,
            });
        }
        let (_, next) = view.take(end);
        let counted = Budget {
            left: left - 1,
            ..budget
        };
        let (other, other_end, other_left) = branch(alloc, view, lenient, next, counted)?;
        others.push(other)?;
        end = other_end;
        left = other_left;
    }
    if !stands(view, end, Opening::Else) {
        let kept = trimmed(alloc, others)?;
        return Ok((Stmt::If(first, kept, None), end, budget.left));
    }
    let (_, next) = view.take(end);
    let (body, after, _) = block(alloc, view, lenient, next, Budget { left, ..budget })?;
    let kept = trimmed(alloc, others)?;
    Ok((Stmt::If(first, kept, Some(body)), after, budget.left))
}
