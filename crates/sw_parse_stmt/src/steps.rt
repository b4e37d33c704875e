//! A statement of a body together with what stands between it and the next; and `return`.

ghost use Rattle.std.specs.Prelude.{◌≡◌, false, ◌<◌, ◌≤◌, ◌∷◌, ◌++◌, [], ℕ, Bool, List, drop, length, true};
ghost use Rattle.sw_grammar.specs.Reading.{at_first};
ghost use Rattle.sw_lex.specs.declared.token.TokenKind.TheVariants as k;
ghost use Rattle.sw_parse_stmt.specs.Statements.{goes_on, stepped};
ghost use Rattle.sw_syntax.specs.Bodies.{after_stmt, body_from};
ghost use Rattle.sw_syntax.specs.Grammar.{begins_below};
ghost use Rattle.sw_syntax.specs.ReadResults.{GoesOn, Inside, Moves};
ghost use Rattle.sw_syntax.specs.Nonterminals.{Ending, Context};
ghost use Rattle.sw_syntax.specs.Nonterminals as nonterminal;
ghost use Rattle.sw_syntax.specs.Tables.{starts_stmt_of};
ghost use Rattle.sw_syntax.specs.Tests.{is};
ghost use Rattle.sw_tree.specs.declared.stmt.Stmt.{Stmt as StmtTree};

use std::alloc::Global;
use sw_lex::TokenKind;
use sw_parse_expr::expr;
use sw_syntax::{Budget, Opening, Read, Test, TokenView, stands};
use sw_tree::Stmt;

/// A statement of a body, and whether others may follow it.
#[derive(Debug, Drop)]
pub struct Step {
    pub statement: Stmt,
    pub goes_on: bool,
}

/// Whether others may follow a statement that ends before this position, and the position where they begin.
///
/// `is_below` tells whether the token at this position may begin one without `;`.
pub fn separator(view: &TokenView, at: usize, is_below: bool) -> (bool, usize)
    requires { at ≤ length view.now }
    ensures gives { (lenient : Bool) (context : Context) (ending : Ending) (d l c : ℕ) (xs : List StmtTree) (x : StmtTree) → is_below ≡ at_first (begins_below ending) (drop at view.now) → after_stmt lenient context ending d l c xs x (drop at view.now) ≡ goes_on lenient context d l c (xs ++ x ∷ []) result.0 (drop result.1 view.now) }
    ensures stays { at ≤ result.1 }
    ensures inside { result.1 ≤ length view.now }
{
    if view.is(at, Test::Is(TokenKind::Semicolon)) {
        let (_, next) = view.take(at);
        return (true, next);
    }
    (is_below, at)
}

/// A `return`, with its value where that begins on the same line.
pub fn returned(
    alloc: Global,
    view: &TokenView,
    lenient: bool,
    at: usize,
    budget: Budget,
) -> Read<Step>
    requires { (at_first (starts_stmt_of nonterminal.Open) (drop at view.now) ≡ false) × (at_first (starts_stmt_of nonterminal.Closed) (drop at view.now) ≡ false) × (at_first (is k.Return) (drop at view.now) ≡ true) × (at < length view.now) }
    ensures gives { (context : Context) (xs : List StmtTree) → GoesOn (stepped lenient context budget.brackets budget.limit xs) view.now result (body_from lenient context budget.brackets budget.limit budget.left xs (drop at view.now)) }
    ensures moves { Moves at result }
    ensures inside { Inside (length view.now) result }
{
    let (token, next) = view.take(at);
    if !stands(view, next, Opening::Returned) {
        let statement = Stmt::Return(token.span, None);
        let is_below = stands(view, next, Opening::BelowClosed);
        let (goes_on, after) = separator(view, next, is_below);
        return Ok((Step { statement, goes_on }, after, budget.left));
    }
    let own = Budget {
        left: budget.limit,
        ..budget
    };
    let (x, end, _) = expr(alloc, view, lenient, next, own)?;
    let statement = Stmt::Return(token.span, Some(x));
    let is_below = stands(view, end, Opening::BelowOpen);
    let (goes_on, after) = separator(view, end, is_below);
    Ok((Step { statement, goes_on }, after, budget.left))
}
