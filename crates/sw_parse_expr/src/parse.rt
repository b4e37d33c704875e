//! The expression that the tokens of a source begin with at a position.

ghost use Rattle.std.specs.Prelude.{◌<◌, length, IfOk, IfErr};
ghost use Rattle.sw_rules.specs.Pass.{IsCause, RefusesNone};
ghost use Rattle.sw_syntax.specs.Refusals.{IsSentence, Refuses};
ghost use Rattle.sw_syntax.specs.Nonterminals as nonterminal;

use crate::expressions::expr;
use std::alloc::Global;
use sw_lex::Tokens;
use sw_rules::FrontError;
use sw_syntax::{Reader, SOURCE_BUDGET, Stop, TokenView, refused_at, unbroken_after};
use sw_tree::Expr;

/// Reads expressions.
struct Expressions;

impl Reader for Expressions {
    ghost nonterminal = { nonterminal.Expr };

    fn end(alloc: Global, view: &TokenView, lenient: bool, at: usize) -> Result<usize, Stop> {
        match expr(alloc, view, lenient, at, SOURCE_BUDGET) {
            Ok((_, end, _)) => Ok(end),
            Err(stop) => Err(stop),
        }
    }
}

/// Gives the expression that the tokens of a source spell from a position on, and the position after it.
///
/// It is the longest run of tokens from there that begins an expression, if that run is one and breaks no
/// rule together with the token after it. Otherwise it is refused by the first of the rules `P1` to `P6`
/// that is broken. The only other error is want of memory.
pub fn parse_expr(alloc: Global, tokens: &Tokens, at: usize) -> Result<(Expr, usize), FrontError>
    requires inside { at < length tokens.now }
    ensures text { IfOk result (λ found. IsSentence nonterminal.Expr tokens.now at found.0 found.1) }
    ensures unbroken { IfOk result (λ found. RefusesNone (Refuses nonterminal.Expr tokens.now at)) }
    ensures refused { IfErr result (λ error. IsCause (Refuses nonterminal.Expr tokens.now at) error) }
{
    let view = TokenView::new(tokens);
    match expr(alloc, &view, false, at, SOURCE_BUDGET) {
        Ok((tree, end, _)) => {
            unbroken_after::<Expressions>(alloc, tokens, at, end)?;
            Ok((tree, end))
        }
        Err(
            Stop::Refused {
                at: end,
                over: is_over_budget,
            },
        ) => { Err(refused_at::<Expressions>(alloc, tokens, at, end, is_over_budget)) }
        Err(Stop::NoMemory) => Err(FrontError::NoMemory),
    }
}
