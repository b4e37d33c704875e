//! Whole files.

ghost use Rattle.std.specs.Prelude.{◌≤◌, drop, length};
ghost use Rattle.sw_syntax.specs.Answering.{read};
ghost use Rattle.sw_syntax.specs.ReadResults.{Gives, Inside, Moves};
ghost use Rattle.sw_syntax.specs.Nonterminals as nonterminal;

use crate::declarations::declarations;
use std::alloc::Global;
use sw_lex::TokenKind;
use sw_syntax::{Budget, Read, Test, TokenView};
use sw_tree::Tree;

/// The whole file at this position.
pub fn file(alloc: Global, view: &TokenView, lenient: bool, at: usize, budget: Budget) -> Read<Tree>
    requires { at ≤ length view.now }
    ensures gives { Gives view.now result (read lenient nonterminal.File budget.brackets budget.limit budget.left (drop at view.now)) }
    ensures moves { Moves at result }
    ensures inside { Inside (length view.now) result }
{
    let (decls, end, left) = declarations(alloc, view, lenient, at, budget)?;
    let (_, after) = view.expect(end, Test::Is(TokenKind::End))?;
    Ok((Tree { decls }, after, left))
}
