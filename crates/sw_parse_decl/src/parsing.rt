//! The tree of a whole source.

ghost use Rattle.std.specs.Prelude.{false, IfOk, IfErr};
ghost use Rattle.sw_rules.specs.Pass.{IsCause, RefusesNone};
ghost use Rattle.sw_parse_decl.specs.Parsed.{IsOnlyTree, HasNoTree};
ghost use Rattle.sw_syntax.specs.Meaning.{Spells, source_budget};
ghost use Rattle.sw_syntax.specs.Refusals.{Refuses};
ghost use Rattle.sw_syntax.specs.Nonterminals as nonterminal;
ghost use Rattle.sw_syntax.specs.Tokens.{sighted};

use crate::files::file;
use std::alloc::Global;
use sw_lex::Tokens;
use sw_rules::FrontError;
use sw_syntax::{Reader, SOURCE_BUDGET, Stop, TokenView, refused_at};
use sw_tree::Tree;

/// Reads files.
struct Files;

impl Reader for Files {
    ghost nonterminal = { nonterminal.File };

    fn end(alloc: Global, view: &TokenView, lenient: bool, at: usize) -> Result<usize, Stop> {
        match file(alloc, view, lenient, at, SOURCE_BUDGET) {
            Ok((_, end, _)) => Ok(end),
            Err(stop) => Err(stop),
        }
    }
}

/// Gives the tree that the tokens of a source spell, all of them.
///
/// Tokens that spell none within the budget of a source are refused by the first of the rules `P1` to `P6` that
/// is broken. The only other error is want of memory.
pub fn parse(alloc: Global, tokens: &Tokens) -> Result<Tree, FrontError>
    ensures spelt { IfOk result (λ tree. Spells false nonterminal.File source_budget (sighted tokens.now) tree) }
    ensures only { IfOk result (λ tree. IsOnlyTree tokens.now tree) }
    ensures unbroken { IfOk result (λ tree. RefusesNone (Refuses nonterminal.File tokens.now 0)) }
    ensures refused { IfErr result (λ error. IsCause (Refuses nonterminal.File tokens.now 0) error) }
    ensures no_tree { IfErr result (λ error. HasNoTree tokens.now error) }
{
    let view = TokenView::new(tokens);
    match file(alloc, &view, false, 0, SOURCE_BUDGET) {
        // The end of the source closes a file, so nothing follows it.
        Ok((tree, _, _)) => Ok(tree),
        Err(
            Stop::Refused {
                at: position,
                over: is_over_budget,
            },
        ) => { Err(refused_at::<Files>(alloc, tokens, 0, position, is_over_budget)) }
        Err(Stop::NoMemory) => Err(FrontError::NoMemory),
    }
}
