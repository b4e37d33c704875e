//! Reading: from the bytes of a source to its tree.

ghost use Rattle.std.specs.Prelude.{IfErr, IfOk};
ghost use Rattle.swda.specs.Parsed.{IsParsed, IsUnparsedBy};
ghost use Rattle.swda.specs.ReadAs.{IsRead, IsRefusedBy};

use std::alloc::Global;
use sw_lex::lex;
use sw_names::names;
use sw_parse_decl::parse;
use sw_rules::FrontError;
use sw_tree::Tree;

/// The tree of a source by its tokens and the grammar. The only error but a refusal is want of memory.
fn parsed(alloc: Global, source: &[u8]) -> Result<Tree, FrontError>
    ensures parsed { IfOk result (λ tree. IsParsed source.now tree) }
    ensures refused { IfErr result (λ error. IsUnparsedBy source.now error) }
{
    let tokens = lex(alloc, source)?;
    parse(alloc, &tokens)
}

/// The tree of a source.
///
/// A source is refused by the first rule that it breaks: of tokens, then of the grammar, then of names. The only
/// other error is want of memory.
pub fn read(alloc: Global, source: &[u8]) -> Result<Tree, FrontError>
    ensures read { IfOk result (λ tree. IsRead source.now tree) }
    ensures refused { IfErr result (λ error. IsRefusedBy source.now error) }
{
    let tree = parsed(alloc, source)?;
    names(alloc, &tree)?;
    Ok(tree)
}
