//! Sources through lexer, parser and printer, and what is printed through lexer and parser again: no contract says that
//! memory is there, nor that the definitions say what was meant.

mod rows;

use rows::{ROWS, Row};
use std::alloc::Global;
use std::test::Fail;
use sw_lex::lex;
use sw_parse_decl::parse;
use sw_print::print;
use sw_rules::FrontError;
use sw_tree::Tree;

/// The tree of a source.
fn tree_of(alloc: Global, source: &[u8]) -> Result<Tree, FrontError> {
    let tokens = lex(alloc, source)?;
    parse(alloc, &tokens)
}

/// What derived `Debug` writes of a tree, without its places.
fn shown(alloc: Global, tree: &Tree) -> Result<Vec<u8>, Fail> {
    let text = format!(in alloc; "{tree:?}")?;
    let bytes = text.as_bytes();
    let mut kept = Vec::new(alloc);
    let mut is_place = false;
    for at in 0..bytes.len() {
        if bytes[at..].starts_with(b"Span {") {
            is_place = true;
        }
        if !is_place {
            kept.push(bytes[at])?;
        }
        if bytes[at] == b'}' {
            is_place = false;
        }
    }
    Ok(kept)
}

/// Tells whether the text of the source's tree is the one that is wanted, and whether the text has that tree
/// again, and is printed of it.
fn comes_back(alloc: Global, row: &Row) -> Result<bool, Fail> {
    let Ok(tree) = tree_of(alloc, row.source.as_bytes()) else {
        return Ok(false);
    };
    let text = print(alloc, &tree)?;
    if text.as_bytes() != row.text.as_bytes() {
        return Ok(false);
    }
    let Ok(again) = tree_of(alloc, text.as_bytes()) else {
        return Ok(false);
    };
    let same = print(alloc, &again)?;
    let first = shown(alloc, &tree)?;
    let second = shown(alloc, &again)?;
    Ok(same.as_bytes() == row.text.as_bytes() && first.as_slice() == second.as_slice())
}

/// The source of the first row that does not come back.
fn first_lost(alloc: Global) -> Result<Option<&'static str>, Fail> {
    for row in &ROWS {
        if !comes_back(alloc, row)? {
            return Ok(Some(row.source));
        }
    }
    Ok(None)
}

#[test]
fn each_tree_is_printed_and_read_again(rt: HostRuntime) -> Result<(), Fail> {
    let lost = first_lost(rt.alloc())?;
    assert_eq!(rt; lost, None);
    Ok(())
}
