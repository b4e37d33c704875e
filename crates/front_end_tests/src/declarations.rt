//! Files read by hand, from the words that say what the grammar is: no contract says that memory is there, nor
//! that the definitions say what was meant.

mod rows;
mod trees;

use rows::ROWS;
use std::alloc::Global;
use std::test::Fail;
use sw_base::Text;
use sw_lex::{Tokens, lex};
use sw_parse_decl::file;
use sw_syntax::{Budget, Stop, TokenView};
use test_rows::check_rows;
use trees::write_tree;

/// The brackets, and the operators and postfix forms, that a file may have.
const BUDGET: Budget = Budget {
    brackets: 64,
    left: 100,
    limit: 100,
};

/// What the tokens of a source are read as: a tree, or the index of the refused token, the first being 0.
fn read(alloc: Global, tokens: &Tokens) -> Result<Text, Fail> {
    let source = TokenView::new(tokens);
    match file(alloc, &source, false, 0, BUDGET) {
        Ok((tree, end, _)) => {
            let mut text = Text::from_bytes(alloc, b"")?;
            write_tree(alloc, &mut text, &tree)?;
            if end != tokens.len() {
                text.push_all(b" and more")?;
            }
            Ok(text)
        }
        Err(Stop::Refused { at, over }) => {
            let why = if over { "over budget" } else { "refused" };
            let text = format!(in alloc; "{why} @{at}")?;
            Ok(Text::from_bytes(alloc, text.as_bytes())?)
        }
        Err(Stop::NoMemory) => Ok(Text::from_bytes(alloc, b"no memory")?),
    }
}

/// What becomes of a source, as the rows write it.
fn answer(alloc: Global, source: &[u8]) -> Result<Text, Fail> {
    match lex(alloc, source) {
        Ok(tokens) => read(alloc, &tokens),
        Err(_) => Ok(Text::from_bytes(alloc, b"no tokens")?),
    }
}

#[test]
fn each_row_is_answered(rt: HostRuntime) -> Result<(), Fail> {
    let (right, wrong) = check_rows(rt.alloc(), ROWS, answer)?;
    assert_eq!(rt; wrong, None);
    assert_eq!(rt; right, 47);
    Ok(())
}
