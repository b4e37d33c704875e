//! The text of a whole tree.

ghost use Rattle.std.specs.Prelude.{◌≡◌, ◌≤◌, length, IfOk};
ghost use Rattle.sw_base.specs.Limits.{longest_source};
ghost use Rattle.sw_print.specs.Declarations.{tree_text};
ghost use Rattle.sw_print.specs.Printed.{IsParsed, IsParsedTo, SpellsTree};

use crate::page::Page;
use crate::writing::{Written, write_lines};
use std::alloc::Global;
use sw_base::{NoMemory, Text};
use sw_layout::{Gap, cut_again, lexed_fit, questions_apart, unbroken};
use sw_lex::integers_fit;
use sw_places::places_apart;
use sw_tree::Tree;

/// The declarations of a tree, and the end of the last line.
fn written(alloc: Global, tree: &Tree) -> Result<Text, NoMemory>
    ensures { IfOk result (λ text. text ≡ tree_text tree.now) }
{
    let mut page = Page::new(alloc)?;
    match tree.decls.as_slice() {
        [] => Ok(page.into_text()),
        [first, others @ ..] => {
            first.write(&mut page, Gap::Start)?;
            write_lines(&mut page, others)?;
            page.bytes(b"\n")?;
            Ok(page.into_text())
        }
    }
}

/// The text of a tree.
///
/// A line break stands before each declaration, member, case, statement and closing brace, and one space
/// between other words, with the exceptions that `specs/` gives. A statement that begins with `.` follows
/// `;` on the line of the one before it. The only error is want of memory.
///
/// Of a tree that `parse` gives the text spells the same tree but for its places; and where it has at most
/// 1,048,576 bytes it breaks no rule of tokens, so that `lex` and `parse` give that tree of it.
pub fn print(alloc: Global, tree: &Tree) -> Result<Text, NoMemory>
    ensures text { IfOk result (λ text. text ≡ tree_text tree.now) }
    ensures spells { IfOk result (λ text. IsParsed tree.now → SpellsTree text tree.now) }
    ensures parsed { IfOk result (λ text. IsParsed tree.now → length text ≤ longest_source → IsParsedTo text tree.now) }
{
    // For their clauses: what holds of the tokens of a source, and of the words of a text.
    lexed_fit();
    integers_fit();
    questions_apart();
    cut_again();
    unbroken();
    places_apart();
    written(alloc, tree)
}
