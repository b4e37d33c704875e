//! What is written as words, and lists of it.

ghost use Rattle.std.specs.Prelude.{◌≡◌, List, [], ◌++◌, map, OnOk};
ghost use Rattle.sw_layout.specs.declared.gap.Gap.{Gap as GapValue};
ghost use Rattle.sw_layout.specs.Words.{Word, words_text};
ghost use Rattle.sw_print.specs.Expressions.{listed, in_parens};
ghost use Rattle.sw_print.specs.Statements.{each_line};

use crate::page::Page;
use sw_base::NoMemory;
use sw_layout::Gap;
use sw_lex::TokenKind;

/// What is written as words.
pub trait Written {
    ghost words: { Self → GapValue → List Word };

    /// Writes it, with this before the first of its words.
    fn write(&self, page: &mut Page, before: Gap) -> Result<(), NoMemory>
        ensures { OnOk result (page.new ≡ page.old ++ words_text (words self.now before)) };
}

/// Writes items with commas between.
pub fn write_listed<T: Written>(page: &mut Page, items: &[T]) -> Result<(), NoMemory>
    ensures { OnOk result (page.new ≡ page.old ++ words_text (listed (map T.words items.now))) }
{
    match items {
        [] => Ok(()),
        [first, others @ ..] => {
            first.write(page, Gap::Space)?;
            for item in others {
                page.plain(TokenKind::Comma, Gap::Space)?;
                item.write(page, Gap::Space)?;
            }
            Ok(())
        }
    }
}

/// Writes items with commas between, in brackets.
#[tactic(auto, using(crate::proofs::TextLemmas::text_rules))]
pub fn write_in_parens<T: Written>(page: &mut Page, items: &[T]) -> Result<(), NoMemory>
    ensures { OnOk result (page.new ≡ page.old ++ words_text (in_parens (map T.words items.now))) }
{
    page.plain(TokenKind::LeftParen, Gap::Space)?;
    write_listed(page, items)?;
    page.plain(TokenKind::RightParen, Gap::Space)
}

/// Writes items, each on a line of its own.
pub fn write_lines<T: Written>(page: &mut Page, items: &[T]) -> Result<(), NoMemory>
    ensures { OnOk result (page.new ≡ page.old ++ words_text (each_line (map T.words items.now))) }
{
    for item in items {
        item.write(page, Gap::Line)?;
    }
    Ok(())
}
