//! Writes patterns of a `switch` and of a `catch`.

ghost use Rattle.std.specs.Prelude.{◌≡◌, ◌++◌, OnOk};
ghost use Rattle.sw_layout.specs.Words.{words_text};
ghost use Rattle.sw_print.specs.Statements.{bind_words, binds_words, catch_pattern_words, label_words, pattern_words};

use crate::expressions::write_literal;
use crate::names::{write_dot_name, write_name};
use crate::page::Page;
use crate::writing::{Written, write_in_parens, write_listed};
use sqlite_items::Items;
use sw_base::NoMemory;
use sw_layout::Gap;
use sw_lex::TokenKind;
use sw_tree::{ArmLabel, Bind, CatchPattern, Pattern};

impl Written for Bind {
    ghost words = { bind_words };

    fn write(&self, page: &mut Page, before: Gap) -> Result<(), NoMemory> {
        match self {
            Bind::Let(name) => {
                page.plain(TokenKind::Let, before)?;
                write_name(page, name, Gap::Space)
            }
            Bind::Any => page.plain(TokenKind::Underscore, before),
        }
    }
}

/// Writes the brackets of a pattern, where it has them.
fn write_binds(page: &mut Page, binds: &Option<Items<Bind>>) -> Result<(), NoMemory>
    ensures { OnOk result (page.new ≡ page.old ++ words_text (binds_words binds.now)) }
{
    match binds {
        None => Ok(()),
        Some(binds) => write_in_parens(page, binds.as_slice()),
    }
}

impl Written for Pattern {
    ghost words = { pattern_words };

    #[tactic(auto, using(crate::proofs::TextLemmas::text_rules))]
    fn write(&self, page: &mut Page, before: Gap) -> Result<(), NoMemory> {
        match self {
            Pattern::Any(_) => page.plain(TokenKind::Underscore, before),
            Pattern::Literal(_, value) => write_literal(page, value, before),
            Pattern::Nil(_) => page.plain(TokenKind::Nil, before),
            Pattern::Case(None, _, name, binds) => {
                write_dot_name(page, name, before)?;
                write_binds(page, binds)
            }
            Pattern::Case(Some(outer), _, name, binds) => {
                write_name(page, outer, before)?;
                write_dot_name(page, name, Gap::Joined)?;
                write_binds(page, binds)
            }
        }
    }
}

/// Writes the pattern of a `catch`.
#[tactic(auto, using(crate::proofs::TextLemmas::text_rules))]
pub fn write_catch_pattern(
    page: &mut Page,
    pattern: &CatchPattern,
    before: Gap,
) -> Result<(), NoMemory>
    ensures { OnOk result (page.new ≡ page.old ++ words_text (catch_pattern_words pattern.now before)) }
{
    match pattern {
        CatchPattern::As(name, of) => {
            page.plain(TokenKind::Let, before)?;
            write_name(page, name, Gap::Space)?;
            page.plain(TokenKind::As, Gap::Space)?;
            write_name(page, of, Gap::Space)
        }
        CatchPattern::Case(outer, name, binds) => {
            write_name(page, outer, before)?;
            write_dot_name(page, name, Gap::Joined)?;
            write_binds(page, binds)
        }
    }
}

/// Writes what stands before the statements of an arm.
#[tactic(auto, using(crate::proofs::TextLemmas::text_rules))]
pub fn write_arm_label(page: &mut Page, label: &ArmLabel, before: Gap) -> Result<(), NoMemory>
    ensures { OnOk result (page.new ≡ page.old ++ words_text (label_words label.now before)) }
{
    match label {
        ArmLabel::Case(patterns) => {
            page.plain(TokenKind::Case, before)?;
            write_listed(page, patterns.as_slice())?;
            page.plain(TokenKind::Colon, Gap::Space)
        }
        ArmLabel::Default => {
            page.plain(TokenKind::Default, before)?;
            page.plain(TokenKind::Colon, Gap::Space)
        }
    }
}
