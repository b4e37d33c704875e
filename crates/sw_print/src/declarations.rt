//! Writes the declarations of a file.

ghost use Rattle.std.specs.Prelude.{◌≡◌, [], ◌∷◌, ◌++◌, map, OnOk};
ghost use Rattle.sw_layout.specs.Words.{words_text};
ghost use Rattle.sw_print.specs.Expressions.{name_word, word};
ghost use Rattle.sw_print.specs.Statements.{each_line, in_braces};
ghost use Rattle.sw_print.specs.Declarations.{conformances_words, decl_words, heading_words};

use crate::members::{write_func, write_typealias};
use crate::names::write_name;
use crate::page::Page;
use crate::signatures::write_modifiers;
use crate::writing::{Written, write_lines, write_listed};
use sw_base::NoMemory;
use sw_layout::Gap;
use sw_lex::TokenKind;
use sw_tree::{Decl, Heading, Name};

impl Written for Name {
    ghost words = { λ name before. name_word name before ∷ [] };

    fn write(&self, page: &mut Page, before: Gap) -> Result<(), NoMemory> {
        write_name(page, self, before)
    }
}

/// Writes the names after the `:` of a declared type, where there are any.
#[tactic(auto, using(crate::proofs::TextLemmas::text_rules))]
fn write_conformances(page: &mut Page, names: &[Name]) -> Result<(), NoMemory>
    ensures { OnOk result (page.new ≡ page.old ++ words_text (conformances_words names.now)) }
{
    if names.is_empty() {
        return Ok(());
    }
    page.plain(TokenKind::Colon, Gap::Space)?;
    write_listed(page, names)
}

/// Writes a heading up to its brace: the kind of the type follows the modifiers.
#[tactic(auto, using(crate::proofs::Modifiers::modified_rules))]
fn write_heading(
    page: &mut Page,
    kind: TokenKind,
    spelling: &[u8],
    heading: &Heading,
    before: Gap,
) -> Result<(), NoMemory>
    ensures { OnOk result (page.new ≡ page.old
        ++ words_text (heading_words (word kind spelling.now) heading.now before)) }
{
    let before = write_modifiers(page, heading.modifiers.as_slice(), before)?;
    page.word(kind, spelling, before)?;
    write_name(page, &heading.name, Gap::Space)?;
    write_conformances(page, heading.conformances.as_slice())
}

/// Writes items between braces, each on a line of its own.
#[tactic(auto, using(crate::proofs::TextLemmas::text_rules))]
fn write_items<T: Written>(page: &mut Page, items: &[T]) -> Result<(), NoMemory>
    ensures { OnOk result (page.new ≡ page.old ++ words_text (in_braces (each_line (map T.words items.now)))) }
{
    page.plain(TokenKind::LeftBrace, Gap::Space)?;
    write_lines(page, items)?;
    page.plain(TokenKind::RightBrace, Gap::Line)
}

impl Written for Decl {
    ghost words = { decl_words };

    #[tactic(auto, using(crate::proofs::Headings::decl_rules))]
    fn write(&self, page: &mut Page, before: Gap) -> Result<(), NoMemory> {
        match self {
            Decl::Import(_, name) => {
                page.plain(TokenKind::Import, before)?;
                write_name(page, name, Gap::Space)
            }
            Decl::Typealias(x) => write_typealias(page, x, before),
            Decl::Struct(heading, members) => {
                write_heading(page, TokenKind::Struct, b"struct", heading, before)?;
                write_items(page, members.as_slice())
            }
            Decl::Enum(heading, items) => {
                write_heading(page, TokenKind::Enum, b"enum", heading, before)?;
                write_items(page, items.as_slice())
            }
            Decl::Protocol(heading, requirements) => {
                write_heading(page, TokenKind::Protocol, b"protocol", heading, before)?;
                write_items(page, requirements.as_slice())
            }
            Decl::Actor(heading, members) => {
                write_heading(page, TokenKind::Name, b"actor", heading, before)?;
                write_items(page, members.as_slice())
            }
            Decl::Func(x) => write_func(page, x, before),
        }
    }
}
