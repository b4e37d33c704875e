//! Writes types.

ghost use Rattle.std.specs.Prelude.{◌≡◌, ◌++◌, OnOk};
ghost use Rattle.sw_layout.specs.Words.{words_text};
ghost use Rattle.sw_layout.specs.declared.gap.Gap.{Gap as GapValue};
ghost use Rattle.sw_print.specs.Expressions.{mark_gap, type_words};

use crate::names::{write_dot_name, write_name};
use crate::page::Page;
use sw_base::NoMemory;
use sw_layout::Gap;
use sw_lex::TokenKind;
use sw_tree::Type;

/// What stands before the `?` after a type: another `?` would be one mark with it.
#[tactic(auto, using(crate::proofs::ExprWords::gap_rules))]
fn mark_gap(x: &Type) -> Gap
    ensures { (before : GapValue) → result ≡ mark_gap (type_words x.now before) }
{
    match x {
        Type::Optional(_) => Gap::Space,
        Type::Name(_) => Gap::Joined,
        Type::Member(_, _) => Gap::Joined,
        Type::Array(_, _) => Gap::Joined,
        Type::Any(_, _) => Gap::Joined,
        Type::Void(_) => Gap::Joined,
    }
}

/// Writes a type.
#[cycle(types)]
#[tactic(auto, using(crate::proofs::ExprWords::type_rules))]
pub fn write_type(page: &mut Page, x: &Type, before: Gap) -> Result<(), NoMemory>
    ensures { OnOk result (page.new ≡ page.old ++ words_text (type_words x.now before)) }
{
    match x {
        Type::Name(name) => write_name(page, name, before),
        Type::Member(outer, name) => {
            write_name(page, outer, before)?;
            write_dot_name(page, name, Gap::Joined)
        }
        Type::Array(_, element) => {
            page.plain(TokenKind::LeftBracket, before)?;
            write_type(page, element.get(), Gap::Space)?;
            page.plain(TokenKind::RightBracket, Gap::Space)
        }
        Type::Any(_, name) => {
            page.plain(TokenKind::Any, before)?;
            write_name(page, name, Gap::Space)
        }
        Type::Void(_) => {
            page.plain(TokenKind::LeftParen, before)?;
            page.plain(TokenKind::RightParen, Gap::Space)
        }
        Type::Optional(wrapped) => {
            write_type(page, wrapped.get(), before)?;
            page.plain(TokenKind::Question, mark_gap(wrapped.get()))
        }
    }
}
