//! Writes names, and labels, which may be reserved words.

ghost use Rattle.std.specs.Prelude.{◌≡◌, [], ◌∷◌, ◌++◌, OnOk};
ghost use Rattle.sw_layout.specs.Words.{words_text};
ghost use Rattle.sw_print.specs.Expressions.{around, name_word, label_word, dot_name};

use crate::page::Page;
use sw_base::NoMemory;
use sw_layout::Gap;
use sw_lex::TokenKind;
use sw_tree::Name;

/// Writes a name.
pub fn write_name(page: &mut Page, name: &Name, before: Gap) -> Result<(), NoMemory>
    ensures { OnOk result (page.new ≡ page.old ++ words_text (name_word name.now before ∷ [])) }
{
    page.word(TokenKind::Name, name.text.as_bytes(), before)
}

/// Writes a label. A reserved word is spelt as a name would be.
pub fn write_label(page: &mut Page, name: &Name, before: Gap) -> Result<(), NoMemory>
    ensures { OnOk result (page.new ≡ page.old ++ words_text (label_word name.now before ∷ [])) }
{
    page.word(TokenKind::Name, name.text.as_bytes(), before)
}

/// What stands before a `.`, where this would stand before another word.
fn around(before: Gap) -> Gap
    ensures { result ≡ around before }
{
    match before {
        Gap::Space => Gap::Joined,
        before => before,
    }
}

/// Writes a `.` and a name after it.
pub fn write_dot_name(page: &mut Page, name: &Name, before: Gap) -> Result<(), NoMemory>
    ensures { OnOk result (page.new ≡ page.old ++ words_text (dot_name name.now before)) }
{
    page.plain(TokenKind::Dot, around(before))?;
    write_name(page, name, Gap::Joined)
}
