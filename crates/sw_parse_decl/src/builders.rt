//! What a token says of a node.

ghost use Rattle.std.specs.Prelude.{◌≡◌, IfOk};
ghost use Rattle.sw_lex.specs.Tables.{is_same_text};
ghost use Rattle.sw_syntax.specs.Forms as form;
ghost use Rattle.sw_syntax.specs.Sights.{lent_face};
ghost use Rattle.sw_syntax.specs.Values.{name_of};

use sw_base::{Duplicate, NoMemory};
use sw_lex::{TokenKind, TokenRef};
use sw_tree::{Modifier, ModifierKind, Name, ParameterLabel};

/// The name that a token spells.
pub fn name(token: TokenRef<'_>) -> Result<Name, NoMemory>
    ensures { IfOk result (λ name. name ≡ name_of (lent_face token.entry)) }
{
    Ok(Name {
        text: token.text.copy()?,
        span: token.span,
    })
}

fn is_word(text: &[u8], word: &[u8]) -> bool
    ensures { result ≡ is_same_text text.now word.now }
{
    text == word
}

/// The modifier of a word that is not reserved.
fn modifier_word(text: &[u8]) -> ModifierKind
    ensures { result ≡ form.modifier_word text.now }
{
    if is_word(text, b"final") {
        return ModifierKind::Final;
    }
    if is_word(text, b"distributed") {
        return ModifierKind::Distributed;
    }
    if is_word(text, b"nonisolated") {
        return ModifierKind::Nonisolated;
    }
    ModifierKind::Mutating
}

fn modifier_kind(kind: TokenKind, text: &[u8]) -> ModifierKind
    ensures { result ≡ form.modifier_in kind text.now }
{
    match kind {
        TokenKind::Public => ModifierKind::Public,
        TokenKind::Internal => ModifierKind::Internal,
        TokenKind::Private => ModifierKind::Private,
        TokenKind::Fileprivate => ModifierKind::Fileprivate,
        TokenKind::Static => ModifierKind::Static,
        _ => modifier_word(text),
    }
}

/// The modifier that a token spells.
pub fn modifier(token: TokenRef<'_>) -> Modifier
    ensures { result ≡ form.modifier_of (lent_face token.entry) }
{
    Modifier {
        kind: modifier_kind(token.kind, token.text.as_bytes()),
        span: token.span,
    }
}

/// What the first of two names of a parameter labels its arguments with.
pub fn label(token: TokenRef<'_>) -> Result<ParameterLabel, NoMemory>
    ensures { IfOk result (λ label. label ≡ form.label_in token.entry.kind (name_of (lent_face token.entry))) }
{
    match token.kind {
        TokenKind::Underscore => Ok(ParameterLabel::Nothing),
        _ => Ok(ParameterLabel::Other(name(token)?)),
    }
}
