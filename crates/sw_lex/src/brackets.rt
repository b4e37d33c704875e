//! The brackets that are open within a string.

ghost use Rattle.std.specs.Prelude.{◌≡◌, OnOk};
ghost use Rattle.sw_lex.specs.Cut as spec;

use crate::lexemes::Lexeme;
use crate::token::TokenKind;
use sw_base::{NoMemory, Stack};

/// Whether a string is open.
pub fn is_inside(opens: &Stack<bool>) -> bool
    ensures { result ≡ spec.is_inside opens.now }
{
    !opens.is_empty()
}

/// Whether `)` closes a `\(`.
pub fn closes(opens: &Stack<bool>) -> bool
    ensures { result ≡ spec.closes opens.now }
{
    match opens.get(0) {
        None => false,
        Some(bracket) => *bracket,
    }
}

/// Keeps the brackets that are open within the outermost string, where `\(` is true.
pub fn track(opens: &mut Stack<bool>, item: Lexeme) -> Result<(), NoMemory>
    ensures { OnOk result (opens.new ≡ spec.after opens.old item) }
{
    match item {
        Lexeme::Token(TokenKind::StringStart, _) => opens.push(true),
        Lexeme::Token(TokenKind::LeftParen, _) => {
            if is_inside(opens) {
                opens.push(false)
            } else {
                Ok(())
            }
        }
        Lexeme::Token(TokenKind::StringLast, _) => {
            opens.discard(1);
            Ok(())
        }
        Lexeme::Token(TokenKind::RightParen, _) => {
            opens.discard(1);
            Ok(())
        }
        _ => Ok(()),
    }
}
