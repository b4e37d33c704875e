//! The limit that the integers of a source keep.

ghost use Rattle.std.specs.Prelude.{◌≡◌, ◌≤◌, length, nat_lt};
ghost use Rattle.sw_base.specs.Limits.{greatest_integer};
ghost use Rattle.sw_lex.specs.Lexemes.{size_of};
ghost use Rattle.sw_lex.specs.Rules as spec;
ghost use Rattle.sw_lex.specs.FirstBroken as broken;

use crate::lexemes::Lexeme;
use crate::token::TokenKind;
use sw_base::GREATEST_INTEGER;

/// Whether digits stand for a number above the greatest.
fn is_above_greatest(digits: &[u8]) -> bool
    ensures { result ≡ nat_lt greatest_integer (spec.number 0 digits.now) }
{
    let mut number: u64 = 0;
    for byte in digits {
        if *byte != b'_' {
            let digit = byte.saturating_sub(48) as u64;
            if number > (GREATEST_INTEGER - digit) / 10 {
                return true;
            }
            number = number * 10 + digit;
        }
    }
    false
}

/// Whether it is an integer above the greatest.
pub fn is_too_large(bytes: &[u8], item: Lexeme) -> bool
    requires { size_of item ≤ length bytes.now }
    ensures { result ≡ broken.is_too_large bytes.now item }
{
    match item {
        Lexeme::Token(TokenKind::Integer, size) => is_above_greatest(&bytes[..size]),
        _ => false,
    }
}
