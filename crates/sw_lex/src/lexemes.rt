//! The lexeme that begins some bytes: a gap, a token, the end, or what is malformed or unterminated.

ghost use Rattle.std.specs.Prelude.{◌≡◌, ◌<◌, ◌≤◌, ℕ, ◌-◌, Some, IfSome, drop, length, slice_index, true};
ghost use Rattle.std.specs.List.{prefix_len};
ghost use Rattle.sw_lex.specs.Bytes.{is_in};
ghost use Rattle.sw_lex.specs.Lexemes as spec;
ghost use Rattle.sw_lex.specs.Characters.{valid_ahead};
ghost use Rattle.sw_lex.specs.Matching as matching;

use crate::bytes::{Class, byte_at, has_line_end, is_in, run_len};
use crate::strings::{StringSegment, pieces};
use crate::tables::{kind_of_word, mark};
use crate::token::TokenKind;

/// What a text begins with, read inside of a string or not.
#[derive(Clone, Copy, Debug, PartialEq, Eq)]
pub enum Lexeme {
    /// The end of the source, outside of strings.
    End,
    /// White space or a comment of so many bytes.
    Gap(usize),
    /// A token of so many bytes.
    Token(TokenKind, usize),
    /// No token, or a string with a malformed piece.
    Malformed,
    /// A string or a comment that is not terminated.
    Unterminated,
}

/// The number of bytes of the comment that begins a text, if it is closed.
fn comment_len(bytes: &[u8]) -> Option<usize>
    requires { 2 ≤ length bytes.now }
    ensures value { result ≡ matching.comment_len 0 1 2 (drop 2 bytes.now) }
    ensures within { IfSome result (λ size. (1 ≤ size) × (size ≤ length bytes.now)) }
{
    let mut depth: usize = 1;
    let mut at = 2;
    while at < bytes.len() {
        if bytes[at] == b'*' && byte_at(bytes, at + 1) == b'/' {
            if depth == 1 {
                return Some(at + 2);
            }
            depth -= 1;
            at += 2;
        } else if bytes[at] == b'/' && byte_at(bytes, at + 1) == b'*' {
            depth += 1;
            at += 2;
        } else {
            at += 1;
        }
    }
    None
}

/// The comment that begins with `/*`, inside of a string or not.
fn block_comment(bytes: &[u8], inside: bool) -> Lexeme
    requires { 2 ≤ length bytes.now }
    ensures value { result ≡ matching.block_comment inside bytes.now (matching.comment_len 0 1 2 (drop 2 bytes.now)) }
    ensures within { matching.IsWithin result (length bytes.now) }
{
    match comment_len(bytes) {
        None => Lexeme::Unterminated,
        Some(size) => {
            if inside && has_line_end(&bytes[..size]) {
                Lexeme::Unterminated
            } else {
                Lexeme::Gap(size)
            }
        }
    }
}

/// The name or reserved word that begins a text.
fn named(bytes: &[u8]) -> Lexeme
    requires { is_in Class.NameStart (slice_index bytes.now 0) ≡ true }
    ensures value { result ≡ matching.named bytes.now (prefix_len (is_in Class.Name) bytes.now) }
    ensures within { matching.IsWithin result (length bytes.now) }
{
    let size = run_len(Class::Name, bytes);
    Lexeme::Token(kind_of_word(&bytes[..size]), size)
}

/// The string that begins a text with its quote.
fn quoted(bytes: &[u8], valid_so_far: bool) -> Lexeme
    requires some { 1 ≤ length bytes.now }
    requires ascii { slice_index bytes.now 0 < 128 }
    ensures value { result ≡ matching.quoted (matching.pieces 0 1 (valid_ahead valid_so_far bytes.now - 1) (drop 1 bytes.now)) }
    ensures within { matching.IsWithin result (length bytes.now) }
{
    match pieces(bytes, valid_so_far) {
        StringSegment::Closed(size) => Lexeme::Token(TokenKind::StringWhole, size),
        StringSegment::Opened(size) => Lexeme::Token(TokenKind::StringStart, size),
        StringSegment::Malformed => Lexeme::Malformed,
        StringSegment::Unterminated => Lexeme::Unterminated,
    }
}

/// The string that goes on with the `)` that begins a text.
fn resumed(bytes: &[u8], valid_so_far: bool) -> Lexeme
    requires some { 1 ≤ length bytes.now }
    requires ascii { slice_index bytes.now 0 < 128 }
    ensures value { result ≡ matching.resumed (matching.pieces 0 1 (valid_ahead valid_so_far bytes.now - 1) (drop 1 bytes.now)) }
    ensures within { matching.IsWithin result (length bytes.now) }
{
    match pieces(bytes, valid_so_far) {
        StringSegment::Closed(size) => Lexeme::Token(TokenKind::StringLast, size),
        StringSegment::Opened(size) => Lexeme::Token(TokenKind::StringMiddle, size),
        StringSegment::Malformed => Lexeme::Malformed,
        StringSegment::Unterminated => Lexeme::Unterminated,
    }
}

fn has_three_quotes(bytes: &[u8]) -> bool
    ensures { result ≡ spec.has_three_quotes bytes.now }
{
    byte_at(bytes, 0) == b'"' && byte_at(bytes, 1) == b'"' && byte_at(bytes, 2) == b'"'
}

/// What begins a text, inside of a string or not, where `)` closes a `\(` or not, and all bytes before
/// are characters or not.
#[tactic(auto, unfolding(crate::specs::Matching::first_lexeme))]
pub fn first_lexeme(bytes: &[u8], inside: bool, closes: bool, valid_so_far: bool) -> Lexeme
    ensures value { result ≡ matching.first_lexeme inside closes (valid_ahead valid_so_far bytes.now) bytes.now }
    ensures within { matching.IsWithin result (length bytes.now) }
{
    if bytes.is_empty() {
        return if inside {
            Lexeme::Unterminated
        } else {
            Lexeme::End
        };
    }
    let first = bytes[0];
    if first == b'\n' && inside {
        Lexeme::Unterminated
    } else if is_in(Class::Space, first) {
        Lexeme::Gap(1)
    } else if first == b'/' && byte_at(bytes, 1) == b'/' {
        Lexeme::Gap(run_len(Class::Line, bytes))
    } else if first == b'/' && byte_at(bytes, 1) == b'*' {
        block_comment(bytes, inside)
    } else if is_in(Class::NameStart, first) {
        named(bytes)
    } else if is_in(Class::Digit, first) {
        Lexeme::Token(TokenKind::Integer, run_len(Class::Integer, bytes))
    } else if first == b'"' {
        if has_three_quotes(bytes) {
            Lexeme::Malformed
        } else {
            quoted(bytes, valid_so_far)
        }
    } else if first == b')' && closes {
        resumed(bytes, valid_so_far)
    } else {
        mark(bytes)
    }
}

/// How many bytes it has.
pub fn size_of(lexeme: Lexeme) -> usize
    ensures value { result ≡ spec.size_of lexeme }
    ensures within { (len : ℕ) → matching.IsWithin lexeme len → result ≤ len }
{
    match lexeme {
        Lexeme::Gap(size) => size,
        Lexeme::Token(_, size) => size,
        _ => 0,
    }
}
