//! The tokens of a source, each written as the source is cut.

ghost use Rattle.std.specs.Prelude.{◌≡◌, ◌≤◌, ◌<◌, ◌+◌, ◌^◌, ◌++◌, [], ◌∷◌, IfOk, OnOk, drop, length, take};
ghost use Rattle.sw_lex.specs.Matching.{decoded};
ghost use Rattle.sw_lex.specs.Lexemes.{size_of};
ghost use Rattle.sw_lex.specs.Tokens as spec;
ghost use Rattle.sw_lex.specs.Emitted as emitted;
ghost use Rattle.sw_lex.specs.Scanning as scanning;

use crate::bytes::{Class, byte_at, is_in};
use crate::kept::KeptTokens;
use crate::lexemes::{Lexeme, size_of};
use crate::places::{ORIGIN, after_byte, end_place, moved};
use crate::strings::decoded;
use crate::token::{Token, TokenKind};
use std::alloc::Global;
use sw_base::{NoMemory, Span, Text};

/// What a token takes from what stands before it.
#[derive(Clone, Copy, Debug, PartialEq, Eq)]
pub struct Here {
    /// Its place.
    pub place: Span,
    /// The line of the last token before it, or 0 where there is none.
    pub last_line: u32,
    /// That token ends here.
    pub touching: bool,
    /// White space ends here.
    pub spaced: bool,
}

/// The tokens that are written of a source so far.
#[derive(Debug, Drop)]
pub struct TokenWriter {
    pub tokens: KeptTokens,
    /// What the next token takes from them.
    pub here: Here,
    /// The place of the last byte so far, if there is one.
    pub last: Span,
}

/// The text of a string's pieces, without its first byte and its last bytes.
fn inner(alloc: Global, bytes: &[u8], marks: usize) -> Result<Text, NoMemory>
    requires few { marks ≤ 2 }
    requires short { length bytes.now < 2 ^ 62 }
    ensures { IfOk result (λ text. text ≡ decoded 0 (emitted.within marks bytes.now)) }
{
    if bytes.len() < marks + 1 {
        return decoded(alloc, &[]);
    }
    decoded(alloc, &bytes[1..bytes.len() - marks])
}

fn text_of(alloc: Global, kind: TokenKind, bytes: &[u8]) -> Result<Text, NoMemory>
    requires { length bytes.now < 2 ^ 62 }
    ensures { IfOk result (λ text. text ≡ emitted.token_text kind bytes.now) }
{
    match kind {
        TokenKind::StringWhole => inner(alloc, bytes, 1),
        TokenKind::StringStart => inner(alloc, bytes, 2),
        TokenKind::StringMiddle => inner(alloc, bytes, 2),
        TokenKind::StringLast => inner(alloc, bytes, 1),
        _ => Text::from_bytes(alloc, bytes),
    }
}

/// A token at a place, with what it takes from what stands before it.
fn token_at(place: Span, here: Here, kind: TokenKind, text: Text) -> Token
    ensures { result ≡ spec.token_at place here kind text }
{
    Token {
        kind,
        text,
        span: place,
        first_on_line: here.last_line != place.line,
        touches: here.touching,
        after_space: here.spaced,
    }
}

/// Writes the token that begins a text, if one does, and gives what the next one takes from it. `next` is
/// the place after the lexeme.
fn emit(
    alloc: Global,
    tokens: &mut KeptTokens,
    here: Here,
    next: Span,
    bytes: &[u8],
    item: Lexeme,
) -> Result<Here, NoMemory>
    requires within { size_of item ≤ length bytes.now }
    requires short { length bytes.now < 2 ^ 62 }
    requires next { next ≡ spec.moved here.place (take (size_of item) bytes.now) }
    ensures tokens { OnOk result (tokens.new ≡ tokens.old ++ emitted.emission here bytes.now item) }
    ensures here { IfOk result (λ next. next ≡ spec.here_after here bytes.now item) }
{
    match item {
        Lexeme::Gap(_) => Ok(Here {
            place: next,
            last_line: here.last_line,
            touching: false,
            spaced: is_in(Class::Space, byte_at(bytes, 0)),
        }),
        Lexeme::Token(kind, size) => {
            let text = text_of(alloc, kind, &bytes[..size])?;
            tokens.push(token_at(here.place, here, kind, text))?;
            Ok(Here {
                place: next,
                last_line: here.place.line,
                touching: true,
                spaced: false,
            })
        }
        _ => Ok(here),
    }
}

impl TokenWriter {
    /// No token is written yet.
    pub fn new(alloc: Global) -> TokenWriter
        ensures { result ≡ scanning.new_writer }
    {
        TokenWriter {
            tokens: KeptTokens::new(alloc),
            here: Here {
                place: ORIGIN,
                last_line: 0,
                touching: false,
                spaced: false,
            },
            last: ORIGIN,
        }
    }

    /// Goes on to the end of the gap or token that begins the bytes, and writes the token.
    pub fn write(&mut self, alloc: Global, bytes: &[u8], item: Lexeme) -> Result<(), NoMemory>
        requires some { 1 ≤ size_of item }
        requires within { size_of item ≤ length bytes.now }
        requires lines { self.old.here.place.line + length bytes.now < 2 ^ 32 }
        requires columns { self.old.here.place.column + length bytes.now < 2 ^ 32 }
        ensures { OnOk result (self.new ≡ scanning.writer_after self.old bytes.now item) }
    {
        let size = size_of(item);
        let last = moved(self.here.place, &bytes[..size - 1]);
        let next = after_byte(last, bytes[size - 1]);
        let here = emit(alloc, &mut self.tokens, self.here, next, bytes, item)?;
        self.here = here;
        self.last = last;
        Ok(())
    }

    /// The tokens, and one for the end of the source, which has so many bytes.
    pub fn ended(self, alloc: Global, size: usize) -> Result<KeptTokens, NoMemory>
        requires { 0 < size → self.last.column + 1 < 2 ^ 32 }
        ensures { IfOk result (λ tokens. tokens ≡ self.tokens
            ++ spec.token_at (scanning.end_of size self.last) self.here TokenKind.End [] ∷ []) }
    {
        let end = end_place(size, self.last);
        let text = Text::from_bytes(alloc, &[])?;
        let mut tokens = self.tokens;
        tokens.push(token_at(end, self.here, TokenKind::End, text))?;
        Ok(tokens)
    }
}
