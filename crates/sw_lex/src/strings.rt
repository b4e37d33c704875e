//! The pieces of strings: where they end, and what they stand for.

ghost use Rattle.std.specs.Prelude.{◌≡◌, ◌≤◌, ◌<◌, ◌+◌, ◌-◌, ◌^◌, ◌++◌, IfOk, OnOk, drop, length, min, slice_index, true};
ghost use Rattle.sw_lex.specs.Strings as spec;
ghost use Rattle.sw_lex.specs.Characters.{valid_ahead};
ghost use Rattle.sw_lex.specs.Matching as matching;

use crate::bytes::{Class, byte_at, run_len, valid_len};
use std::alloc::Global;
use sw_base::{NoMemory, Text};

/// What a string goes on with.
#[derive(Clone, Copy, Debug, PartialEq, Eq)]
pub enum Piece {
    /// A piece of so many bytes that stands for text.
    Plain(usize),
    /// The closing quote.
    Quote,
    /// `\(`
    Open,
    /// Nothing that a string may have.
    Invalid,
    /// The end of the line or of the source.
    LineEnd,
}

/// The pieces of a string, up to where they end.
#[derive(Clone, Copy, Debug, PartialEq, Eq)]
pub enum StringSegment {
    /// So many bytes, with the closing quote.
    Closed(usize),
    /// So many bytes, with the `\(` after them.
    Opened(usize),
    /// A malformed piece comes next.
    Malformed,
    /// The line or the source ends before the closing quote.
    Unterminated,
}

fn hex_digit(byte: u8) -> u8
    ensures { result ≡ spec.hex_digit byte }
{
    if byte.is_ascii_digit() {
        byte.saturating_sub(48)
    } else if byte <= 70 {
        byte.saturating_sub(55)
    } else {
        byte.saturating_sub(87)
    }
}

/// The number of hexadecimal digits, or the first above the scalar values where that is less.
fn hex_number(digits: &[u8]) -> u32
    ensures { result ≡ min (spec.hex_number 0 digits.now) 1114112 }
{
    let mut number: u32 = 0;
    for digit in digits {
        number = (number * 16 + hex_digit(*digit) as u32).min(1114112);
    }
    number
}

fn is_scalar(number: u32) -> bool
    ensures { result ≡ spec.is_scalar number }
{
    number < 55296 || (57344 <= number && number < 1114112)
}

/// The piece whose first three bytes are `\u{`, by the bytes after them.
#[tactic(auto, using(crate::proofs::HexLemmas::scalar_least))]
fn unicode(bytes: &[u8]) -> Piece
    ensures value { result ≡ matching.unicode bytes.now }
    ensures within { matching.IsPieceWithin result (3 + length bytes.now) }
{
    let digits = run_len(Class::Hex, bytes);
    if digits < 1 {
        return Piece::Invalid;
    }
    if 8 < digits {
        return Piece::Invalid;
    }
    if byte_at(bytes, digits) != b'}' {
        return Piece::Invalid;
    }
    if is_scalar(hex_number(&bytes[..digits])) {
        Piece::Plain(digits + 4)
    } else {
        Piece::Invalid
    }
}

/// The piece whose first byte is `\`, by the bytes after it.
fn escape(bytes: &[u8]) -> Piece
    ensures value { result ≡ matching.escape bytes.now }
    ensures within { matching.IsPieceWithin result (1 + length bytes.now) }
{
    match byte_at(bytes, 0) {
        b'(' => Piece::Open,
        b'n' | b'r' | b't' | b'0' | b'"' | b'\'' | b'\\' => Piece::Plain(2),
        b'u' if byte_at(bytes, 1) == b'{' => unicode(&bytes[2..]),
        _ => Piece::Invalid,
    }
}

/// How many bytes a text begins with that are not of ASCII.
fn high_len(bytes: &[u8]) -> usize
    ensures value { result ≡ matching.high_len bytes.now }
    ensures within { result ≤ length bytes.now }
{
    let mut end = 0;
    while end < bytes.len() && 128 <= bytes[end] {
        end += 1;
    }
    end
}

/// The characters that begin a text, up to the next byte of ASCII, where all bytes before are characters
/// or not.
fn characters(bytes: &[u8], valid_so_far: bool) -> Piece
    requires some { 0 < length bytes.now }
    requires high { 128 ≤ slice_index bytes.now 0 }
    ensures value { matching.GoesOn (valid_ahead valid_so_far bytes.now) bytes.now result }
    ensures within { matching.IsPieceWithin result (length bytes.now) }
    ensures valid { valid_so_far ≡ true → matching.IsValidPiece bytes.now result }
{
    if !valid_so_far {
        return Piece::Invalid;
    }
    let valid = valid_len(&bytes[..high_len(bytes)]);
    if valid == 0 {
        Piece::Invalid
    } else {
        Piece::Plain(valid)
    }
}

/// The piece that begins a text, where all bytes before are characters or not. Characters beyond ASCII
/// that follow each other are taken as one.
fn piece_at(bytes: &[u8], valid_so_far: bool) -> Piece
    ensures value { matching.GoesOn (valid_ahead valid_so_far bytes.now) bytes.now result }
    ensures within { matching.IsPieceWithin result (length bytes.now) }
    ensures valid { valid_so_far ≡ true → matching.IsValidPiece bytes.now result }
{
    match bytes {
        [] => Piece::LineEnd,
        [byte, rest @ ..] => match *byte {
            b'"' => Piece::Quote,
            b'\n' => Piece::LineEnd,
            b'\r' => Piece::Invalid,
            b'\\' => escape(rest),
            byte if 128 <= byte => characters(bytes, valid_so_far),
            _ => Piece::Plain(1),
        },
    }
}

/// The pieces after the first byte, which is of ASCII, where all bytes before are characters or not.
pub fn pieces(bytes: &[u8], valid_so_far: bool) -> StringSegment
    requires some { 1 ≤ length bytes.now }
    requires ascii { slice_index bytes.now 0 < 128 }
    ensures value { result ≡ matching.pieces 0 1 (valid_ahead valid_so_far bytes.now - 1) (drop 1 bytes.now) }
    ensures within { matching.IsSegmentWithin result (length bytes.now) }
{
    let mut at = 1;
    // the proof gives the loop's invariant by this label
    'pieces: loop {
        match piece_at(&bytes[at..], valid_so_far) {
            Piece::Plain(size) => at += size,
            Piece::Quote => return StringSegment::Closed(at + 1),
            Piece::Open => return StringSegment::Opened(at + 2),
            Piece::Invalid => return StringSegment::Malformed,
            Piece::LineEnd => return StringSegment::Unterminated,
        }
    }
}

fn escaped(letter: u8) -> u8
    ensures { result ≡ spec.escaped letter }
{
    match letter {
        b'n' => b'\n',
        b'r' => b'\r',
        b't' => b'\t',
        b'0' => 0,
        _ => letter,
    }
}

fn push_scalar(out: &mut Vec<u8>, number: u32) -> Result<(), NoMemory>
    ensures { OnOk result (out.new.items ≡ out.old.items ++ matching.scalar_text number) }
{
    if !is_scalar(number) {
        return Ok(());
    }
    match char::from_u32(number) {
        None => Ok(()),
        Some(character) => {
            let mut buffer = [0u8; 4];
            let text = character.encode_utf8(&mut buffer);
            out.extend_from_slice(text.as_bytes())?;
            Ok(())
        }
    }
}

fn from_third(bytes: &[u8]) -> &[u8]
    ensures { result.now ≡ drop 3 bytes.now }
{
    if bytes.len() < 3 { &[] } else { &bytes[3..] }
}

/// Adds what the plain piece stands for that begins a text.
#[tactic(auto, using(crate::proofs::HexLemmas::scalar_text_least))]
fn push_piece_text(out: &mut Vec<u8>, bytes: &[u8]) -> Result<(), NoMemory>
    ensures { OnOk result (out.new.items ≡ out.old.items ++ matching.piece_text bytes.now) }
{
    if byte_at(bytes, 0) == b'\\' {
        if byte_at(bytes, 1) == b'u' {
            let digits = from_third(bytes);
            return push_scalar(out, hex_number(&digits[..run_len(Class::Hex, digits)]));
        }
        out.push(escaped(byte_at(bytes, 1)))?;
        return Ok(());
    }
    out.push(byte_at(bytes, 0))?;
    Ok(())
}

/// How many bytes that piece has.
fn piece_len(bytes: &[u8]) -> usize
    ensures value { result ≡ matching.piece_len bytes.now }
    ensures some { 1 ≤ result }
    ensures near { result ≤ length bytes.now + 4 }
{
    if byte_at(bytes, 0) == b'\\' {
        if byte_at(bytes, 1) == b'u' {
            return run_len(Class::Hex, from_third(bytes)) + 4;
        }
        return 2;
    }
    1
}

/// The text that plain pieces stand for.
pub fn decoded(alloc: Global, bytes: &[u8]) -> Result<Text, NoMemory>
    requires { length bytes.now < 2 ^ 62 }
    ensures { IfOk result (λ text. text ≡ matching.decoded 0 bytes.now) }
{
    let mut out = Vec::new(alloc);
    let mut at = 0;
    while at < bytes.len() {
        push_piece_text(&mut out, &bytes[at..])?;
        at += piece_len(&bytes[at..]);
    }
    Text::from_vec(alloc, out)
}
