//! Places in a source.

ghost use Rattle.std.specs.Prelude.{◌≡◌, ◌≤◌, ◌<◌, ◌+◌, ◌^◌, length};
ghost use Rattle.sw_lex.specs.Tokens as spec;
ghost use Rattle.sw_lex.specs.Scanning as scanning;

use sw_base::Span;

/// Where a source begins.
pub const ORIGIN: Span = Span { line: 1, column: 1 };

/// A byte of a source, by its offset and by its place.
#[derive(Clone, Copy, Debug, PartialEq, Eq)]
pub struct Spot {
    pub at: usize,
    pub place: Span,
}

/// The place after one byte.
pub fn after_byte(place: Span, byte: u8) -> Span
    requires line { place.line + 1 < 2 ^ 32 }
    requires column { place.column + 1 < 2 ^ 32 }
    ensures { result ≡ spec.after_byte place byte }
{
    if byte == b'\n' {
        Span {
            line: place.line + 1,
            column: 1,
        }
    } else {
        Span {
            line: place.line,
            column: place.column + 1,
        }
    }
}

/// The place after some bytes.
pub fn moved(mut place: Span, bytes: &[u8]) -> Span
    requires lines { place.line + length bytes.now < 2 ^ 32 }
    requires columns { place.column + length bytes.now < 2 ^ 32 }
    ensures value { result ≡ spec.moved place bytes.now }
    ensures line { result.line ≤ place.line + length bytes.now }
    ensures column { result.column ≤ place.column + length bytes.now }
{
    for byte in bytes {
        place = after_byte(place, *byte);
    }
    place
}

/// One column after the last byte, if there is one, by its place.
pub fn end_place(size: usize, last: Span) -> Span
    requires { 0 < size → last.column + 1 < 2 ^ 32 }
    ensures { result ≡ scanning.end_of size last }
{
    if size == 0 {
        return ORIGIN;
    }
    Span {
        line: last.line,
        column: last.column + 1,
    }
}
