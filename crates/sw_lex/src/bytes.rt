//! Classes of bytes, and runs of them.

ghost use Rattle.std.specs.Prelude.{◌≡◌, ◌≢◌, ◌<◌, ◌≤◌, length, slice_index, true};
ghost use Rattle.std.specs.List.{prefix_len};
ghost use Rattle.sw_lex.specs.Bytes.{has_line_end, is_in};
ghost use Rattle.sw_lex.specs.Cut.{IsValidPrefix};

/// A class of bytes that tokens are made of.
#[derive(Clone, Copy, Debug, PartialEq, Eq)]
pub enum Class {
    /// White space: space, tab, CR and LF.
    Space,
    /// What a name begins with.
    NameStart,
    /// What a name goes on with.
    Name,
    /// What an integer begins with.
    Digit,
    /// What an integer goes on with.
    Integer,
    /// What stands in a comment to the line's end.
    Line,
    /// A hexadecimal digit.
    Hex,
}

/// Whether a byte is of a class.
pub fn is_in(class: Class, byte: u8) -> bool
    ensures { result ≡ is_in class byte }
{
    match class {
        Class::Space => byte == b' ' || byte == b'\t' || byte == b'\r' || byte == b'\n',
        Class::NameStart => byte.is_ascii_alphabetic() || byte == b'_',
        Class::Name => byte.is_ascii_alphabetic() || byte.is_ascii_digit() || byte == b'_',
        Class::Digit => byte.is_ascii_digit(),
        Class::Integer => byte.is_ascii_digit() || byte == b'_',
        Class::Line => !(byte == b'\n'),
        Class::Hex => byte.is_ascii_hexdigit(),
    }
}

/// The byte at an index; 0 past the end.
pub fn byte_at(bytes: &[u8], at: usize) -> u8
    ensures value { result ≡ slice_index bytes.now at }
    ensures within { result ≢ 0 → at < length bytes.now }
{
    if at < bytes.len() { bytes[at] } else { 0 }
}

/// How many bytes of a class a text begins with.
pub fn run_len(class: Class, bytes: &[u8]) -> usize
    ensures value { result ≡ prefix_len (is_in class) bytes.now }
    ensures within { result ≤ length bytes.now }
    ensures moves { is_in class (slice_index bytes.now 0) ≡ true → 0 < length bytes.now → 0 < result }
{
    let mut end = 0;
    while end < bytes.len() && is_in(class, bytes[end]) {
        end += 1;
    }
    end
}

/// Whether a line ends in a text.
pub fn has_line_end(bytes: &[u8]) -> bool
    ensures { result ≡ has_line_end bytes.now }
{
    bytes.contains(&b'\n')
}

/// The length of the longest prefix that is UTF-8.
pub fn valid_len(source: &[u8]) -> usize
    ensures { IsValidPrefix source.now result }
{
    match str::from_utf8(source) {
        Ok(_) => source.len(),
        Err(error) => error.valid_up_to(),
    }
}
