//! The names and the plain texts of thin trees.

ghost use Rattle.std.specs.Prelude.{◌≡◌, ◌↔◌, ◌≤◌, ◌++◌, length, IfOk, IsTrue};
ghost use Rattle.std.specs.Char.{is_ascii_digit};
ghost use Rattle.sw_base.specs.Limits.{longest_source};
ghost use Rattle.sw_thin.specs.ProgramView.{stmt_of};
ghost use Rattle.sw_thin.specs.Thin.{is_plain, IsPlain, name_of, IsName};
ghost use Rattle.sw_thin.specs.TreeReading.{Stops, IsDigits, number_from, lets_after};

use crate::program::Stmt;
use std::alloc::Global;
use sw_base::{NoMemory, Text};

const MOST_DIGITS: usize = 9;

fn is_plain(c: u8) -> bool
    ensures { result ≡ is_plain c }
{
    c >= b' ' && c <= b'~' && c != b'"' && c != b'\\'
}

/// Tells whether a text is of the characters that a thin tree may have in a string.
pub fn is_plain_text(text: &[u8]) -> bool
    ensures { IsTrue result ↔ IsPlain text.now }
{
    for c in text {
        if !is_plain(*c) {
            return false;
        }
    }
    true
}

/// The longest prefix of digits, and the rest.
fn digits_prefix(bytes: &[u8]) -> (&[u8], &[u8])
    ensures whole { bytes.now ≡ result.0.now ++ result.1.now }
    ensures digits { IsDigits result.0.now }
    ensures stops { Stops is_ascii_digit result.1.now }
{
    for (i, c) in bytes.iter().enumerate() {
        if !c.is_ascii_digit() {
            return bytes.split_at(i);
        }
    }
    (bytes, &[])
}

/// The number that digits write.
fn number_of(digits: &[u8]) -> u32
    requires digits { IsDigits digits.now }
    requires few { length digits.now ≤ 9 }
    ensures { result ≡ number_from 0 digits.now }
{
    let mut number = 0;
    for c in digits {
        number = 10 * number + u32::from(*c - b'0');
    }
    number
}

/// Tells whether one of the first `lets` variables has this name: `v`, and its number without needless zeros.
pub fn is_name(what: &[u8], lets: usize) -> bool
    requires small { lets ≤ longest_source }
    ensures { IsTrue result ↔ IsName lets what.now }
{
    let Some(digits) = what.strip_prefix(b"v") else {
        return false;
    };
    let (digits, rest) = digits_prefix(digits);
    if !rest.is_empty() || digits.is_empty() || digits.len() > MOST_DIGITS {
        return false;
    }
    if digits[0] == b'0' && digits.len() > 1 {
        return false;
    }
    (number_of(digits) as usize) < lets
}

/// The name of the variable that a `let` statement declares after so many others.
pub fn variable_name(alloc: Global, lets: usize) -> Result<Text, NoMemory>
    ensures { IfOk result (λ name. name ≡ name_of lets) }
{
    let mut name = Text::from_bytes(alloc, b"v")?;
    name.push_all(lets.to_string(alloc)?.as_bytes())?;
    Ok(name)
}

/// How many `let` statements there are with this one.
pub fn lets_with(lets: usize, stmt: &Stmt) -> usize
    requires small { lets ≤ longest_source }
    ensures { result ≡ lets_after lets (stmt_of stmt.now) }
{
    match stmt {
        Stmt::Let(_, _) => lets + 1,
        Stmt::Print(_) => lets,
    }
}
