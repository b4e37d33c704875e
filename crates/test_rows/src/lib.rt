//! Tables of tests: rows of a source and what is wanted of it, as texts.
//!
//! A table is a text with a row on each line, `SOURCE => ANSWER`. A line that begins with `-- ` says what follows.
//! `\n`, `\r` and `\t` stand for the bytes that they stand for in Rust, `\xHH` for any byte and `\\` for one `\`.
#![tactic(auto)]

use std::alloc::Global;
use std::test::Fail;
use sw_base::Text;

/// The value of a hexadecimal digit, written in lower case.
fn digit(byte: u8) -> u8 {
    if byte <= b'9' {
        byte.saturating_sub(b'0')
    } else {
        byte.saturating_sub(b'a' - 10)
    }
}

/// The bytes that a row's text stands for.
pub fn unescaped(alloc: Global, mut text: &[u8]) -> Result<Vec<u8>, Fail> {
    let mut bytes = Vec::new(alloc);
    for _ in 0..text.len() {
        let (byte, rest) = match text {
            [] => break,
            [b'\\', b'x', high, low, rest @ ..] => {
                (digit(*high).wrapping_mul(16) | digit(*low), rest)
            }
            [b'\\', b'n', rest @ ..] => (b'\n', rest),
            [b'\\', b'r', rest @ ..] => (b'\r', rest),
            [b'\\', b't', rest @ ..] => (b'\t', rest),
            [b'\\', b'\\', rest @ ..] => (b'\\', rest),
            [byte, rest @ ..] => (*byte, rest),
        };
        bytes.push(byte)?;
        text = rest;
    }
    Ok(bytes)
}

/// How many rows are answered as they say, and the first that is not.
pub fn check_rows<'a, F: Fn(Global, &[u8]) -> Result<Text, Fail>>(
    alloc: Global,
    rows: &'a str,
    answer: F,
) -> Result<(u64, Option<&'a str>), Fail>
    requires { F.IsAlwaysCallable answer }
{
    let mut right: u64 = 0;
    for row in rows.lines() {
        if row.starts_with("-- ") {
            continue;
        }
        if let Some((source, wanted)) = row.split_once(" => ") {
            let source = unescaped(alloc, source.as_bytes())?;
            let wanted = unescaped(alloc, wanted.as_bytes())?;
            let found = answer(alloc, source.as_slice())?;
            if found.as_bytes() != wanted.as_slice() {
                return Ok((right, Some(row)));
            }
            right = right.saturating_add(1);
        }
    }
    Ok((right, None))
}
