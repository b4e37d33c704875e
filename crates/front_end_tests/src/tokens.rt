//! Sources cut by hand, from the words that say what a token is and which rules come first: no contract says
//! that memory is there, nor that the definitions say what was meant.

mod rows;

use rows::ROWS;
use std::alloc::Global;
use std::test::Fail;
use sw_base::{LONGEST_SOURCE, Span, Text};
use sw_lex::{Tokens, lex};
use sw_rules::{FrontError, Refusal};
use test_rows::check_rows;

fn flag(is_set: bool, letter: char) -> char {
    if is_set { letter } else { '-' }
}

/// Tokens as the rows write them.
fn written(alloc: Global, tokens: &Tokens) -> Result<Text, Fail> {
    let mut text = Text::from_bytes(alloc, b"")?;
    for at in 0..tokens.len() {
        let Some(token) = tokens.get(at) else {
            break;
        };
        if !text.as_bytes().is_empty() {
            text.push_all(b", ")?;
        }
        let kind = format!(in alloc; "{:?} \"", token.kind)?;
        text.push_all(kind.as_bytes())?;
        text.push_all(token.text.as_bytes())?;
        let first = flag(token.first_on_line, 'F');
        let touches = flag(token.touches, 'T');
        let space = flag(token.after_space, 'S');
        let Span { line, column } = token.span;
        let place = format!(in alloc; "\" {line}:{column} {first}{touches}{space}")?;
        text.push_all(place.as_bytes())?;
    }
    Ok(text)
}

/// What becomes of a source, as the rows write it.
fn answer(alloc: Global, source: &[u8]) -> Result<Text, Fail> {
    match lex(alloc, source) {
        Ok(tokens) => written(alloc, &tokens),
        Err(FrontError::Refused(Refusal { rule, span })) => {
            let text = format!(in alloc; "refused {rule:?} {}:{}", span.line, span.column)?;
            Ok(Text::from_bytes(alloc, text.as_bytes())?)
        }
        Err(FrontError::NoMemory) => Ok(Text::from_bytes(alloc, b"no memory")?),
    }
}

/// One byte, then so many others.
fn long(alloc: Global, first: u8, other: u8, others: usize) -> Result<Vec<u8>, Fail> {
    let mut source = vec![in alloc; first]?;
    for _ in 0..others {
        source.push(other)?;
    }
    Ok(source)
}

fn is_long_answered(
    alloc: Global,
    first: u8,
    other: u8,
    others: usize,
    wanted: &str,
) -> Result<bool, Fail> {
    let source = long(alloc, first, other, others)?;
    Ok(answer(alloc, source.as_slice())?.as_bytes() == wanted.as_bytes())
}

#[test]
fn each_row_is_answered(rt: HostRuntime) -> Result<(), Fail> {
    let (right, wrong) = check_rows(rt.alloc(), ROWS, answer)?;
    assert_eq!(rt; wrong, None);
    assert_eq!(rt; right, 443);
    Ok(())
}

#[test]
fn a_source_may_have_1048576_bytes(rt: HostRuntime) -> Result<(), Fail> {
    let alloc = rt.alloc();
    let most = LONGEST_SOURCE;
    assert!(rt; is_long_answered(alloc, b' ', b' ', most - 1, "End \"\" 1:1048577 F-S")?);
    let wanted = "Name \"a\" 1:1 F--, End \"\" 1048575:2 F-S";
    assert!(rt; is_long_answered(alloc, b'a', b'\n', most - 1, wanted)?);
    assert!(rt; is_long_answered(alloc, b'a', b'\n', most, "refused L5 1:1")?);
    assert!(rt; is_long_answered(alloc, b'\xff', b' ', most, "refused L1 1:1")?);
    assert!(rt; is_long_answered(alloc, b'#', b' ', most, "refused L2 1:1")?);
    assert!(rt; is_long_answered(alloc, b'"', b' ', most, "refused L3 1:1")?);
    assert!(rt; is_long_answered(alloc, b' ', b'#', most, "refused L5 1:1")?);
    Ok(())
}

/// Some bytes, then more spaces than a source may have bytes.
fn is_padded_answered(alloc: Global, first: &[u8], wanted: &str) -> Result<bool, Fail> {
    let mut source = Vec::new(alloc);
    source.extend_from_slice(first)?;
    for _ in 0..LONGEST_SOURCE + 1 {
        source.push(b' ')?;
    }
    Ok(answer(alloc, source.as_slice())?.as_bytes() == wanted.as_bytes())
}

#[test]
fn a_longer_source_is_answered_at_its_first_byte(rt: HostRuntime) -> Result<(), Fail> {
    let alloc = rt.alloc();
    assert!(rt; is_padded_answered(alloc, b" ", "refused L5 1:1")?);
    assert!(rt; is_padded_answered(alloc, b"\xff", "refused L1 1:1")?);
    assert!(rt; is_padded_answered(alloc, b"\xe2\x82", "refused L1 1:1")?);
    assert!(rt; is_padded_answered(alloc, b"\xe2\x82\xac", "refused L2 1:1")?);
    assert!(rt; is_padded_answered(alloc, b"a \xff \\", "refused L5 1:1")?);
    assert!(rt; is_padded_answered(alloc, b"\"\\q\"", "refused L2 1:1")?);
    assert!(rt; is_padded_answered(alloc, b"\"a\xff\"", "refused L2 1:1")?);
    assert!(rt; is_padded_answered(alloc, b"\"\\(a)\\q\"", "refused L2 1:1")?);
    assert!(rt; is_padded_answered(alloc, b"\"\\(/*\xff*/a)b\" \\", "refused L5 1:1")?);
    assert!(rt; is_padded_answered(alloc, b"/* /* */", "refused L3 1:1")?);
    assert!(rt; is_padded_answered(alloc, b"/* */ /*", "refused L5 1:1")?);
    assert!(rt; is_padded_answered(alloc, b"\"\\(a", "refused L3 1:1")?);
    assert!(rt; is_padded_answered(alloc, b"\"\\(\"\\(a)\" (\n", "refused L3 1:1")?);
    assert!(rt; is_padded_answered(alloc, b"\"\\(9223372036854775808)\" \"", "refused L5 1:1")?);
    assert!(rt; is_padded_answered(alloc, b"9223372036854775808", "refused L4 1:1")?);
    assert!(rt; is_padded_answered(alloc, b"9223372036854775807 \\", "refused L5 1:1")?);
    assert!(rt; is_padded_answered(alloc, b"-9223372036854775808", "refused L5 1:1")?);
    Ok(())
}
