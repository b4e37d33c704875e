//! Rows that were written from the rules of the language alone: those of tokens and the grammar by somebody who saw neither
//! the definitions nor the code, those of names before the program was run on them.

mod names;
mod rows;

use crate::tests::{Files, PLAN, RUN, answer, call_over};
use names::NAMED;
use rows::{BODIES, SOURCES};
use std::alloc::Global;
use std::test::Fail;
use sw_base::Text;
use test_rows::check_rows;

/// The rule that a source breaks first, and its place, as the rows write them; `named` where it breaks none that a pass
/// looks for.
fn first_answer(alloc: Global, source: &[u8]) -> Result<Text, Fail> {
    let files: Files = &[(b"file", source), (b"plan", PLAN)];
    let (code, sink) = answer(alloc, call_over(RUN, files))?;
    match (code, sink.taken()) {
        (11, b"not built\n") => Ok(Text::from_bytes(alloc, b"named")?),
        (
            1,
            [
                b'r',
                b'e',
                b'f',
                b'u',
                b's',
                b'e',
                b'd',
                b' ',
                what @ ..,
                b'\n',
            ],
        ) => { Ok(Text::from_bytes(alloc, what)?) }
        (_, taken) => Ok(Text::from_bytes(alloc, taken)?),
    }
}

/// The rule of tokens or of the grammar that a source breaks first, and its place; `none` where it breaks none. Nobody who
/// wrote a row of these cared for names, so that a rule of names counts as none.
fn source_answer(alloc: Global, source: &[u8]) -> Result<Text, Fail> {
    let found = first_answer(alloc, source)?;
    match found.as_bytes() {
        b"named" | [b'N', ..] => Ok(Text::from_bytes(alloc, b"none")?),
        _ => Ok(found),
    }
}

/// The same of a body, which stands in a func.
fn body_answer(alloc: Global, body: &[u8]) -> Result<Text, Fail> {
    let mut source = Text::from_bytes(alloc, b"func f() { ")?;
    source.push_all(body)?;
    source.push_all(b" }")?;
    source_answer(alloc, source.as_bytes())
}

#[test]
fn each_body_is_answered(rt: HostRuntime) -> Result<(), Fail> {
    let (right, wrong) = check_rows(rt.alloc(), BODIES, body_answer)?;
    assert_eq!(rt; wrong, None);
    assert_eq!(rt; right, 255);
    Ok(())
}

#[test]
fn each_source_is_answered(rt: HostRuntime) -> Result<(), Fail> {
    let (right, wrong) = check_rows(rt.alloc(), SOURCES, source_answer)?;
    assert_eq!(rt; wrong, None);
    assert_eq!(rt; right, 202);
    Ok(())
}

#[test]
fn each_name_is_answered(rt: HostRuntime) -> Result<(), Fail> {
    let (right, wrong) = check_rows(rt.alloc(), NAMED, first_answer)?;
    assert_eq!(rt; wrong, None);
    assert_eq!(rt; right, 135);
    Ok(())
}
