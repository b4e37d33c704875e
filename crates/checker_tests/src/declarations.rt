//! Declarations, with the first rule that one of them breaks which asks no type of a property.

mod rows;

use rows::ROWS;
use std::alloc::Global;
use std::test::Fail;
use sw_base::{NoMemory, Text};
use sw_check_decl::report_declaration;
use sw_declared::{Names, declare, members_in};
use sw_findings::Findings;
use sw_lex::lex;
use sw_parse_decl::parse;
use sw_rules::Refusal;
use sw_tree::{Decl, Tree};
use test_rows::check_rows;

fn report(alloc: Global, found: &mut Findings, names: &Names, decl: &Decl) -> Result<(), NoMemory> {
    match members_in(alloc, decl) {
        Ok(own) => {
            report_declaration(found, names, &own, decl);
            Ok(())
        }
        Err(error) => Err(error),
    }
}

fn report_all(
    alloc: Global,
    found: &mut Findings,
    names: &Names,
    tree: &Tree,
) -> Result<(), NoMemory> {
    for decl in tree.decls.as_slice() {
        report(alloc, found, names, decl)?;
    }
    Ok(())
}

fn with_names(alloc: Global, names: &Names, tree: &Tree) -> Result<Option<Refusal>, NoMemory> {
    let mut found = Findings::new();
    report_all(alloc, &mut found, names, tree)?;
    Ok(found.first())
}

fn first_broken(alloc: Global, tree: &Tree) -> Result<Option<Refusal>, NoMemory> {
    match declare(alloc, tree) {
        Ok(names) => with_names(alloc, &names, tree),
        Err(error) => Err(error),
    }
}

fn told(alloc: Global, source: &[u8]) -> Result<Text, Fail> {
    let tokens = lex(alloc, source)?;
    let tree = parse(alloc, &tokens)?;
    match first_broken(alloc, &tree)? {
        Some(Refusal { rule, span }) => {
            let text = format!(in alloc; "{rule:?} {}:{}", span.line, span.column)?;
            Ok(Text::from_bytes(alloc, text.as_bytes())?)
        }
        None => Ok(Text::from_bytes(alloc, b"accepted")?),
    }
}

/// A source with so many of the same between its two ends.
fn repeated(
    alloc: Global,
    first: &[u8],
    each: &[u8],
    count: u64,
    last: &[u8],
) -> Result<Text, NoMemory> {
    let mut text = Text::from_bytes(alloc, first)?;
    for _ in 0..count {
        text.push_all(each)?;
    }
    text.push_all(last)?;
    Ok(text)
}

/// What is told where there are 255 of them, and where there are 256.
fn at_the_limit(
    alloc: Global,
    first: &[u8],
    each: &[u8],
    last: &[u8],
) -> Result<(Text, Text), Fail> {
    let most = repeated(alloc, first, each, 255, last)?;
    let more = repeated(alloc, first, each, 256, last)?;
    Ok((told(alloc, most.as_bytes())?, told(alloc, more.as_bytes())?))
}

#[test]
fn each_declaration_is_told(rt: HostRuntime) -> Result<(), Fail> {
    let (right, wrong) = check_rows(rt.alloc(), ROWS, told)?;
    assert_eq!(rt; wrong, None);
    assert_eq!(rt; right, 122);
    Ok(())
}

/// The members of a protocol are its requirements. Names declared twice are another pass's business.
#[test]
fn the_first_of_too_many_is_told(rt: HostRuntime) -> Result<(), Fail> {
    let alloc = rt.alloc();
    let accepted = Text::from_bytes(alloc, b"accepted")?;
    let (most, more) = at_the_limit(alloc, b"struct S {\n", b"  let a = 0\n", b"}\n")?;
    assert_eq!(rt; most, accepted);
    assert_eq!(rt; more, Text::from_bytes(alloc, b"T8 257:7")?);
    let (most, more) = at_the_limit(alloc, b"enum E {\n", b"  case a\n", b"}\n")?;
    assert_eq!(rt; most, accepted);
    assert_eq!(rt; more, Text::from_bytes(alloc, b"T8 257:8")?);
    let (most, more) = at_the_limit(alloc, b"protocol P {\n", b"  func r()\n", b"}\n")?;
    assert_eq!(rt; most, accepted);
    assert_eq!(rt; more, Text::from_bytes(alloc, b"T8 257:8")?);
    Ok(())
}

#[test]
fn the_first_part_too_many_is_told(rt: HostRuntime) -> Result<(), Fail> {
    let alloc = rt.alloc();
    let accepted = Text::from_bytes(alloc, b"accepted")?;
    let (less, most) = at_the_limit(alloc, b"enum E { case c(", b"a: Int, ", b"Int) }\n")?;
    assert_eq!(rt; less, Text::from_bytes(alloc, b"T8 1:2057")?);
    assert_eq!(rt; most, Text::from_bytes(alloc, b"T8 1:2057")?);
    let (less, _) = at_the_limit(alloc, b"func f(", b"\n_ x: Int,", b"\ny: Int) { }\n")?;
    assert_eq!(rt; less, Text::from_bytes(alloc, b"T8 257:1")?);
    let fits = repeated(alloc, b"func f(", b"\n_ x: Int,", 254, b"\ny: Int) { }\n")?;
    assert_eq!(rt; told(alloc, fits.as_bytes())?, accepted);
    Ok(())
}
