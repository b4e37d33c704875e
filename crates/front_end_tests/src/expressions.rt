//! Expressions read by hand, from the words that say what the grammar is and which rules come first: no contract
//! says that memory is there, nor that the definitions say what was meant.

ghost use Rattle.std.specs.Prelude.{◌<◌, length};

mod rows;

use rows::ROWS;
use std::alloc::Global;
use std::test::Fail;
use sw_base::Text;
use sw_lex::{Tokens, lex};
use sw_parse_expr::parse_expr;
use sw_rules::{FrontError, Refusal};
use sw_tree::{Argument, Expr, Literal, TryForm};
use test_rows::check_rows;

fn put(text: &mut Text, bytes: &[u8]) -> Result<(), Fail> {
    Ok(text.push_all(bytes)?)
}

/// Writes a tree: a form's name and its parts in brackets.
#[cycle(write)]
fn write(alloc: Global, text: &mut Text, tree: &Expr) -> Result<(), Fail> {
    match tree {
        Expr::Name(name) => put(text, name.get().text.as_bytes()),
        Expr::SelfValue(_) => put(text, b"self"),
        Expr::Nil(_) => put(text, b"nil"),
        Expr::Implicit(_, name) => {
            put(text, b".")?;
            put(text, name.get().text.as_bytes())
        }
        Expr::Literal(_, literal) => write_literal(alloc, text, literal.get()),
        Expr::Array(_, elements) => {
            put(text, b"[")?;
            let mut is_first = true;
            for element in elements.get().as_slice() {
                if !is_first {
                    put(text, b" ")?;
                }
                is_first = false;
                write(alloc, text, element)?;
            }
            put(text, b"]")
        }
        _ => {
            put(text, b"(")?;
            write_form(alloc, text, tree)?;
            put(text, b")")
        }
    }
}

#[cycle(write)]
fn write_part(alloc: Global, text: &mut Text, tree: &Expr) -> Result<(), Fail> {
    put(text, b" ")?;
    write(alloc, text, tree)
}

#[cycle(write)]
fn write_form(alloc: Global, text: &mut Text, tree: &Expr) -> Result<(), Fail> {
    match tree {
        Expr::Try(TryForm::Plain, _, x) => {
            put(text, b"try")?;
            write_part(alloc, text, x.get())
        }
        Expr::Try(TryForm::Optional, _, x) => {
            put(text, b"try?")?;
            write_part(alloc, text, x.get())
        }
        Expr::Await(_, x) => {
            put(text, b"await")?;
            write_part(alloc, text, x.get())
        }
        Expr::Ternary(condition, branches) => {
            let (x, y) = branches.get();
            put(text, b"?")?;
            write_part(alloc, text, condition.get())?;
            write_part(alloc, text, x)?;
            write_part(alloc, text, y)
        }
        Expr::Binary(operator, _, operands) => {
            let (left, right) = operands.get();
            let name = format!(in alloc; "{operator:?}")?;
            put(text, name.as_bytes())?;
            write_part(alloc, text, left)?;
            write_part(alloc, text, right)
        }
        Expr::Prefix(operator, _, x) => {
            let name = format!(in alloc; "{operator:?}")?;
            put(text, name.as_bytes())?;
            write_part(alloc, text, x.get())
        }
        _ => write_postfix(alloc, text, tree),
    }
}

#[cycle(write)]
fn write_postfix(alloc: Global, text: &mut Text, tree: &Expr) -> Result<(), Fail> {
    match tree {
        Expr::Member(base, name) => {
            put(text, b".")?;
            write_part(alloc, text, base.get())?;
            put(text, b" ")?;
            put(text, name.get().text.as_bytes())
        }
        Expr::Call(callee, list) => {
            let (_, arguments) = list.get();
            put(text, b"call")?;
            write_part(alloc, text, callee.get())?;
            for argument in arguments.as_slice() {
                write_argument(alloc, text, argument)?;
            }
            Ok(())
        }
        Expr::Index(base, list) => {
            let (_, index) = list.get();
            put(text, b"index")?;
            write_part(alloc, text, base.get())?;
            write_part(alloc, text, index)
        }
        Expr::Force(base, _) => {
            put(text, b"!")?;
            write_part(alloc, text, base.get())
        }
        Expr::Paren(_, x) => {
            put(text, b"paren")?;
            write_part(alloc, text, x.get())
        }
        _ => put(text, b"other"),
    }
}

#[cycle(write)]
fn write_argument(alloc: Global, text: &mut Text, argument: &Argument) -> Result<(), Fail> {
    if let Some(label) = &argument.label {
        put(text, b" ")?;
        put(text, label.text.as_bytes())?;
        put(text, b":")?;
    }
    write_part(alloc, text, &argument.value)
}

#[cycle(write)]
fn write_literal(alloc: Global, text: &mut Text, literal: &Literal) -> Result<(), Fail> {
    match literal {
        Literal::Integer(value) => {
            let digits = format!(in alloc; "{value}")?;
            put(text, digits.as_bytes())
        }
        Literal::Bool(value) => put(text, if *value { b"true" } else { b"false" }),
        Literal::String(first, pieces) => {
            put(text, b"\"")?;
            put(text, first.get().as_bytes())?;
            for piece in pieces.get().as_slice() {
                put(text, b"{")?;
                write(alloc, text, &piece.value)?;
                put(text, b"}")?;
                put(text, piece.text.as_bytes())?;
            }
            put(text, b"\"")
        }
    }
}

/// Why there is no tree, as the rows write it.
fn failed(alloc: Global, error: FrontError) -> Result<Text, Fail> {
    match error {
        FrontError::Refused(Refusal { rule, span }) => {
            let text = format!(in alloc; "refused {rule:?} {}:{}", span.line, span.column)?;
            Ok(Text::from_bytes(alloc, text.as_bytes())?)
        }
        FrontError::NoMemory => Ok(Text::from_bytes(alloc, b"no memory")?),
    }
}

/// A tree and how many tokens it takes, as the rows write them.
fn shown(alloc: Global, tree: &Expr, end: usize) -> Result<Text, Fail> {
    let mut text = Text::from_bytes(alloc, b"")?;
    write(alloc, &mut text, tree)?;
    let taken = format!(in alloc; " @{end}")?;
    put(&mut text, taken.as_bytes())?;
    Ok(text)
}

/// What the tokens of a source are read as.
fn read(alloc: Global, tokens: &Tokens) -> Result<Text, Fail>
    requires inside { 0 < length tokens.now }
{
    match parse_expr(alloc, tokens, 0) {
        Ok((tree, end)) => shown(alloc, &tree, end),
        Err(error) => failed(alloc, error),
    }
}

/// What becomes of a source, as the rows write it.
fn answer(alloc: Global, source: &[u8]) -> Result<Text, Fail> {
    match lex(alloc, source) {
        Ok(tokens) => read(alloc, &tokens),
        Err(error) => failed(alloc, error),
    }
}

#[test]
fn each_row_is_answered(rt: HostRuntime) -> Result<(), Fail> {
    let (right, wrong) = check_rows(rt.alloc(), ROWS, answer)?;
    assert_eq!(rt; wrong, None);
    assert_eq!(rt; right, 263);
    Ok(())
}

/// A text, then so many times another, then a third, and so many times a fourth.
fn repeated(
    alloc: Global,
    first: &[u8],
    middle: &[u8],
    count: usize,
    last: &[u8],
    closing: &[u8],
) -> Result<Text, Fail> {
    let mut source = Text::from_bytes(alloc, first)?;
    for _ in 0..count {
        source.push_all(middle)?;
    }
    source.push_all(last)?;
    for _ in 0..count {
        source.push_all(closing)?;
    }
    Ok(source)
}

fn is_refused(
    alloc: Global,
    first: &[u8],
    middle: &[u8],
    count: usize,
    last: &[u8],
    wanted: &[u8],
) -> Result<bool, Fail> {
    let source = repeated(alloc, first, middle, count, last, b"")?;
    Ok(answer(alloc, source.as_bytes())?.as_bytes() == wanted)
}

/// Whether brackets, opened and closed so many times, are an expression of so many tokens.
fn is_taken(
    alloc: Global,
    opening: &[u8],
    count: usize,
    closing: &[u8],
    wanted: &[u8],
) -> Result<bool, Fail> {
    let source = repeated(alloc, b"", opening, count, b"a", closing)?;
    Ok(
        answer(alloc, source.as_bytes())?
            .as_bytes()
            .ends_with(wanted),
    )
}

#[test]
fn a_hundred_operators_are_taken_and_the_next_is_refused(rt: HostRuntime) -> Result<(), Fail> {
    let alloc = rt.alloc();
    assert!(rt; is_taken(alloc, b"a+", 100, b"", b" @201")?);
    assert!(rt; is_refused(alloc, b"a", b"+a", 101, b"", b"refused P3 1:202")?);
    assert!(rt; is_refused(alloc, b"a", b"+a", 110, b"", b"refused P3 1:202")?);
    assert!(rt; is_taken(alloc, b"-", 100, b"", b" @101")?);
    assert!(rt; is_refused(alloc, b"", b"-", 101, b"a", b"refused P3 1:101")?);
    assert!(rt; is_taken(alloc, b"", 100, b".b", b" @201")?);
    assert!(rt; is_refused(alloc, b"a", b".b", 101, b"", b"refused P3 1:202")?);
    assert!(rt; is_refused(alloc, b"a", b"!", 101, b"", b"refused P3 1:102")?);
    assert!(rt; is_refused(alloc, b"a", b"()", 101, b"", b"refused P3 1:202")?);
    Ok(())
}

#[test]
fn a_comparison_too_many_is_refused_for_what_it_is(rt: HostRuntime) -> Result<(), Fail> {
    let alloc = rt.alloc();
    assert!(rt; is_refused(alloc, b"a<a", b"+a", 98, b"<a", b"refused P5 1:200")?);
    assert!(rt; is_refused(alloc, b"a<a", b"+a", 99, b"<a", b"refused P3 1:202")?);
    Ok(())
}

#[test]
fn sixty_four_brackets_are_taken_and_the_next_is_refused(rt: HostRuntime) -> Result<(), Fail> {
    let alloc = rt.alloc();
    assert!(rt; is_taken(alloc, b"(", 64, b")", b" @129")?);
    assert!(rt; is_refused(alloc, b"", b"(", 65, b"a", b"refused P3 1:65")?);
    assert!(rt; is_taken(alloc, b"[(", 32, b")]", b" @129")?);
    assert!(rt; is_refused(alloc, b"", b"[(", 32, b"[a", b"refused P3 1:65")?);
    assert!(rt; is_refused(alloc, b"", b"[(", 32, b"a(b", b"refused P3 1:66")?);
    assert!(rt; is_refused(alloc, b"", b"[(", 32, b"\"\\(a", b"refused L3 1:65")?);
    assert!(rt; is_refused(alloc, b"", b"[(", 32, b"\"\\(a)\"", b"refused P3 1:65")?);
    assert!(rt; is_taken(alloc, b"f(", 64, b")", b" @193")?);
    assert!(rt; is_refused(alloc, b"", b"f(", 65, b"a", b"refused P3 1:130")?);
    Ok(())
}

/// No tree is deeper than one that uses up brackets and signs together, with marks before each operand.
#[test]
fn the_deepest_trees_are_read_and_dropped(rt: HostRuntime) -> Result<(), Fail> {
    let alloc = rt.alloc();
    assert!(rt; is_taken(alloc, b"(try await -", 64, b")", b" @321")?);
    assert!(rt; is_taken(alloc, b"[try await !", 64, b"]", b" @321")?);
    assert!(rt; is_taken(alloc, b"a ? b : ", 100, b"", b" @401")?);
    Ok(())
}
