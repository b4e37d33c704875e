//! Expressions in the small world, with their types or the first rule that they break.

mod rows;

ghost use Rattle.std.specs.Prelude.{◌<◌, length};

use crate::tables::ty_of;
use crate::world::{facts, locals, tree};
use rows::{IN_P, ROWS};
use std::alloc::Global;
use std::test::Fail;
use sw_base::{NoMemory, Text, TypeNo};
use sw_check_expr::check_expr;
use sw_declared::{Members, Names, declare, members_in};
use sw_lex::{Tokens, lex};
use sw_locals::Locals;
use sw_parse_expr::parse_expr;
use sw_resolve::Scope;
use sw_rules::{FrontError, Refusal};
use sw_tree::{Expr, Tree};
use sw_typed::Typed;
use sw_typing::Facts;
use sw_value::{Base, Mark, Ty};
use test_rows::check_rows;

/// A type as the tables write it; `-` where there is none.
fn spelled(alloc: Global, ty: &Option<Ty>) -> Result<Text, Fail> {
    let Some(ty) = ty else {
        return Ok(Text::from_bytes(alloc, b"-")?);
    };
    let mut text = Text::from_bytes(alloc, b"")?;
    for mark in ty.marks.as_slice() {
        match mark {
            Mark::Array => text.push_all(b"[")?,
            Mark::Optional => text.push_all(b"?")?,
        }
    }
    let (word, number) = match ty.base {
        Base::Int => ("Int", None),
        Base::Bool => ("Bool", None),
        Base::Str => ("Str", None),
        Base::Void => ("Void", None),
        Base::Id => ("Id", None),
        Base::System => ("System", None),
        Base::AnyError => ("AnyError", None),
        Base::Struct(TypeNo(n)) => ("Struct:", Some(n)),
        Base::Enum(TypeNo(n)) => ("Enum:", Some(n)),
        Base::Plain(TypeNo(n)) => ("Plain:", Some(n)),
        Base::Distributed(TypeNo(n)) => ("Distributed:", Some(n)),
        Base::Any(TypeNo(n)) => ("Any:", Some(n)),
    };
    text.push_all(word.as_bytes())?;
    if let Some(n) = number {
        let digits = format!(in alloc; "{n}")?;
        text.push_all(digits.as_bytes())?;
    }
    Ok(text)
}

fn answered(alloc: Global, answer: Result<Typed, FrontError>) -> Result<Text, Fail> {
    match answer {
        Ok(e) => spelled(alloc, &e.ty),
        Err(FrontError::Refused(Refusal { rule, span })) => {
            let text = format!(in alloc; "{rule:?} {}:{}", span.line, span.column)?;
            Ok(Text::from_bytes(alloc, text.as_bytes())?)
        }
        Err(FrontError::NoMemory) => Ok(Text::from_bytes(alloc, b"no memory")?),
    }
}

/// The expression that tokens begin with.
fn read(alloc: Global, tokens: &Tokens) -> Result<Expr, Fail>
    requires inside { 0 < length tokens.now }
{
    let (e, _) = parse_expr(alloc, tokens, 0)?;
    Ok(e)
}

/// The expression that a text is.
fn parsed(alloc: Global, text: &[u8]) -> Result<Expr, Fail> {
    let tokens = lex(alloc, text)?;
    read(alloc, &tokens)
}

/// What a row asks: an expression, the type that is needed of it, and the own type.
#[derive(Drop)]
struct Asked {
    e: Expr,
    needed: Option<Ty>,
    own: Option<Base>,
}

fn within(
    alloc: Global,
    asked: &Asked,
    known: &Facts,
    names: &Names,
    inside: &Members,
    locals: &Locals,
) -> Result<Text, Fail> {
    let scope = Scope {
        known,
        names,
        inside,
        own: asked.own,
        has_instance: asked.own.is_some(),
        self_is_variable: false,
        locals,
    };
    answered(
        alloc,
        check_expr(alloc, &scope, &asked.e, asked.needed.as_ref()),
    )
}

fn with_inside(
    alloc: Global,
    asked: &Asked,
    known: &Facts,
    names: &Names,
    inside: &Members,
) -> Result<Text, Fail> {
    match locals(alloc) {
        Ok(locals) => within(alloc, asked, known, names, inside, &locals),
        Err(error) => Err(error.into()),
    }
}

/// The members of the first declared type, where that is the own type.
fn inside_of(alloc: Global, tree: &Tree, is_own: bool) -> Result<Members, NoMemory> {
    match tree.decls.as_slice() {
        [first, ..] => {
            if is_own {
                members_in(alloc, first)
            } else {
                Ok(Members::new(alloc))
            }
        }
        [] => Ok(Members::new(alloc)),
    }
}

fn with_names(
    alloc: Global,
    asked: &Asked,
    tree: &Tree,
    known: &Facts,
    names: &Names,
) -> Result<Text, Fail> {
    match inside_of(alloc, tree, asked.own.is_some()) {
        Ok(inside) => with_inside(alloc, asked, known, names, &inside),
        Err(error) => Err(error.into()),
    }
}

fn with_declared(alloc: Global, asked: &Asked, tree: &Tree, names: &Names) -> Result<Text, Fail> {
    match facts(alloc, names, tree) {
        Ok(known) => with_names(alloc, asked, tree, &known, names),
        Err(error) => Err(error.into()),
    }
}

fn in_world(alloc: Global, asked: &Asked, tree: &Tree) -> Result<Text, Fail> {
    match declare(alloc, tree) {
        Ok(names) => with_declared(alloc, asked, tree, &names),
        Err(error) => Err(error.into()),
    }
}

/// What is told of an expression; behind ` -> ` stands the type that is needed.
fn told(alloc: Global, row: &[u8], own: Option<Base>) -> Result<Text, Fail> {
    let text = std::str::from_utf8(row).unwrap_or("");
    let (source, needed) = match text.split_once(" -> ") {
        Some((source, word)) => (source, Some(ty_of(alloc, word)?)),
        None => (text, None),
    };
    let e = parsed(alloc, source.as_bytes())?;
    let tree = tree(alloc)?;
    let asked = Asked { e, needed, own };
    in_world(alloc, &asked, &tree)
}

fn in_file(alloc: Global, row: &[u8]) -> Result<Text, Fail> {
    told(alloc, row, None)
}

fn in_p(alloc: Global, row: &[u8]) -> Result<Text, Fail> {
    told(alloc, row, Some(Base::Struct(TypeNo(1))))
}

#[test]
fn each_expression_is_told(rt: HostRuntime) -> Result<(), Fail> {
    let (right, wrong) = check_rows(rt.alloc(), ROWS, in_file)?;
    assert_eq!(rt; wrong, None);
    assert_eq!(rt; right, 196);
    Ok(())
}

#[test]
fn own_members_need_no_self(rt: HostRuntime) -> Result<(), Fail> {
    let (right, wrong) = check_rows(rt.alloc(), IN_P, in_p)?;
    assert_eq!(rt; wrong, None);
    assert_eq!(rt; right, 12);
    Ok(())
}
