//! Trees printed by hand, from the words that say how each part is written: no contract says that memory is
//! there, nor that the definitions say what was meant.

mod trees;

use sqlite_items::Items;
use std::alloc::Global;
use std::test::Fail;
use sw_print::print;
use sw_tree::{BinaryOperator, Decl, Expr, PrefixOperator, Stmt, Tree};
use trees::{
    awaited, binary, call, dot_name, element, forced, integer, member, one, one_argument, paren,
    signed, string, tried, two, variable, with_piece,
};

/// Tells whether the text of a tree is this.
fn is_printed(alloc: Global, tree: &Tree, wanted: &[u8]) -> Result<bool, Fail> {
    let found = print(alloc, tree)?;
    Ok(found.as_bytes() == wanted)
}

/// A file with one func, in which these statements stand.
fn around(alloc: Global, statements: Items<Stmt>) -> Result<Tree, Fail> {
    let func = trees::func(alloc, b"f", statements)?;
    trees::tree(alloc, Decl::Func(func))
}

/// A file with one func, whose one statement is an expression.
fn around_one(alloc: Global, x: Expr) -> Result<Tree, Fail> {
    let statements = one(alloc, Stmt::Expr(x))?;
    around(alloc, statements)
}

/// `print("hi")`
fn print_hi(alloc: Global) -> Result<Expr, Fail> {
    let hi = string(alloc, b"hi")?;
    let arguments = one_argument(alloc, hi)?;
    let callee = variable(alloc, b"print")?;
    call(alloc, callee, arguments)
}

/// `!(-x + -5)`, of which the second sign is the integer's own.
fn signs(alloc: Global) -> Result<Expr, Fail> {
    let x = variable(alloc, b"x")?;
    let x = signed(alloc, PrefixOperator::Minus, x)?;
    let x = binary(alloc, BinaryOperator::Add, x, integer(alloc, -5)?)?;
    let x = paren(alloc, x)?;
    signed(alloc, PrefixOperator::Not, x)
}

/// `try? await a.b[0]!`
fn suffixes(alloc: Global) -> Result<Expr, Fail> {
    let x = variable(alloc, b"a")?;
    let x = member(alloc, x, b"b")?;
    let x = element(alloc, x, integer(alloc, 0)?)?;
    let x = forced(alloc, x)?;
    let x = awaited(alloc, x)?;
    tried(alloc, x)
}

/// Each byte that has an escape, and an expression in the string.
fn escapes(alloc: Global) -> Result<Expr, Fail> {
    let x = variable(alloc, b"x")?;
    with_piece(alloc, b"\n\r\t\0\"\\", x, b"'")
}

/// `a` and `.b()`
fn dots(alloc: Global) -> Result<Items<Stmt>, Fail> {
    let first = variable(alloc, b"a")?;
    let callee = dot_name(alloc, b"b")?;
    let second = call(alloc, callee, Items::new(alloc))?;
    two(alloc, Stmt::Expr(first), Stmt::Expr(second))
}

#[test]
fn no_declarations_have_no_text(rt: HostRuntime) -> Result<(), Fail> {
    let alloc = rt.alloc();
    let decls = Items::new(alloc);
    let found = print(alloc, &Tree { decls })?;
    assert_eq!(rt; found.as_bytes(), b"".as_slice());
    Ok(())
}

#[test]
fn expressions_are_written_by_their_words(rt: HostRuntime) -> Result<(), Fail> {
    let alloc = rt.alloc();
    let tree = around_one(alloc, signs(alloc)?)?;
    assert!(rt; is_printed(alloc, &tree, b"func f ( ) {\n! ( -x + -5 )\n}\n")?);
    let tree = around_one(alloc, suffixes(alloc)?)?;
    assert!(rt; is_printed(alloc, &tree, b"func f ( ) {\ntry? await a.b[ 0 ]!\n}\n")?);
    let tree = around_one(alloc, escapes(alloc)?)?;
    let wanted = b"func f ( ) {\n\"\\n\\r\\t\\0\\\"\\\\\\(x)'\"\n}\n";
    assert!(rt; is_printed(alloc, &tree, wanted)?);
    Ok(())
}

#[test]
fn statements_have_lines(rt: HostRuntime) -> Result<(), Fail> {
    let alloc = rt.alloc();
    let tree = around(alloc, dots(alloc)?)?;
    assert!(rt; is_printed(alloc, &tree, b"func f ( ) {\na ;.b( )\n}\n")?);
    let tree = around(alloc, trees::branches(alloc)?)?;
    let wanted = b"func f ( ) {\nif a {\nbreak\n} else if b {\nbreak\n} else {\ncontinue\n}\n}\n";
    assert!(rt; is_printed(alloc, &tree, wanted)?);
    Ok(())
}

#[test]
fn declarations_have_lines(rt: HostRuntime) -> Result<(), Fail> {
    let alloc = rt.alloc();
    let body = one(alloc, Stmt::Expr(print_hi(alloc)?))?;
    let tree = trees::main_of(alloc, body)?;
    let wanted = b"func main ( system : NodeSystem ) async throws {\nprint( \"hi\" )\n}\n";
    assert!(rt; is_printed(alloc, &tree, wanted)?);
    let tree = trees::declared_types(alloc)?;
    let wanted = b"public final enum E : P , Q {\ncase a , b ( in : Int )\n}\nactor A {\n}\n";
    assert!(rt; is_printed(alloc, &tree, wanted)?);
    Ok(())
}
