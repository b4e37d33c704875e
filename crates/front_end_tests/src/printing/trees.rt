//! Trees built by hand.

use sqlite_items::{Boxed, Items};
use std::alloc::Global;
use std::test::Fail;
use sw_base::{Span, Text};
use sw_tree::{
    Argument, BinaryOperator, Block, Branch, Case, Condition, Decl, EnumItem, Expr, Func, Heading,
    Literal, Modifier, ModifierKind, Name, Parameter, ParameterLabel, Payload, PrefixOperator,
    Signature, Stmt, StringPiece, Tree, TryForm, Type,
};

/// The place of everything.
pub const NOWHERE: Span = Span { line: 0, column: 0 };

/// A list of one item.
pub fn one<T: Drop>(alloc: Global, item: T) -> Result<Items<T>, Fail> {
    let mut items = Items::new(alloc);
    items.push(item)?;
    Ok(items)
}

/// A list of two items.
pub fn two<T: Drop>(alloc: Global, first: T, second: T) -> Result<Items<T>, Fail> {
    let mut items = one(alloc, first)?;
    items.push(second)?;
    Ok(items)
}

fn name(alloc: Global, bytes: &[u8]) -> Result<Name, Fail> {
    let text = Text::from_bytes(alloc, bytes)?;
    let span = NOWHERE;
    Ok(Name { text, span })
}

fn boxed(alloc: Global, x: Expr) -> Result<Boxed<Expr>, Fail> {
    Ok(Boxed::new(alloc, x)?)
}

/// A name that stands alone.
pub fn variable(alloc: Global, bytes: &[u8]) -> Result<Expr, Fail> {
    let name = name(alloc, bytes)?;
    Ok(Expr::Name(Boxed::new(alloc, name)?))
}

fn literal(alloc: Global, value: Literal) -> Result<Expr, Fail> {
    Ok(Expr::Literal(NOWHERE, Boxed::new(alloc, value)?))
}

/// An integer.
pub fn integer(alloc: Global, n: i64) -> Result<Expr, Fail> {
    literal(alloc, Literal::Integer(n))
}

fn with_pieces(alloc: Global, first: &[u8], pieces: Items<StringPiece>) -> Result<Expr, Fail> {
    let text = Text::from_bytes(alloc, first)?;
    let text = Boxed::new(alloc, text)?;
    let pieces = Boxed::new(alloc, pieces)?;
    literal(alloc, Literal::String(text, pieces))
}

/// A string in which no expression stands.
pub fn string(alloc: Global, bytes: &[u8]) -> Result<Expr, Fail> {
    with_pieces(alloc, bytes, Items::new(alloc))
}

/// A string with one expression in it.
pub fn with_piece(alloc: Global, first: &[u8], value: Expr, rest: &[u8]) -> Result<Expr, Fail> {
    let text = Text::from_bytes(alloc, rest)?;
    let pieces = one(alloc, StringPiece { value, text })?;
    with_pieces(alloc, first, pieces)
}

/// A sign and its operand.
pub fn signed(alloc: Global, operator: PrefixOperator, x: Expr) -> Result<Expr, Fail> {
    let x = boxed(alloc, x)?;
    Ok(Expr::Prefix(operator, NOWHERE, x))
}

/// An operator between its operands.
pub fn binary(
    alloc: Global,
    operator: BinaryOperator,
    left: Expr,
    right: Expr,
) -> Result<Expr, Fail> {
    let operands = Boxed::new(alloc, (left, right))?;
    Ok(Expr::Binary(operator, NOWHERE, operands))
}

/// `(x)`
pub fn paren(alloc: Global, x: Expr) -> Result<Expr, Fail> {
    let x = boxed(alloc, x)?;
    Ok(Expr::Paren(NOWHERE, x))
}

/// `x.own`
pub fn member(alloc: Global, x: Expr, own: &[u8]) -> Result<Expr, Fail> {
    let x = boxed(alloc, x)?;
    let own = name(alloc, own)?;
    Ok(Expr::Member(x, Boxed::new(alloc, own)?))
}

/// `x[at]`
pub fn element(alloc: Global, x: Expr, at: Expr) -> Result<Expr, Fail> {
    let x = boxed(alloc, x)?;
    Ok(Expr::Index(x, Boxed::new(alloc, (NOWHERE, at))?))
}

/// `x!`
pub fn forced(alloc: Global, x: Expr) -> Result<Expr, Fail> {
    let x = boxed(alloc, x)?;
    Ok(Expr::Force(x, NOWHERE))
}

/// `await x`
pub fn awaited(alloc: Global, x: Expr) -> Result<Expr, Fail> {
    let x = boxed(alloc, x)?;
    Ok(Expr::Await(NOWHERE, x))
}

/// `try? x`
pub fn tried(alloc: Global, x: Expr) -> Result<Expr, Fail> {
    let x = boxed(alloc, x)?;
    Ok(Expr::Try(TryForm::Optional, NOWHERE, x))
}

/// `.own`
pub fn dot_name(alloc: Global, own: &[u8]) -> Result<Expr, Fail> {
    let own = name(alloc, own)?;
    Ok(Expr::Implicit(NOWHERE, Boxed::new(alloc, own)?))
}

/// An argument without a label, alone.
pub fn one_argument(alloc: Global, value: Expr) -> Result<Items<Argument>, Fail> {
    let label = None;
    one(alloc, Argument { label, value })
}

/// `callee(arguments)`
pub fn call(alloc: Global, callee: Expr, arguments: Items<Argument>) -> Result<Expr, Fail> {
    let callee = boxed(alloc, callee)?;
    Ok(Expr::Call(callee, Boxed::new(alloc, (NOWHERE, arguments))?))
}

fn branch(alloc: Global, tested: &[u8]) -> Result<Branch, Fail> {
    let tested = variable(alloc, tested)?;
    let conditions = one(alloc, Condition::Expr(tested))?;
    let body = one(alloc, Stmt::Break(NOWHERE))?;
    let span = NOWHERE;
    Ok(Branch {
        span,
        conditions,
        body,
    })
}

/// An `if` with an `else if` and an `else`.
pub fn branches(alloc: Global) -> Result<Items<Stmt>, Fail> {
    let first = branch(alloc, b"a")?;
    let other = branch(alloc, b"b")?;
    let others = one(alloc, other)?;
    let otherwise = one(alloc, Stmt::Continue(NOWHERE))?;
    one(alloc, Stmt::If(first, others, Some(otherwise)))
}

fn signature(alloc: Global, own: &[u8]) -> Result<Signature, Fail> {
    let name = name(alloc, own)?;
    Ok(Signature {
        modifiers: Items::new(alloc),
        name,
        type_parameters: Items::new(alloc),
        parameters: Items::new(alloc),
        is_async: false,
        throws: false,
        result: None,
    })
}

/// A func without parameters.
pub fn func(alloc: Global, own: &[u8], body: Block) -> Result<Func, Fail> {
    let signature = signature(alloc, own)?;
    Ok(Func { signature, body })
}

fn parameter(alloc: Global, own: &[u8], of: &[u8]) -> Result<Parameter, Fail> {
    let of = name(alloc, of)?;
    let own = name(alloc, own)?;
    Ok(Parameter {
        label: ParameterLabel::Own,
        name: own,
        inout: None,
        declared: Type::Name(of),
        variadic: None,
    })
}

/// A tree of one declaration.
pub fn tree(alloc: Global, decl: Decl) -> Result<Tree, Fail> {
    let decls = one(alloc, decl)?;
    Ok(Tree { decls })
}

/// `func main(system: NodeSystem) async throws` with these statements.
pub fn main_of(alloc: Global, body: Block) -> Result<Tree, Fail> {
    let system = parameter(alloc, b"system", b"NodeSystem")?;
    let parameters = one(alloc, system)?;
    let name = name(alloc, b"main")?;
    let signature = Signature {
        modifiers: Items::new(alloc),
        name,
        type_parameters: Items::new(alloc),
        parameters,
        is_async: true,
        throws: true,
        result: None,
    };
    tree(alloc, Decl::Func(Func { signature, body }))
}

fn modifier(kind: ModifierKind) -> Modifier {
    let span = NOWHERE;
    Modifier { kind, span }
}

fn conformances(alloc: Global) -> Result<Items<Name>, Fail> {
    let first = name(alloc, b"P")?;
    let second = name(alloc, b"Q")?;
    two(alloc, first, second)
}

fn payload(alloc: Global) -> Result<Items<Payload>, Fail> {
    let of = name(alloc, b"Int")?;
    let label = name(alloc, b"in")?;
    one(
        alloc,
        Payload {
            label: Some(label),
            declared: Type::Name(of),
        },
    )
}

fn cases(alloc: Global) -> Result<Items<Case>, Fail> {
    let payload = payload(alloc)?;
    let first = name(alloc, b"a")?;
    let second = name(alloc, b"b")?;
    let first = Case {
        name: first,
        payload: None,
    };
    let second = Case {
        name: second,
        payload: Some(payload),
    };
    two(alloc, first, second)
}

fn an_enum(alloc: Global) -> Result<Decl, Fail> {
    let modifiers = two(
        alloc,
        modifier(ModifierKind::Public),
        modifier(ModifierKind::Final),
    )?;
    let name = name(alloc, b"E")?;
    let conformances = conformances(alloc)?;
    let heading = Heading {
        modifiers,
        name,
        conformances,
    };
    let items = one(alloc, EnumItem::Cases(cases(alloc)?))?;
    Ok(Decl::Enum(heading, items))
}

fn an_actor(alloc: Global) -> Result<Decl, Fail> {
    let name = name(alloc, b"A")?;
    let heading = Heading {
        modifiers: Items::new(alloc),
        name,
        conformances: Items::new(alloc),
    };
    Ok(Decl::Actor(heading, Items::new(alloc)))
}

/// An enum, and an actor without members.
pub fn declared_types(alloc: Global) -> Result<Tree, Fail> {
    let first = an_enum(alloc)?;
    let second = an_actor(alloc)?;
    let decls = two(alloc, first, second)?;
    Ok(Tree { decls })
}
