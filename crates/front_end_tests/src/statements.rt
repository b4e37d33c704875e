//! Blocks read by hand, from the words that say what the grammar is: no contract says that memory is there, nor that
//! the definitions say what was meant.

ghost use Rattle.std.specs.Prelude.{◌<◌};

mod rows;

use rows::ROWS;
use std::alloc::Global;
use std::test::Fail;
use sw_base::Text;
use sw_lex::{Tokens, lex};
use sw_parse_stmt::block;
use sw_syntax::{Budget, Stop, TokenView};
use sw_tree::{
    ArmLabel, Binding, Block, Branch, Catch, CatchPattern, Condition, Expr, Literal, Name, Pattern,
    RangeEnd, Stmt, SwitchArm, Type,
};
use test_rows::check_rows;

/// The brackets, and the operators and postfix forms, that a block may have.
const BUDGET: Budget = Budget {
    brackets: 64,
    left: 100,
    limit: 100,
};

fn put(text: &mut Text, bytes: &[u8]) -> Result<(), Fail> {
    Ok(text.push_all(bytes)?)
}

/// Writes an expression, as far as the rows have any.
fn write_expr(alloc: Global, text: &mut Text, tree: &Expr) -> Result<(), Fail> {
    match tree {
        Expr::Name(name) => put(text, name.get().text.as_bytes()),
        Expr::Implicit(_, name) => {
            put(text, b".")?;
            put(text, name.get().text.as_bytes())
        }
        Expr::Member(base, name) => {
            write_expr(alloc, text, base.get())?;
            put(text, b".")?;
            put(text, name.get().text.as_bytes())
        }
        Expr::Prefix(operator, _, x) => {
            let name = format!(in alloc; "({operator:?} ")?;
            put(text, name.as_bytes())?;
            write_expr(alloc, text, x.get())?;
            put(text, b")")
        }
        Expr::Binary(operator, _, operands) => {
            let (x, y) = operands.get();
            let name = format!(in alloc; "({operator:?} ")?;
            put(text, name.as_bytes())?;
            write_expr(alloc, text, x)?;
            put(text, b" ")?;
            write_expr(alloc, text, y)?;
            put(text, b")")
        }
        _ => put(text, b"other"),
    }
}

fn write_binding(text: &mut Text, binding: Binding) -> Result<(), Fail> {
    match binding {
        Binding::Let => put(text, b"let "),
        Binding::Var => put(text, b"var "),
    }
}

fn write_condition(alloc: Global, text: &mut Text, condition: &Condition) -> Result<(), Fail> {
    match condition {
        Condition::Expr(x) => write_expr(alloc, text, x),
        Condition::Bind(binding, name, value) => {
            write_binding(text, *binding)?;
            put(text, name.text.as_bytes())?;
            if let Some(x) = value {
                put(text, b" = ")?;
                write_expr(alloc, text, x)?;
            }
            Ok(())
        }
    }
}

fn write_conditions(alloc: Global, text: &mut Text, conditions: &[Condition]) -> Result<(), Fail> {
    let mut is_first = true;
    for condition in conditions {
        if !is_first {
            put(text, b", ")?;
        }
        is_first = false;
        write_condition(alloc, text, condition)?;
    }
    Ok(())
}

fn write_pattern(alloc: Global, text: &mut Text, pattern: &Pattern) -> Result<(), Fail> {
    match pattern {
        Pattern::Any(_) => put(text, b" _"),
        Pattern::Literal(_, Literal::Integer(value)) => {
            let digits = format!(in alloc; " {value}")?;
            put(text, digits.as_bytes())
        }
        Pattern::Case(_, _, name, _) => {
            put(text, b" .")?;
            put(text, name.text.as_bytes())
        }
        _ => put(text, b" other"),
    }
}

fn write_label(alloc: Global, text: &mut Text, label: &ArmLabel) -> Result<(), Fail> {
    match label {
        ArmLabel::Default => put(text, b" default"),
        ArmLabel::Case(patterns) => {
            put(text, b" case")?;
            for pattern in patterns.as_slice() {
                write_pattern(alloc, text, pattern)?;
            }
            Ok(())
        }
    }
}

fn write_caught(text: &mut Text, pattern: &CatchPattern) -> Result<(), Fail> {
    let (mark, first, second) = match pattern {
        CatchPattern::As(name, of) => (b" ", name, of),
        CatchPattern::Case(of, name, _) => (b".", of, name),
    };
    put(text, b" ")?;
    put(text, first.text.as_bytes())?;
    put(text, mark)?;
    put(text, second.text.as_bytes())
}

/// Writes a block: its statements between braces.
#[cycle(write)]
fn write(alloc: Global, text: &mut Text, block: &Block) -> Result<(), Fail> {
    put(text, b"{")?;
    let mut is_first = true;
    for statement in block.as_slice() {
        if !is_first {
            put(text, b" ")?;
        }
        is_first = false;
        write_statement(alloc, text, statement)?;
    }
    put(text, b"}")
}

/// Writes a statement: a word alone, an expression, or its parts in brackets.
#[cycle(write)]
fn write_statement(alloc: Global, text: &mut Text, tree: &Stmt) -> Result<(), Fail> {
    match tree {
        Stmt::Expr(x) => write_expr(alloc, text, x),
        Stmt::Break(_) => put(text, b"break"),
        Stmt::Continue(_) => put(text, b"continue"),
        Stmt::Return(_, None) => put(text, b"return"),
        _ => {
            put(text, b"(")?;
            write_parts(alloc, text, tree)?;
            put(text, b")")
        }
    }
}

fn write_value(alloc: Global, text: &mut Text, word: &[u8], x: &Expr) -> Result<(), Fail> {
    put(text, word)?;
    write_expr(alloc, text, x)
}

#[cycle(write)]
fn write_parts(alloc: Global, text: &mut Text, tree: &Stmt) -> Result<(), Fail> {
    match tree {
        Stmt::Local(_, binding, name, declared, x) => {
            write_binding(text, *binding)?;
            put(text, name.text.as_bytes())?;
            if let Some(Type::Name(of)) = declared {
                put(text, b" ")?;
                put(text, of.text.as_bytes())?;
            }
            write_value(alloc, text, b" ", x)
        }
        Stmt::Assign(target, operator, _, x) => {
            let name = format!(in alloc; "set {operator:?} ")?;
            write_value(alloc, text, name.as_bytes(), target)?;
            write_value(alloc, text, b" ", x)
        }
        Stmt::Discard(_, x) => write_value(alloc, text, b"_ ", x),
        Stmt::Return(_, Some(x)) => write_value(alloc, text, b"return ", x),
        Stmt::Throw(_, x) => write_value(alloc, text, b"throw ", x),
        Stmt::If(first, others, last) => {
            put(text, b"if ")?;
            write_branch(alloc, text, first)?;
            for other in others.as_slice() {
                put(text, b" elseif ")?;
                write_branch(alloc, text, other)?;
            }
            if let Some(body) = last {
                put(text, b" else ")?;
                write(alloc, text, body)?;
            }
            Ok(())
        }
        _ => write_nested(alloc, text, tree),
    }
}

/// Writes what a `for` goes over.
fn write_range(
    alloc: Global,
    text: &mut Text,
    name: &Option<Name>,
    x: &Expr,
    range: &Option<RangeEnd>,
) -> Result<(), Fail> {
    put(text, b"for ")?;
    match name {
        Some(name) => put(text, name.text.as_bytes())?,
        None => put(text, b"_")?,
    }
    write_value(alloc, text, b" ", x)?;
    if let Some(end) = range {
        let operator = format!(in alloc; " {:?} ", end.operator)?;
        write_value(alloc, text, operator.as_bytes(), &end.value)?;
    }
    Ok(())
}

#[cycle(write)]
fn write_nested(alloc: Global, text: &mut Text, tree: &Stmt) -> Result<(), Fail> {
    match tree {
        Stmt::Guard(_, conditions, body) => {
            put(text, b"guard ")?;
            write_conditions(alloc, text, conditions.as_slice())?;
            put(text, b" ")?;
            write(alloc, text, body)
        }
        Stmt::While(_, conditions, body) => {
            put(text, b"while ")?;
            write_conditions(alloc, text, conditions.as_slice())?;
            put(text, b" ")?;
            write(alloc, text, body)
        }
        Stmt::For(_, name, x, range, body) => {
            write_range(alloc, text, name, x, range)?;
            put(text, b" ")?;
            write(alloc, text, body)
        }
        Stmt::Switch(_, x, arms) => {
            write_value(alloc, text, b"switch ", x)?;
            for arm in arms.as_slice() {
                write_arm(alloc, text, arm)?;
            }
            Ok(())
        }
        Stmt::Do(_, body, catches) => {
            put(text, b"do ")?;
            write(alloc, text, body)?;
            for handler in catches.as_slice() {
                write_catch(alloc, text, handler)?;
            }
            Ok(())
        }
        _ => put(text, b"other"),
    }
}

#[cycle(write)]
fn write_branch(alloc: Global, text: &mut Text, branch: &Branch) -> Result<(), Fail> {
    write_conditions(alloc, text, branch.conditions.as_slice())?;
    put(text, b" ")?;
    write(alloc, text, &branch.body)
}

#[cycle(write)]
fn write_arm(alloc: Global, text: &mut Text, arm: &SwitchArm) -> Result<(), Fail> {
    write_label(alloc, text, &arm.label)?;
    put(text, b" ")?;
    write(alloc, text, &arm.body)
}

#[cycle(write)]
fn write_catch(alloc: Global, text: &mut Text, handler: &Catch) -> Result<(), Fail> {
    put(text, b" catch")?;
    if let Some(pattern) = &handler.pattern {
        write_caught(text, pattern)?;
    }
    put(text, b" ")?;
    write(alloc, text, &handler.body)
}

/// What the tokens of a source are read as, as the rows write it.
fn read(alloc: Global, tokens: &Tokens) -> Result<Text, Fail> {
    let source = TokenView::new(tokens);
    let mut text = Text::from_bytes(alloc, b"")?;
    let last = match block(alloc, &source, false, 0, BUDGET) {
        Ok((tree, end, _)) => {
            write(alloc, &mut text, &tree)?;
            format!(in alloc; " @{end}")?
        }
        Err(Stop::Refused { at, over: true }) => format!(in alloc; "over budget {at}")?,
        Err(Stop::Refused { at, over: false }) => format!(in alloc; "refused {at}")?,
        Err(Stop::NoMemory) => format!(in alloc; "no memory")?,
    };
    put(&mut text, last.as_bytes())?;
    Ok(text)
}

/// What becomes of a source, as the rows write it.
fn answer(alloc: Global, source: &[u8]) -> Result<Text, Fail> {
    match lex(alloc, source) {
        Ok(tokens) => read(alloc, &tokens),
        Err(_) => Ok(Text::from_bytes(alloc, b"no tokens")?),
    }
}

#[test]
fn each_row_is_answered(rt: HostRuntime) -> Result<(), Fail> {
    let (right, wrong) = check_rows(rt.alloc(), ROWS, answer)?;
    assert_eq!(rt; wrong, None);
    assert_eq!(rt; right, 68);
    Ok(())
}

/// A text, then so many times another, then a third.
fn repeated(
    alloc: Global,
    first: &[u8],
    middle: &[u8],
    count: usize,
    last: &[u8],
) -> Result<Text, Fail> {
    let mut source = Text::from_bytes(alloc, first)?;
    for _ in 0..count {
        source.push_all(middle)?;
    }
    source.push_all(last)?;
    Ok(source)
}

#[test]
fn sixty_four_braces_are_taken_and_the_next_is_refused(rt: HostRuntime) -> Result<(), Fail> {
    let alloc = rt.alloc();
    let opened = repeated(alloc, b"{", b"do {", 63, b"")?;
    let source = repeated(alloc, opened.as_bytes(), b"}", 64, b"")?;
    assert!(rt;
        answer(alloc, source.as_bytes())?
            .as_bytes()
            .ends_with(b" @191")
    );
    let source = repeated(alloc, b"{", b"do {", 64, b"")?;
    assert!(rt; answer(alloc, source.as_bytes())?.as_bytes() == b"over budget 128".as_slice());
    Ok(())
}

#[test]
fn a_hundred_else_ifs_are_taken_and_the_next_is_refused(rt: HostRuntime) -> Result<(), Fail> {
    let alloc = rt.alloc();
    let source = repeated(alloc, b"{if a {}", b" else if a {}", 100, b"}")?;
    assert!(rt;
        answer(alloc, source.as_bytes())?
            .as_bytes()
            .ends_with(b" @506")
    );
    let source = repeated(alloc, b"{if a {}", b" else if a {}", 101, b"}")?;
    assert!(rt; answer(alloc, source.as_bytes())?.as_bytes() == b"over budget 505".as_slice());
    Ok(())
}
