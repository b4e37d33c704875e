//! From a syntax tree to the body of its `main`, where the tree is thin.

ghost use Rattle.std.specs.Prelude.{◌≡◌, ◌≢◌, ◌∷◌, [], ◌≤◌, ◌<◌, ◌↔◌, ◌++◌, List, IfOk, OnOk, MatchOption, IsTrue, length};
ghost use Rattle.sw_base.specs.Limits.{longest_source};
ghost use Rattle.sw_thin.specs.Program as t;
ghost use Rattle.sw_thin.specs.ProgramView.{expr_of, stmt_of, body_of};
ghost use Rattle.sw_tree.specs.declared.expr.Expr.{Expr as TreeExpr};
ghost use Rattle.sw_tree.specs.declared.stmt.Stmt.{Stmt as TreeStmt};
ghost use Rattle.sw_tree.specs.declared.decl.Func.{Func as FuncTree};
ghost use Rattle.sw_tree.specs.declared.decl.Decl.TheVariants as DeclTree;
ghost use Rattle.sw_thin.specs.Thin.{IsTerm, IsSum, terms, IsShortSum, name_of, IsShown, IsThinStmt, IsExprOf, IsStmtOf, IsPrint, IsPrintOf, IsSystem, TakesSystem, IsMain, HasMain, IsThinTree, IsNoThinTree};
ghost use Rattle.sw_thin.specs.ShortestText.{first_line, last_line, sum_text, shown_text, line_text, ended};
ghost use Rattle.sw_thin.specs.TreeReading.{AreThin, line_of};
ghost use Rattle.std.specs.List.{flat_map};

use crate::names::{is_name, is_plain_text, lets_with, variable_name};
use crate::program::{Expr, Stmt};
use sqlite_items::Boxed;
use std::alloc::Global;
use sw_base::{Duplicate, Items, LONGEST_SOURCE, NoMemory, Text};
use sw_tree::{
    BinaryOperator, Binding, Decl, Func, Literal, Parameter, ParameterLabel, Signature, Tree, Type,
};

const FIRST_LINE: &[u8] = b"func main(system: NodeSystem) async throws {\n";

const LAST_LINE: &[u8] = b"}\n";

/// The most statements of a body.
const MOST_STMTS: usize = 90_000;

/// The most terms of a sum.
const MOST_TERMS: usize = 100;

/// The most bytes of a text.
const MOST_TEXT: usize = 1_000_000;

/// The least integer that no term of a sum is.
const TERM_LIMIT: i64 = 1_000_000_000;

/// The integer of at most nine digits that an expression is; none where it is another one.
fn term(tree: &sw_tree::Expr) -> Option<Expr>
    ensures { MatchOption result ((e : t.Expr) → IsTerm e → IsExprOf e tree.now → ⊥) (λ e. IsTerm (expr_of e) × IsExprOf (expr_of e) tree.now) }
{
    let sw_tree::Expr::Literal(_, literal) = tree else {
        return None;
    };
    match literal.get() {
        Literal::Integer(n) if 0 <= *n && *n < TERM_LIMIT => Some(Expr::Int(*n)),
        _ => None,
    }
}

/// The sum of so many integers at most that an expression is; none where it is another one.
#[cycle(sum)]
fn sum(alloc: Global, tree: &sw_tree::Expr, most: usize) -> Result<Option<Expr>, NoMemory>
    ensures { IfOk result (λ found. MatchOption found ((e : t.Expr) → IsSum e → terms e ≤ most → IsExprOf e tree.now → ⊥)
        (λ e. IsSum (expr_of e) × (terms (expr_of e) ≤ most) × IsExprOf (expr_of e) tree.now)) }
{
    if most == 0 {
        return Ok(None);
    }
    match tree {
        sw_tree::Expr::Binary(BinaryOperator::Add, _, operands) => {
            let (left, right) = operands.get();
            let Some(right) = term(right) else {
                return Ok(None);
            };
            let Some(left) = sum(alloc, left, most - 1)? else {
                return Ok(None);
            };
            Ok(Some(Expr::Add(Boxed::new(alloc, left)?, Boxed::new(alloc, right)?)))
        }
        _ => Ok(term(tree)),
    }
}

/// What is printed where an expression stands between the brackets of a `print`, after so many `let` statements.
fn shown(alloc: Global, lets: usize, tree: &sw_tree::Expr) -> Result<Option<Expr>, NoMemory>
    requires small { lets ≤ longest_source }
    ensures { IfOk result (λ found. MatchOption found ((e : t.Expr) → IsShown lets e → IsExprOf e tree.now → ⊥)
        (λ e. IsShown lets (expr_of e) × IsExprOf (expr_of e) tree.now)) }
{
    match tree {
        sw_tree::Expr::Name(name) => {
            let name = name.get();
            if !is_name(name.text.as_bytes(), lets) {
                return Ok(None);
            }
            Ok(Some(Expr::Var(name.text.copy()?)))
        }
        sw_tree::Expr::Literal(_, literal) => match literal.get() {
            Literal::String(text, pieces) => {
                let text = text.get();
                if !pieces.get().is_empty()
                    || text.as_bytes().len() > MOST_TEXT
                    || !is_plain_text(text.as_bytes())
                {
                    return Ok(None);
                }
                Ok(Some(Expr::Str(text.copy()?)))
            }
            _ => sum(alloc, tree, MOST_TERMS),
        },
        _ => sum(alloc, tree, MOST_TERMS),
    }
}

fn is_print(callee: &sw_tree::Expr) -> bool
    ensures { IsTrue result ↔ IsPrint callee.now }
{
    match callee {
        sw_tree::Expr::Name(name) => name.get().text.as_bytes() == b"print".as_slice(),
        _ => false,
    }
}

/// What stands between the brackets of a `print`; none where the expression is another one.
fn printed(tree: &sw_tree::Expr) -> Option<&sw_tree::Expr>
    ensures { MatchOption result ((value : TreeExpr) → IsPrintOf value tree.now → ⊥) (λ value. IsPrintOf value.now tree.now) }
{
    let sw_tree::Expr::Call(callee, list) = tree else {
        return None;
    };
    let (_, arguments) = list.get();
    match arguments.as_slice() {
        [argument] if argument.label.is_none() && is_print(callee.get()) => Some(&argument.value),
        _ => None,
    }
}

/// The `let` of the next variable, by its name and its value.
fn declared(
    alloc: Global,
    lets: usize,
    name: &[u8],
    value: &sw_tree::Expr,
) -> Result<Option<Stmt>, NoMemory>
    requires small { lets ≤ longest_source }
    ensures { IfOk result (λ found. MatchOption found ((e : t.Expr) → name.now ≡ name_of lets → IsShortSum e → IsExprOf e value.now → ⊥)
        (λ s. (e : t.Expr) × (stmt_of s ≡ t.Let name.now e) × (name.now ≡ name_of lets) × IsShortSum e × IsExprOf e value.now)) }
{
    let wanted = variable_name(alloc, lets)?;
    if name != wanted.as_bytes() {
        return Ok(None);
    }
    match sum(alloc, value, MOST_TERMS)? {
        Some(e) => Ok(Some(Stmt::Let(wanted, e))),
        None => Ok(None),
    }
}

/// The statement that a tree is, after so many `let` statements; none where it is no thin one.
fn statement(alloc: Global, lets: usize, tree: &sw_tree::Stmt) -> Result<Option<Stmt>, NoMemory>
    requires small { lets ≤ longest_source }
    ensures { IfOk result (λ found. MatchOption found ((s : t.Stmt) → IsStmtOf s tree.now → IsThinStmt lets s → ⊥)
        (λ s. IsStmtOf (stmt_of s) tree.now × IsThinStmt lets (stmt_of s))) }
{
    match tree {
        sw_tree::Stmt::Local(_, Binding::Let, name, None, value) => {
            declared(alloc, lets, name.text.as_bytes(), value)
        }
        sw_tree::Stmt::Expr(call) => {
            let Some(value) = printed(call) else {
                return Ok(None);
            };
            match shown(alloc, lets, value)? {
                Some(e) => Ok(Some(Stmt::Print(e))),
                None => Ok(None),
            }
        }
        _ => Ok(None),
    }
}

/// The statements of a body; none where one of them is no thin one.
fn statements(alloc: Global, trees: &[sw_tree::Stmt]) -> Result<Option<Items<Stmt>>, NoMemory>
    requires few { length trees.now ≤ 90000 }
    ensures { IfOk result (λ found. MatchOption found ((body : List t.Stmt) → AreThin 0 body trees.now → ⊥) (λ body. AreThin 0 (body_of body) trees.now)) }
{
    let mut body = Items::new(alloc);
    let mut lets = 0;
    for tree in trees {
        let Some(stmt) = statement(alloc, lets, tree)? else {
            return Ok(None);
        };
        lets = lets_with(lets, &stmt);
        body.push(stmt)?;
    }
    Ok(Some(body))
}

/// Writes a sum as the shortest source does.
#[cycle(sum_text)]
fn push_sum(alloc: Global, out: &mut Text, e: &Expr) -> Result<(), NoMemory>
    ensures { OnOk result (out.new ≡ out.old ++ sum_text (expr_of e.now)) }
{
    match e {
        Expr::Int(n) => out.push_all(n.to_string(alloc)?.as_bytes()),
        Expr::Add(left, right) => {
            push_sum(alloc, out, left.get())?;
            out.push_all(b" + ")?;
            push_sum(alloc, out, right.get())
        }
        _ => Ok(()),
    }
}

/// Writes what stands between the brackets of a `print`.
fn push_shown(alloc: Global, out: &mut Text, e: &Expr) -> Result<(), NoMemory>
    ensures { OnOk result (out.new ≡ out.old ++ shown_text (expr_of e.now)) }
{
    match e {
        Expr::Var(name) => out.push_all(name.as_bytes()),
        Expr::Str(text) => {
            out.push_all(b"\"")?;
            out.push_all(text.as_bytes())?;
            out.push_all(b"\"")
        }
        _ => push_sum(alloc, out, e),
    }
}

/// Writes the line of a statement, with its end.
fn push_line(alloc: Global, out: &mut Text, stmt: &Stmt) -> Result<(), NoMemory>
    ensures { OnOk result (out.new ≡ out.old ++ ended (line_text (stmt_of stmt.now))) }
{
    match stmt {
        Stmt::Let(name, e) => {
            out.push_all(b"  let ")?;
            out.push_all(name.as_bytes())?;
            out.push_all(b" = ")?;
            push_sum(alloc, out, e)?;
            out.push_all(b"\n")
        }
        Stmt::Print(e) => {
            out.push_all(b"  print(")?;
            push_shown(alloc, out, e)?;
            out.push_all(b")\n")
        }
    }
}

/// The shortest source of a body.
fn shortest(alloc: Global, body: &[Stmt]) -> Result<Text, NoMemory>
    ensures { IfOk result (λ text. text ≡ first_line ++ (flat_map line_of body.now ++ last_line)) }
{
    let mut text = Text::from_bytes(alloc, FIRST_LINE)?;
    for stmt in body {
        push_line(alloc, &mut text, stmt)?;
    }
    text.push_all(LAST_LINE)?;
    Ok(text)
}

fn is_system(parameter: &Parameter) -> bool
    ensures { IsTrue result ↔ IsSystem parameter.now }
{
    match (&parameter.label, &parameter.declared) {
        (ParameterLabel::Own, Type::Name(declared)) => {
            parameter.name.text.as_bytes() == b"system".as_slice()
                && parameter.inout.is_none()
                && parameter.variadic.is_none()
                && declared.text.as_bytes() == b"NodeSystem".as_slice()
        }
        _ => false,
    }
}

fn takes_system(parameters: &[Parameter]) -> bool
    ensures { IsTrue result ↔ TakesSystem parameters.now }
{
    match parameters {
        [parameter] => is_system(parameter),
        _ => false,
    }
}

/// Tells whether this is the signature of an `async throws` func `main`, whatever it takes.
fn is_main(signature: &Signature) -> bool
    ensures { IsTrue result ↔ IsMain signature.now }
{
    if signature.name.text.as_bytes() != b"main".as_slice() {
        return false;
    }
    if !signature.modifiers.is_empty() || !signature.type_parameters.is_empty() {
        return false;
    }
    signature.is_async && signature.throws && signature.result.is_none()
}

/// The func that a source has and nothing else.
fn only_func(decls: &[Decl]) -> Option<&Func>
    ensures { MatchOption result ((func : FuncTree) → decls.now ≢ DeclTree.Func func ∷ []) (λ func. decls.now ≡ DeclTree.Func func.now ∷ []) }
{
    match decls {
        [Decl::Func(func)] => Some(func),
        _ => None,
    }
}

/// The statements of the main that a source has and nothing else.
fn main_statements(tree: &Tree) -> Option<&[sw_tree::Stmt]>
    ensures { MatchOption result ((body : List TreeStmt) → HasMain body tree.now → ⊥) (λ body. HasMain body.now tree.now) }
{
    let main = only_func(tree.decls.as_slice())?;
    if !is_main(&main.signature) {
        return None;
    }
    if !takes_system(main.signature.parameters.as_slice()) {
        return None;
    }
    Some(main.body.as_slice())
}

/// The body of the main of a thin tree; none where the tree is no thin one.
pub fn thin_body(alloc: Global, tree: &Tree) -> Result<Option<Items<Stmt>>, NoMemory>
    ensures { IfOk result (λ found. MatchOption found (IsNoThinTree tree.now) (λ body. IsThinTree (body_of body) tree.now)) }
{
    let Some(trees) = main_statements(tree) else {
        return Ok(None);
    };
    if trees.len() > MOST_STMTS {
        return Ok(None);
    }
    let Some(body) = statements(alloc, trees)? else {
        return Ok(None);
    };
    if shortest(alloc, body.as_slice())?.as_bytes().len() > LONGEST_SOURCE {
        return Ok(None);
    }
    Ok(Some(body))
}
