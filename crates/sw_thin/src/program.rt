//! The programs of thin trees: funcs that have `let` and `print` statements alone.
//!
//! Definitions match on the same program as plain inductive types, `specs/Program.antt`, which `specs/ProgramView.antt`
//! gives for each value of these types.

use sqlite_items::Boxed;
use sw_base::{Items, Text};

/// A program: its funcs, in the order of the text.
#[derive(Debug, Drop)]
pub struct Program {
    pub funcs: Items<Func>,
}

/// A top-level func with the one parameter `system: NodeSystem`, which is `async` and `throws`.
#[derive(Debug, Drop)]
pub struct Func {
    pub name: Text,
    /// The statements of its body, in the order of the text.
    pub body: Items<Stmt>,
}

/// A statement.
#[derive(Debug, Drop)]
pub enum Stmt {
    /// `let NAME = EXPR`
    Let(Text, Expr),
    /// `print(EXPR)`
    Print(Expr),
}

/// An expression.
#[derive(Debug, Drop)]
pub enum Expr {
    /// An integer literal, as its value.
    Int(i64),
    /// A string literal, as the bytes of its value.
    Str(Text),
    /// A variable, by its name.
    Var(Text),
    /// `LEFT + RIGHT`
    Add(Boxed<Expr>, Boxed<Expr>),
}
