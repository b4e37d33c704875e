//! Expressions with their types.

use crate::entity::Entity;
use sqlite_items::{Boxed, Items};
use sw_base::{Span, Text};
use sw_tree::{BinaryOperator, PrefixOperator, TryForm};
use sw_value::Ty;

/// An expression with its type.
#[derive(Debug, Drop)]
#[cycle(typed)]
pub struct Typed {
    /// None where the expression or a part of it breaks a rule, or where what it names has no type.
    pub ty: Option<Ty>,
    /// Its first token.
    pub first: Span,
    pub form: Form,
}

/// A variable, by its number among those of its body, from 0.
#[derive(Clone, Copy, Debug, PartialEq, Eq)]
pub struct Variable {
    pub number: u32,
    /// Whether it may be assigned.
    pub is_var: bool,
}

/// What `??` gives.
#[derive(Clone, Copy, Debug, PartialEq, Eq)]
pub enum Coalescing {
    /// The value that is in the left operand, or the right operand.
    Value,
    /// The left operand where it is present, or else the right one, which is an optional too.
    Optional,
}

/// What an expression means.
#[derive(Debug, Drop)]
#[cycle(typed)]
pub enum Form {
    Integer(i64),
    Bool(bool),
    /// The text up to the first `\( )`, and what follows it.
    Text(Boxed<Text>, Items<TypedPiece>),
    Nil,
    Variable(Variable),
    SelfValue,
    /// What stands as a value: a property or a case without a payload; at its name.
    Member(Entity, Receiver, Span),
    /// A call, at the called name.
    Call(Entity, Receiver, Span, Items<Typed>),
    /// What names nothing, as its parts.
    Unresolved(Items<Typed>),
    /// The array and the index, at `[`.
    Index(Span, Boxed<(Typed, Typed)>),
    Array(Items<Typed>),
    /// The operands of an operator other than `??`, at the operator.
    Binary(BinaryOperator, Span, Boxed<(Typed, Typed)>),
    /// The operands of `??`, at it.
    Coalesce(Coalescing, Span, Boxed<(Typed, Typed)>),
    /// A sign and its operand, at the sign.
    Prefix(PrefixOperator, Span, Boxed<Typed>),
    /// The condition, and what is given where it holds and where it does not.
    Ternary(Boxed<Typed>, Boxed<(Typed, Typed)>),
    /// At `!`.
    Force(Span, Boxed<Typed>),
    /// At `try`.
    Try(TryForm, Span, Boxed<Typed>),
    /// At `await`.
    Await(Span, Boxed<Typed>),
    Paren(Boxed<Typed>),
    /// From a type to its optional.
    Present(Boxed<Typed>),
    /// To `any` of a protocol, or to `any Error`.
    Erase(Boxed<Typed>),
    /// The call of an `async let` as it is issued.
    Issue(Span, Boxed<Typed>),
    /// The outcome of an issued call, by its name.
    Wait(Variable),
}

/// On what a member is used.
#[derive(Debug, Drop)]
#[cycle(typed)]
pub enum Receiver {
    /// On nothing: it is of the file, or of a type and not of its instances.
    Nothing,
    /// On `self`, which is not written.
    Own,
    Value(Boxed<Typed>),
}

/// `\( )` in a string, and the text after it.
#[derive(Debug, Drop)]
#[cycle(typed)]
pub struct TypedPiece {
    pub value: Typed,
    /// The bytes that the text up to the next `\( )` or to the string's end stands for.
    pub text: Text,
}
