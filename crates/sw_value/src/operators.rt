//! The operators.

ghost use Rattle.std.specs.Prelude.{◌≡◌, ◌≢◌, ◌++◌, ◌↔◌, IsTrue, IfOk};
ghost use Rattle.sw_value.specs.declared.operators.Op.TheVariants as op;
ghost use Rattle.sw_value.specs.declared.value.Value.{out-Value};
ghost use Rattle.sw_value.specs.Apply.{Answers, HasMeaning, IsIntOrTrap, Wrong, applied, ints, texts, arrays, int_or_trap, is_zero, bytes_lt, is_equality, is_of_texts, is_sum, joins, means};

use crate::MOST;
use crate::equal::same;
use crate::shared::Shared;
use crate::value::Value;
use crate::values::copy_all;
use sqlite_items::Items;
use std::alloc::Global;
use sw_base::{Duplicate, NoMemory, Text};

/// An operator between two values.
#[derive(Clone, Copy, Debug, PartialEq, Eq)]
pub enum Op {
    /// `*`
    Mul,
    /// `/`
    Div,
    /// `%`
    Rem,
    /// `+`
    Add,
    /// `-`
    Sub,
    /// `==`
    Eq,
    /// `!=`
    Ne,
    /// `<`
    Lt,
    /// `<=`
    Le,
    /// `>`
    Gt,
    /// `>=`
    Ge,
}

/// What ends a run of all nodes.
#[derive(Clone, Copy, Debug, PartialEq, Eq)]
pub enum TrapKind {
    /// A number that is no `Int`.
    Overflow,
    DivideByZero,
    /// An index that the array does not have.
    IndexOutOfRange,
    /// `!` of `nil`.
    NilUnwrap,
    /// A range whose end is less than its start.
    RangeInverted,
    /// An identity on a node that the plan does not have.
    BadNode,
    /// A name that the node gave to an actor and has not got back.
    NameTaken,
    /// A string or an array that is longer than it may be.
    TooLong,
}

/// Why an operator gives no value.
#[derive(Clone, Copy, Debug, PartialEq, Eq)]
pub enum OpError {
    Trap(TrapKind),
    NoMemory,
}

impl From<NoMemory> for OpError {
    ghost use Rattle.sw_value.specs.declared.operators.OpError.TheVariants.{NoMemory};

    ghost from_gives = { λ _ e. e ≡ NoMemory };

    fn from(_: NoMemory) -> OpError {
        OpError::NoMemory
    }
}

/// Tells whether an operator has a meaning for two values.
///
/// `==` and `!=` have one for all values, the others for two integers, `+` and the comparisons for two
/// strings, and `+` for two arrays.
pub fn has_meaning(op: Op, a: &Value, b: &Value) -> bool
    ensures { IsTrue result ↔ HasMeaning op a.now b.now }
{
    means(op, a, b)
}

fn means(op: Op, a: &Value, b: &Value) -> bool
    ensures { result ≡ means op a.now b.now }
{
    is_equality(op) || joins(op, a, b)
}

fn joins(op: Op, a: &Value, b: &Value) -> bool
    ensures { result ≡ joins op (out-Value a.now) (out-Value b.now) }
{
    match (a, b) {
        (Value::Int(_), Value::Int(_)) => true,
        (Value::Str(_), Value::Str(_)) => is_of_texts(op),
        (Value::List(_), Value::List(_)) => is_sum(op),
        _ => false,
    }
}

fn is_equality(op: Op) -> bool
    ensures { result ≡ is_equality op }
{
    match op {
        Op::Eq | Op::Ne => true,
        _ => false,
    }
}

fn is_of_texts(op: Op) -> bool
    ensures { result ≡ is_of_texts op }
{
    match op {
        Op::Mul | Op::Div | Op::Rem | Op::Sub => false,
        _ => true,
    }
}

fn is_sum(op: Op) -> bool
    ensures { result ≡ is_sum op }
{
    match op {
        Op::Add => true,
        _ => false,
    }
}

/// What an operator gives for two values for which it has a meaning, or its trap.
pub fn apply(alloc: Global, op: Op, a: &Value, b: &Value) -> Result<Value, OpError>
    requires { HasMeaning op a.now b.now }
    ensures { Answers result (applied op a.now b.now) }
{
    match op {
        Op::Eq => Ok(Value::Bool(same(a, b))),
        Op::Ne => Ok(Value::Bool(!same(a, b))),
        Op::Mul | Op::Div | Op::Rem | Op::Add | Op::Sub | Op::Lt | Op::Le | Op::Gt | Op::Ge => {
            match (a, b) {
                (Value::Int(m), Value::Int(n)) => on_ints(op, *m, *n),
                (Value::Str(s), Value::Str(t)) => on_texts(alloc, op, s.get(), t.get()),
                (Value::List(xs), Value::List(ys)) => {
                    on_arrays(alloc, op, xs.get().as_slice(), ys.get().as_slice())
                }
                _ => unreachable!(),
            }
        }
    }
}

fn on_ints(op: Op, m: i64, n: i64) -> Result<Value, OpError>
    requires { ints op m n ≢ Wrong }
    ensures { Answers result (ints op m n) }
{
    match op {
        Op::Mul => int_or_trap(m.checked_mul(n)),
        Op::Div => divided(m, n),
        Op::Rem => remaining(m, n),
        Op::Add => int_or_trap(m.checked_add(n)),
        Op::Sub => int_or_trap(m.checked_sub(n)),
        Op::Lt => Ok(Value::Bool(m < n)),
        Op::Le => Ok(Value::Bool(m <= n)),
        Op::Gt => Ok(Value::Bool(m > n)),
        Op::Ge => Ok(Value::Bool(m >= n)),
        Op::Eq | Op::Ne => unreachable!(),
    }
}

fn int_or_trap(n: Option<i64>) -> Result<Value, OpError>
    ensures { IsIntOrTrap n result }
{
    match n {
        Some(n) => Ok(Value::Int(n)),
        None => Err(OpError::Trap(TrapKind::Overflow)),
    }
}

fn divided(m: i64, n: i64) -> Result<Value, OpError>
    ensures { Answers result (ints op.Div m n) }
{
    if n == 0 {
        return Err(OpError::Trap(TrapKind::DivideByZero));
    }
    int_or_trap(m.checked_div(n))
}

fn remaining(m: i64, n: i64) -> Result<Value, OpError>
    ensures { Answers result (ints op.Rem m n) }
{
    if n == 0 {
        return Err(OpError::Trap(TrapKind::DivideByZero));
    }
    int_or_trap(m.checked_rem(n))
}

fn on_texts(alloc: Global, op: Op, s: &Text, t: &Text) -> Result<Value, OpError>
    requires { texts op s.now t.now ≢ Wrong }
    ensures { Answers result (texts op s.now t.now) }
{
    match op {
        Op::Add => {
            if s.as_bytes().len() > MOST || t.as_bytes().len() > MOST - s.as_bytes().len() {
                return Err(OpError::Trap(TrapKind::TooLong));
            }
            let mut joined = s.copy()?;
            joined.push_all(t.as_bytes())?;
            Ok(Value::Str(Shared::new(alloc, joined)?))
        }
        Op::Lt => Ok(Value::Bool(bytes_lt(s, t))),
        Op::Le => Ok(Value::Bool(!bytes_lt(t, s))),
        Op::Gt => Ok(Value::Bool(bytes_lt(t, s))),
        Op::Ge => Ok(Value::Bool(!bytes_lt(s, t))),
        _ => unreachable!(),
    }
}

fn bytes_lt(s: &Text, t: &Text) -> bool
    ensures { result ≡ bytes_lt s.now t.now }
{
    s.as_bytes().cmp(t.as_bytes()).is_lt()
}

fn on_arrays(alloc: Global, op: Op, xs: &[Value], ys: &[Value]) -> Result<Value, OpError>
    requires { arrays op xs.now ys.now ≢ Wrong }
    ensures { Answers result (arrays op xs.now ys.now) }
{
    if xs.len() > MOST || ys.len() > MOST - xs.len() {
        return Err(OpError::Trap(TrapKind::TooLong));
    }
    Ok(Value::List(Shared::new(alloc, joined(alloc, xs, ys)?)?))
}

fn joined(alloc: Global, xs: &[Value], ys: &[Value]) -> Result<Items<Value>, NoMemory>
    ensures { IfOk result (λ joined. joined ≡ xs.now ++ ys.now) }
{
    let mut joined = copy_all(alloc, xs)?;
    joined.append(copy_all(alloc, ys)?)?;
    Ok(joined)
}
