//! Values of jobs, and their types.

use sw_base::{Duplicate, NoMemory, Text};

/// A value of a job.
#[derive(Debug, PartialEq, Drop)]
pub enum Value {
    /// An integer.
    Int(i64),
    /// A string, as its bytes.
    Str(Text),
    /// What a call without a result gives.
    Void,
}

impl Duplicate for Value {
    fn copy(&self) -> Result<Value, NoMemory> {
        match self {
            Value::Int(n) => Ok(Value::Int(*n)),
            Value::Str(text) => Ok(Value::Str(text.copy()?)),
            Value::Void => Ok(Value::Void),
        }
    }
}

/// The type of a value.
#[derive(Clone, Copy, Debug, PartialEq, Eq)]
pub enum Ty {
    /// Of an integer.
    Int,
    /// Of a string.
    Str,
    /// Of `Void`.
    Void,
}

impl Duplicate for Ty {
    fn copy(&self) -> Result<Ty, NoMemory> {
        Ok(*self)
    }
}

/// What ends a run of all nodes.
#[derive(Clone, Copy, Debug, PartialEq, Eq)]
pub enum TrapKind {
    /// A sum that is no `Int` of 64 bits.
    Overflow,
}
