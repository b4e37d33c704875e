//! A turn of a job: what it starts from, and how it ends.

use crate::value::{TrapKind, Value};
use sw_base::{Duplicate, FuncNo, NoMemory, Stack, Text};

/// One of the things that a frame holds.
#[derive(Debug, PartialEq, Drop)]
pub enum Operand {
    /// A value that was evaluated.
    Value(Value),
}

impl Duplicate for Operand {
    fn copy(&self) -> Result<Operand, NoMemory> {
        match self {
            Operand::Value(value) => Ok(Operand::Value(value.copy()?)),
        }
    }
}

/// A func that runs or waits.
#[derive(Debug, PartialEq, Drop)]
pub struct Frame {
    /// Which func it is.
    pub func: FuncNo,
    /// The address of its next instruction.
    pub address: usize,
    /// What it holds, the newest first: its variables, and parts that were evaluated.
    pub operands: Stack<Operand>,
}

impl Duplicate for Frame {
    fn copy(&self) -> Result<Frame, NoMemory> {
        Ok(Frame {
            func: self.func,
            address: self.address,
            operands: self.operands.copy()?,
        })
    }
}

/// The frames of a job, the callee before its caller.
pub type Frames = Stack<Frame>;

/// What a job is given at the start of a turn.
#[derive(Debug, PartialEq, Drop)]
pub enum Given {
    /// At its first turn, and after a slice.
    Nothing,
    /// The value that it awaits.
    Value(Value),
}

impl Duplicate for Given {
    fn copy(&self) -> Result<Given, NoMemory> {
        match self {
            Given::Nothing => Ok(Given::Nothing),
            Given::Value(value) => Ok(Given::Value(value.copy()?)),
        }
    }
}

/// What a turn starts from.
#[derive(Debug, PartialEq, Drop)]
pub struct TurnStart {
    /// The funcs that wait.
    pub frames: Frames,
    /// What the first of them is given.
    pub given: Given,
}

impl Duplicate for TurnStart {
    fn copy(&self) -> Result<TurnStart, NoMemory> {
        Ok(TurnStart {
            frames: self.frames.copy()?,
            given: self.given.copy()?,
        })
    }
}

/// What a job asks of its node.
#[derive(Debug, PartialEq, Drop)]
pub enum Ask {
    /// To print a line. The job is given `Void` at its next turn.
    Print(Text),
}

/// How a turn ends.
#[derive(Debug, PartialEq, Drop)]
pub enum Exit {
    /// The job asks its node for this, and awaits what it is given.
    Ask(Ask),
    /// The job's func has returned this value.
    Return(Value),
    /// The run of all nodes ends.
    Trap(TrapKind),
    /// As many statements were begun as may be, and another one is next.
    Slice,
}

/// What a turn ends with.
#[derive(Debug, PartialEq, Drop)]
pub struct TurnEnd {
    /// Why it ends.
    pub exit: Exit,
    /// The funcs that still wait: what the next turn starts from, or nothing after a return.
    pub frames: Frames,
    /// How many statements it began.
    pub begun: u64,
}
