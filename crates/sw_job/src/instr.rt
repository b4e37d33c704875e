//! The instructions of the job machine.

use sw_base::Text;

/// One instruction. What it takes are the newest operands of its frame, what it gives becomes the newest.
#[derive(Debug, PartialEq, Drop)]
pub enum Instr {
    /// Begins a statement. Where no more may begin in this turn, the turn ends just before it.
    BeginStmt,
    /// Gives an integer.
    PushInt(i64),
    /// Gives a string.
    PushStr(Text),
    /// Gives a copy of the operand at this depth, where 0 is the newest.
    Load(usize),
    /// Takes two integers and gives their sum, or traps where it overflows.
    Add,
    /// Takes a value and asks to print it. What the ask gives is awaited at the next instruction.
    Print,
    /// Stands where a value is awaited, and is passed as the value is given.
    Take,
    /// Takes so many operands.
    Discard(usize),
    /// Ends the func without a value.
    ReturnVoid,
}
