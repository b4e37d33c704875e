//! What a job is made of: the code of funcs with the operand types before each instruction, and what a turn of a
//! job starts from and ends with.
#![tactic(auto)]

mod code;
mod instr;
mod turn;
mod value;

pub use code::{Code, FuncCode, Shape};
pub use instr::Instr;
pub use turn::{Ask, Exit, Frame, Frames, Given, Operand, TurnEnd, TurnStart};
pub use value::{TrapKind, Ty, Value};
