//! Code of funcs, whose operand types agree.

ghost use Rattle.std.specs.Prelude.{◌≡◌, slice_get};
ghost use Rattle.std.specs.Option.{option_copied};

use crate::instr::Instr;
use crate::value::Ty;
use std::marker::Model;
use sw_base::{FuncNo, Items, Stack};

/// What the operands before an instruction are: the first so many variables of the func, and above them
/// parts of these types.
#[derive(Debug, PartialEq, Drop)]
pub struct Shape {
    pub variables: usize,
    /// The types of the parts, the newest first.
    pub parts: Stack<Ty>,
}

/// The code of one func.
#[derive(Debug, PartialEq, Drop)]
pub struct FuncCode {
    /// The type of what the func gives.
    pub result: Ty,
    /// The types of the func's variables, in the order in which they are declared.
    pub variables: Items<Ty>,
    /// What the func does. An instruction's address is its index.
    pub instrs: Items<Instr>,
    /// Before each instruction, what the operands are.
    pub shapes: Items<Shape>,
}

/// The code of a program's funcs, by their numbers. Its operand types agree at each instruction.
#[derive(Debug, Drop)]
pub struct Code {
    funcs: Items<FuncCode>,
}

impl Model for Code {
    ghost use Rattle.std.specs.Prelude.{List};
    ghost use Rattle.sw_job.specs.declared.code.FuncCode.{FuncCode};

    ghost Value = { List FuncCode };

    ghost view = { λ c. c.funcs };

    ghost use Rattle.sw_job.specs.Typed.{IsTyped};

    ghost invariant = { λ c. IsTyped c.funcs };
}

impl Code {
    ghost use Rattle.sw_job.specs.Typed.{IsTyped, NeverStuck, EachStepIsSafe, EachEntryIsSafe};

    /// The code of these funcs, whose operand types agree.
    pub fn new(funcs: Items<FuncCode>) -> Code
        requires { IsTyped funcs }
        ensures { result ≡ funcs }
    {
        Code { funcs }
    }

    /// The code of a func; none past the last.
    pub fn func(&self, func: FuncNo) -> Option<&FuncCode>
        ensures func { option_copied result ≡ slice_get self.now func.0 }
        ensures typed { IsTyped self.now }
        ensures never_stuck { NeverStuck self.now }
    {
        self.funcs().get(func.0 as usize)
    }

    /// The code of all funcs, with what holds of typed code: a turn is entered safely from each start that is typed
    /// for it, each step of the turn is safe, and none is stuck.
    pub fn funcs(&self) -> &[FuncCode]
        ensures value { result.now ≡ self.now }
        ensures typed { IsTyped self.now }
        ensures entries { EachEntryIsSafe self.now }
        ensures steps { EachStepIsSafe self.now }
        ensures never_stuck { NeverStuck self.now }
    {
        self.funcs.as_slice()
    }
}
