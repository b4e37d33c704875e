//! Typed code and starts of turns: each public call once where memory is ample: no contract says that memory is there.

use std::alloc::Global;
use std::test::Fail;
use sw_base::{Duplicate, FuncNo, Items, NoMemory, Stack, Text};
use sw_job::{Code, Frame, FuncCode, Given, Instr, Operand, Shape, TurnStart, Ty, Value};

// A program of one func, which only returns.
fn returning(alloc: Global) -> Result<Code, NoMemory> {
    let mut instrs = Items::new(alloc);
    instrs.push(Instr::ReturnVoid)?;
    let mut shapes = Items::new(alloc);
    shapes.push(Shape {
        variables: 0,
        parts: Stack::new(alloc),
    })?;
    let mut funcs = Items::new(alloc);
    funcs.push(FuncCode {
        result: Ty::Void,
        variables: Items::new(alloc),
        instrs,
        shapes,
    })?;
    Ok(Code::new(funcs))
}

// A start that gives `Void` to one frame, which holds a string and an integer.
fn holding(alloc: Global) -> Result<TurnStart, NoMemory> {
    let mut operands = Stack::new(alloc);
    operands.push(Operand::Value(Value::Str(Text::from_bytes(alloc, b"hi")?)))?;
    operands.push(Operand::Value(Value::Int(-1)))?;
    let mut frames = Stack::new(alloc);
    frames.push(Frame {
        func: FuncNo(0),
        address: 2,
        operands,
    })?;
    Ok(TurnStart {
        frames,
        given: Given::Value(Value::Void),
    })
}

#[test]
fn code_and_starts_are_made_where_memory_is_there(rt: HostRuntime) -> Result<(), Fail> {
    let code = returning(rt.alloc())?;
    assert_eq!(rt; code.funcs().len(), 1);
    assert!(rt;
        code.func(FuncNo(0))
            .is_some_and(|func| func.instrs.at(0) == &Instr::ReturnVoid)
    );
    assert!(rt; code.func(FuncNo(1)).is_none());

    let start = holding(rt.alloc())?;
    assert!(rt; start.copy()? == start);
    assert!(rt; start.given.copy()? != Given::Nothing);
    assert!(rt;
        start
            .frames
            .get(0)
            .is_some_and(|frame| frame.operands.len() == 2)
    );
    Ok(())
}
