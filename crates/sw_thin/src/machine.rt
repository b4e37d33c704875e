//! The job machine, which runs a turn of a job on code whose operand types agree.

ghost use Rattle.std.specs.Prelude.{◌≡◌, ◌+◌, ◌<◌, ◌≤◌, List, [], ◌∷◌, drop, IfOk};
ghost use Rattle.std.specs.Bool.{OnTrue};
ghost use Rattle.sw_job.specs.Machine.{frame, fetch, is_take, code_act, code_enter, code_give, code_step, CodeEnds, CodeReaches};
ghost use Rattle.sw_job.specs.Values.{printed, sum_of};
ghost use Rattle.sw_job.specs.Typed.{all_ahead, TypedFrames, TypedLeft, TypedStart};
ghost use Rattle.sw_job.specs.declared.instr.Instr.TheVariants.{Add, BeginStmt, Load, Print};
ghost use Rattle.sw_job.specs.declared.turn.Frame.{Frame};
ghost use Rattle.sw_job.specs.declared.turn.Given.TheVariants.{Value as GivenValue};
ghost use Rattle.sw_job.specs.declared.turn.Operand.TheVariants.{Value as Operation};
ghost use Rattle.sw_thin.specs.Turn.{outcome_of, EnterTo, IsNext, RunEnds, StepTo};

use std::alloc::Global;
use sw_base::{Duplicate, NoMemory, Stack, Text};
use sw_job::{
    Ask, Code, Exit, Frame, Frames, Given, Instr, Operand, TrapKind, TurnEnd, TurnStart, Value,
};

/// What an instruction leads to, beside the frames below, which it changes.
#[derive(Drop)]
enum Next {
    /// This frame is on top, and so many statements were begun.
    Goes(Frame, u64),
    /// The turn ends.
    Stops(Exit, u64),
    /// The instruction has no meaning here: typed code never comes to it.
    NoStep,
}

/// What an operator gives.
#[derive(Drop)]
enum Outcome {
    /// This value.
    Gives(Value),
    /// The run of all nodes ends.
    Traps(TrapKind),
    /// The operator has no meaning for these values: typed code never comes to it.
    Wrong,
}

/// Runs one turn of a job: up to an ask, to its func's return, to a trap, or to just before the statement
/// that would be one too many. The turn takes the frames of its start as they are; where memory runs out they
/// are gone.
pub fn run_job(alloc: Global, code: &Code, start: TurnStart, max: u64) -> Result<TurnEnd, NoMemory>
    requires typed { TypedStart code.now start.given start.frames }
    requires at_least_one { 1 ≤ max }
    ensures run { IfOk result (λ end. CodeReaches code.now max start.given start.frames (CodeEnds end.exit end.frames end.begun)) }
    ensures left { IfOk result (λ end. TypedLeft code.now end.exit end.frames) }
    ensures nearer { IfOk result (λ end. all_ahead code.now end.frames < all_ahead code.now start.frames) }
    ensures counted { IfOk result (λ end. end.begun ≤ max) }
    ensures spent { IfOk result (λ end. end.begun + all_ahead code.now end.frames ≤ all_ahead code.now start.frames) }
{
    let TurnStart { mut frames, given } = start;
    match typed_enter(code, given, &mut frames)? {
        Next::Goes(top, _) => run_frames(alloc, code, max, top, frames),
        Next::Stops(exit, begun) => Ok(TurnEnd {
            exit,
            frames,
            begun,
        }),
        Next::NoStep => unreachable!(),
    }
}

// Runs typed frames to the end of the turn.
fn run_frames(
    alloc: Global,
    code: &Code,
    max: u64,
    top: Frame,
    below: Frames,
) -> Result<TurnEnd, NoMemory>
    requires typed { TypedFrames code.now top below }
    requires at_least_one { 1 ≤ max }
    ensures { IfOk result (RunEnds code.now max top below) }
{
    let mut top = top;
    let mut frames = below;
    let mut begun = 0;
    loop {
        match typed_step(alloc, code, max, top, &mut frames, begun)? {
            Next::Goes(next, now) => {
                top = next;
                begun = now;
            }
            Next::Stops(exit, begun) => {
                return Ok(TurnEnd {
                    exit,
                    frames,
                    begun,
                });
            }
            Next::NoStep => unreachable!(),
        }
    }
}

// Enters a turn from a typed start, which has a meaning.
fn typed_enter(code: &Code, given: Given, frames: &mut Frames) -> Result<Next, NoMemory>
    requires { TypedStart code.now given frames.old }
    ensures { IfOk result (λ next. EnterTo code.now given frames.old next frames.new) }
{
    // For its clause `entries`: each typed start is entered safely.
    let _funcs = code.funcs();
    enter(code, given, frames)
}

// One instruction of typed frames, which has a meaning.
fn typed_step(
    alloc: Global,
    code: &Code,
    max: u64,
    top: Frame,
    below: &mut Frames,
    begun: u64,
) -> Result<Next, NoMemory>
    requires typed { TypedFrames code.now top below.old }
    requires counted { begun ≤ max }
    ensures { IfOk result (λ next. StepTo code.now max top below.old begun next below.new) }
{
    // For its clause `steps`: each step of typed frames is safe.
    let _funcs = code.funcs();
    step(alloc, code, max, top, below, begun)
}

// Enters a turn: hands in what the job is given.
fn enter(code: &Code, given: Given, frames: &mut Frames) -> Result<Next, NoMemory>
    ensures { IfOk result (λ next. IsNext (code_enter code.now given frames.old) next frames.new) }
{
    match given {
        Given::Nothing => Ok(go_on(code, frames)),
        Given::Value(value) => resume(code, value, frames),
    }
}

// Goes on where no value is awaited.
fn go_on(code: &Code, frames: &mut Frames) -> Next
    ensures { IsNext (code_enter code.now Given.Nothing frames.old) result frames.new }
{
    match frames.pop() {
        Some(top) if !awaits(code, &top) => Next::Goes(top, 0),
        _ => Next::NoStep,
    }
}

// Goes on with the value that is awaited.
fn resume(code: &Code, value: Value, frames: &mut Frames) -> Result<Next, NoMemory>
    ensures { IfOk result (λ next. IsNext (code_enter code.now (GivenValue value) frames.old) next frames.new) }
{
    if frames.is_empty() {
        return Ok(Next::NoStep);
    }
    give(code, value, frames, 0)
}

// One instruction.
fn step(
    alloc: Global,
    code: &Code,
    max: u64,
    top: Frame,
    below: &mut Frames,
    begun: u64,
) -> Result<Next, NoMemory>
    ensures { IfOk result (λ next. IsNext (code_step code.now max top below.old begun) next below.new) }
{
    let Some(func) = code.func(top.func) else {
        return Ok(Next::NoStep);
    };
    let Some(instr) = func.instrs.get(top.address) else {
        return Ok(Next::NoStep);
    };
    // For its clause: an address in the code is below a length, so the next one is still a `usize`.
    let count = func.instrs.len();
    prove!(top.address < count);
    act(alloc, code, max, instr, top, below, begun)
}

// What this instruction, at which the top frame stands, leads to.
fn act(
    alloc: Global,
    code: &Code,
    max: u64,
    instr: &Instr,
    top: Frame,
    below: &mut Frames,
    begun: u64,
) -> Result<Next, NoMemory>
    requires { top.address < usize.MAX }
    ensures { IfOk result (λ next. IsNext (code_act code.now max instr.now top.func.0 top.address top.operands below.old begun) next below.new) }
{
    match instr {
        Instr::BeginStmt => begin_statement(max, top, below, begun),
        Instr::PushInt(n) => push(Value::Int(*n), top, begun),
        Instr::PushStr(text) => push_text(alloc, text, top, begun),
        Instr::Load(depth) => load(*depth, top, begun),
        Instr::Add => add(alloc, top, below, begun),
        Instr::Print => print(alloc, top, below, begun),
        Instr::Take => Ok(Next::NoStep),
        Instr::Discard(count) => Ok(discard(*count, top, begun)),
        Instr::ReturnVoid => give(code, Value::Void, below, begun),
    }
}

// Begins a statement, or ends the turn just before it.
fn begin_statement(max: u64, top: Frame, below: &mut Frames, begun: u64) -> Result<Next, NoMemory>
    requires { top.address < usize.MAX }
    ensures { IfOk result (λ next. IsNext (code_act [] max BeginStmt top.func.0 top.address top.operands below.old begun) next below.new) }
{
    if begun < max {
        Ok(Next::Goes(advanced(top), begun + 1))
    } else {
        below.push(top)?;
        Ok(Next::Stops(Exit::Slice, begun))
    }
}

// The string is the job's own: it is allocated by `alloc`.
fn push_text(alloc: Global, text: &Text, top: Frame, begun: u64) -> Result<Next, NoMemory>
    requires { top.address < usize.MAX }
    ensures { IfOk result (λ next. next ≡ Next.Goes (frame top.func.0 (top.address + 1) (Operation (Value.Str text.now) ∷ top.operands)) begun) }
{
    let text = Text::from_bytes(alloc, text.as_bytes())?;
    push(Value::Str(text), top, begun)
}

// A copy of the operand at this depth.
fn load(depth: usize, top: Frame, begun: u64) -> Result<Next, NoMemory>
    requires { top.address < usize.MAX }
    ensures { IfOk result (λ next. (below : List Frame) → IsNext (code_act [] 0 (Load depth) top.func.0 top.address top.operands below begun) next below) }
{
    let Some(Operand::Value(held)) = top.operands.get(depth) else {
        return Ok(Next::NoStep);
    };
    let copied = held.copy()?;
    push(copied, top, begun)
}

// The sum of the two newest operands, of which the newest is the right one; or a trap, which no frame outlives.
fn add(alloc: Global, top: Frame, below: &mut Frames, begun: u64) -> Result<Next, NoMemory>
    requires { top.address < usize.MAX }
    ensures { IfOk result (λ next. IsNext (code_act [] 0 Add top.func.0 top.address top.operands below.old begun) next below.new) }
{
    let mut rest = top;
    let Some(Operand::Value(right)) = rest.operands.pop() else {
        return Ok(Next::NoStep);
    };
    let Some(Operand::Value(left)) = rest.operands.pop() else {
        return Ok(Next::NoStep);
    };
    match sum_values(left, right) {
        Outcome::Gives(value) => push(value, rest, begun),
        Outcome::Traps(kind) => {
            *below = Stack::new(alloc);
            Ok(Next::Stops(Exit::Trap(kind), begun))
        }
        Outcome::Wrong => Ok(Next::NoStep),
    }
}

fn sum_values(left: Value, right: Value) -> Outcome
    ensures { outcome_of result ≡ sum_of left right }
{
    match (left, right) {
        (Value::Int(left), Value::Int(right)) => match left.checked_add(right) {
            Some(sum) => Outcome::Gives(Value::Int(sum)),
            None => Outcome::Traps(TrapKind::Overflow),
        },
        _ => Outcome::Wrong,
    }
}

// The newest operand is asked to be printed, and what the ask gives is awaited.
fn print(alloc: Global, top: Frame, below: &mut Frames, begun: u64) -> Result<Next, NoMemory>
    requires { top.address < usize.MAX }
    ensures { IfOk result (λ next. IsNext (code_act [] 0 Print top.func.0 top.address top.operands below.old begun) next below.new) }
{
    let mut waiting = advanced(top);
    let Some(Operand::Value(value)) = waiting.operands.pop() else {
        return Ok(Next::NoStep);
    };
    match text_of(alloc, value)? {
        Some(text) => {
            below.push(waiting)?;
            Ok(Next::Stops(Exit::Ask(Ask::Print(text)), begun))
        }
        None => Ok(Next::NoStep),
    }
}

// The text of a value that can be printed.
fn text_of(alloc: Global, value: Value) -> Result<Option<Text>, NoMemory>
    ensures { IfOk result (λ text. text ≡ printed value) }
{
    match value {
        Value::Int(n) => Ok(Some(Text::from_vec(alloc, n.to_string(alloc)?.into_bytes())?)),
        Value::Str(text) => Ok(Some(text)),
        Value::Void => Ok(None),
    }
}

fn discard(count: usize, top: Frame, begun: u64) -> Next
    requires { top.address < usize.MAX }
    ensures { result ≡ Next.Goes (frame top.func.0 (top.address + 1) (drop count top.operands)) begun }
{
    let mut top = advanced(top);
    top.operands.discard(count);
    Next::Goes(top, begun)
}

// A value for the frame that awaits it, or for the caller of all.
fn give(code: &Code, value: Value, below: &mut Frames, begun: u64) -> Result<Next, NoMemory>
    ensures { IfOk result (λ next. IsNext (code_give code.now value below.old begun) next below.new) }
{
    match below.pop() {
        None => Ok(Next::Stops(Exit::Return(value), begun)),
        Some(caller) => {
            if awaits(code, &caller) {
                push(value, caller, begun)
            } else {
                Ok(Next::NoStep)
            }
        }
    }
}

// One more operand, at the next address.
fn push(value: Value, top: Frame, begun: u64) -> Result<Next, NoMemory>
    requires { top.address < usize.MAX }
    ensures { IfOk result (λ next. next ≡ Next.Goes (frame top.func.0 (top.address + 1) (Operation value ∷ top.operands)) begun) }
{
    let mut top = advanced(top);
    top.operands.push(Operand::Value(value))?;
    Ok(Next::Goes(top, begun))
}

// The frame at its next address.
fn advanced(top: Frame) -> Frame
    requires { top.address < usize.MAX }
    ensures { result ≡ frame top.func.0 (top.address + 1) top.operands }
{
    Frame {
        address: top.address + 1,
        ..top
    }
}

// Tells whether a frame stands where a value is awaited.
fn awaits(code: &Code, waiting: &Frame) -> bool
    ensures take { result ≡ is_take (fetch code.now waiting.now.func.0 waiting.now.address) }
    ensures within { OnTrue result (waiting.now.address < usize.MAX) }
{
    let Some(func) = code.func(waiting.func) else {
        return false;
    };
    // For its clause: the address is below a length, as in `step`.
    let count = func.instrs.len();
    match func.instrs.get(waiting.address) {
        Some(Instr::Take) => {
            prove!(waiting.address < count);
            true
        }
        _ => false,
    }
}
