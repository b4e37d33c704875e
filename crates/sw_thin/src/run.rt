//! One run: from the body of a `main` to the report of its world.

ghost use Rattle.std.specs.Prelude.{◌≡◌, ◌∷◌, [], None, IfOk, length};
ghost use Rattle.sw_thin.specs.Program.{main_func};
ghost use Rattle.sw_thin.specs.ProgramView.{body_of, funcs_of};
ghost use Rattle.sw_thin.specs.Thin.{IsThin};
ghost use Rattle.sw_thin.specs.ReportText.{report_text};
ghost use Rattle.sw_thin.specs.World.{state_of};
ghost use Rattle.sw_thin.specs.Reports.{Reports};

use crate::lowering::lower;
use crate::program::{Func, Program, Stmt};
use crate::report_lines::{push_counts, push_log, push_node_line, push_task_line};
use crate::world::World;
use std::alloc::Global;
use sw_base::{FuncNo, Items, NoMemory, Text};

/// The number of the func of the root task.
const MAIN: FuncNo = FuncNo(0);

// The program whose one func is the root task's.
fn main_program(alloc: Global, body: Items<Stmt>) -> Result<Program, NoMemory>
    ensures { IfOk result (λ program. funcs_of program ≡ main_func (body_of body) ∷ []) }
{
    let name = Text::from_bytes(alloc, b"main")?;
    let mut funcs = Items::new(alloc);
    funcs.push(Func { name, body })?;
    Ok(Program { funcs })
}

// The report of a world.
fn report(alloc: Global, world: &World) -> Result<Text, NoMemory>
    ensures { IfOk result (λ text. text ≡ report_text (state_of world.now.job world.now.log world.now.begun None) (length world.now.history)) }
{
    let mut out = Text::from_bytes(alloc, b"end done\n")?;
    push_counts(alloc, &mut out, world.begun(), world.history().len() as u64)?;
    push_node_line(alloc, &mut out, 0, 0)?;
    push_log(alloc, &mut out, 0, world.log())?;
    push_task_line(alloc, &mut out, &world.task())?;
    Ok(out)
}

/// Runs the `main` of this body to its end, as the only root task of one node, and gives the report of the run.
pub fn run_main(alloc: Global, body: Items<Stmt>) -> Result<Text, NoMemory>
    requires { IsThin (body_of body) }
    ensures { IfOk result (λ text. Reports (main_func (body_of body)) text) }
{
    let program = main_program(alloc, body)?;
    let code = lower(alloc, &program)?;
    let mut world = World::new(alloc, code, MAIN)?;
    world.drive()?;
    // For its clause `legal`: the events are a legal history, and no legal history of a thin tree comes to a trap.
    let _ = world.history();
    if world.trap().is_some() {
        unreachable!();
    }
    // Named, so that the proof speaks of the text and not of a result.
    let text = report(alloc, &world)?;
    Ok(text)
}
