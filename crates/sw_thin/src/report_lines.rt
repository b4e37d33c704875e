//! The lines of a report, each of which is appended to a text.

ghost use Rattle.std.specs.Prelude.{◌≡◌, ◌+◌, ◌++◌, OnOk};
ghost use Rattle.std.specs.List.{flat_map};
ghost use Rattle.std.specs.Fmt.{decimal};
ghost use Rattle.sw_thin.specs.ReportText.{counts_text, escaped, log_line, node_line, number_line, outcome_text, task_line};

use crate::history::{TaskEnd, TaskLine};
use std::alloc::Global;
use sw_base::{NoMemory, Text};

fn push_number(alloc: Global, out: &mut Text, n: u64) -> Result<(), NoMemory>
    ensures { OnOk result (out.new ≡ out.old ++ decimal n) }
{
    let digits = n.to_string(alloc)?;
    out.push_all(digits.as_bytes())
}

fn push_number_line(alloc: Global, out: &mut Text, name: &[u8], n: u64) -> Result<(), NoMemory>
    ensures { OnOk result (out.new ≡ out.old ++ number_line name.now n) }
{
    out.push_all(name)?;
    push_number(alloc, out, n)?;
    out.push_all(b"\n")
}

/// The counts of a run in which no call was made.
pub fn push_counts(
    alloc: Global,
    out: &mut Text,
    statements: u64,
    events: u64,
) -> Result<(), NoMemory>
    ensures { OnOk result (out.new ≡ out.old ++ counts_text statements events) }
{
    push_number_line(alloc, out, b"statements ", statements)?;
    push_number_line(alloc, out, b"events ", events)?;
    out.push_all(b"calls 0\nstarted 0\nwaited 0\nsent 0\nlost 0\ndelivered 0\nnoise 0\n")
}

/// How often a node has restarted.
pub fn push_node_line(
    alloc: Global,
    out: &mut Text,
    node: u64,
    restarts: u64,
) -> Result<(), NoMemory>
    ensures { OnOk result (out.new ≡ out.old ++ node_line node restarts) }
{
    out.push_all(b"node ")?;
    push_number(alloc, out, node)?;
    out.push_all(b" restarts ")?;
    push_number(alloc, out, restarts)?;
    out.push_all(b"\n")
}

// A printed line on one line: what would break it is escaped.
fn push_escaped(out: &mut Text, text: &[u8]) -> Result<(), NoMemory>
    ensures { OnOk result (out.new ≡ out.old ++ escaped text.now) }
{
    for c in text {
        match *c {
            b'\\' => out.push_all(b"\\\\")?,
            b'\n' => out.push_all(b"\\n")?,
            b'\r' => out.push_all(b"\\r")?,
            c => out.push_all(&[c])?,
        }
    }
    Ok(())
}

fn push_log_line(alloc: Global, out: &mut Text, node: u64, text: &[u8]) -> Result<(), NoMemory>
    ensures { OnOk result (out.new ≡ out.old ++ log_line node text.now) }
{
    out.push_all(b"log ")?;
    push_number(alloc, out, node)?;
    out.push_all(b" ")?;
    push_escaped(out, text)?;
    out.push_all(b"\n")
}

/// The lines that a node printed, in order.
pub fn push_log(alloc: Global, out: &mut Text, node: u64, log: &[Text]) -> Result<(), NoMemory>
    ensures { OnOk result (out.new ≡ out.old ++ flat_map (log_line node) log.now) }
{
    for line in log {
        push_log_line(alloc, out, node, line.as_bytes())?;
    }
    Ok(())
}

fn outcome_text(end: TaskEnd) -> &'static [u8]
    ensures { result.now ≡ outcome_text end }
{
    match end {
        TaskEnd::Returned => b"returned",
        TaskEnd::Unfinished => b"unfinished",
    }
}

/// How a root task has ended.
pub fn push_task_line(alloc: Global, out: &mut Text, task: &TaskLine) -> Result<(), NoMemory>
    ensures { OnOk result (out.new ≡ out.old ++ task_line task.now) }
{
    out.push_all(b"task ")?;
    push_number(alloc, out, task.task)?;
    out.push_all(b" node ")?;
    push_number(alloc, out, u64::from(task.node.0))?;
    out.push_all(b" epoch ")?;
    push_number(alloc, out, u64::from(task.epoch))?;
    out.push_all(b" ")?;
    out.push_all(outcome_text(task.end))?;
    out.push_all(b"\n")
}
