//! The longest walk from each number.

ghost use Rattle.std.specs.Prelude.{◌≡◌, ◌<◌, ◌≤◌, IfOk, length, true, false, ℕ};
ghost use Rattle.sw_graph.specs.Graphs.{marked, successors, entry};
ghost use Rattle.sw_graph.specs.Levels.{any_in, onward, noted, TellsWalks, AreLevels};

use crate::marks::{any_marked, is_marked, successors};
use std::alloc::Global;
use sw_base::{Items, NoMemory};

/// The level of each number: how many numbers stand on the longest walk from it, itself among them; 0 where a walk has more
/// than `most`, as where one leads to a cycle. A successor that is passed through does not count: the walk goes on to one of
/// its successors.
pub fn levels(
    alloc: Global,
    graph: &[Items<u32>],
    passed: &[bool],
    most: u8,
) -> Result<Vec<u8>, NoMemory>
    ensures length { IfOk result (λ levels. length levels.items ≡ length graph.now) }
    ensures levels { IfOk result (λ levels. AreLevels graph.now passed.now most levels.items) }
{
    let mut levels = vec![in alloc; 0; graph.len()]?;
    let mut table = whole(alloc, graph, passed)?;
    for round in 0..most {
        table = longer(alloc, graph, passed, table.as_slice())?;
        note(&mut levels, table.as_slice(), round + 1);
    }
    Ok(levels)
}

// Walks of no step begin at each number.
fn whole(alloc: Global, graph: &[Items<u32>], passed: &[bool]) -> Result<Vec<bool>, NoMemory>
    ensures length { IfOk result (λ table. length table.items ≡ length graph.now) }
    ensures walks { IfOk result (λ table. TellsWalks graph.now passed.now 0 table.items) }
{
    let table = vec![in alloc; true; graph.len()]?;
    Ok(table)
}

// Gives this level to each number that has none and at which no longer walk begins.
fn note(levels: &mut Vec<u8>, table: &[bool], level: u8)
    requires length { length levels.old.items ≡ length table.now }
    ensures length { length levels.new.items ≡ length levels.old.items }
    ensures each { (t : ℕ) → t < length table.now → entry levels.new.items t ≡ noted (entry levels.old.items t) (marked table.now t) level }
{
    for t in 0..levels.len() {
        levels[t] = noted(levels[t], table[t], level);
    }
}

fn noted(old: u8, goes_on: bool, level: u8) -> u8
    ensures { result ≡ noted old goes_on level }
{
    if old == 0 && !goes_on { level } else { old }
}

// The numbers at which a step leads to one that is marked.
fn longer(
    alloc: Global,
    graph: &[Items<u32>],
    passed: &[bool],
    table: &[bool],
) -> Result<Vec<bool>, NoMemory>
    requires table { length table.now ≡ length graph.now }
    ensures length { IfOk result (λ next. length next.items ≡ length graph.now) }
    ensures each { IfOk result (λ next. (t : ℕ) → marked next.items t ≡ any_in (onward graph.now passed.now (marked table.now)) (successors graph.now t)) }
{
    let through = through(alloc, graph, passed, table)?;
    let mut next = Vec::with_capacity(alloc, graph.len())?;
    for t in 0..graph.len() {
        next.push(any_marked(through.as_slice(), graph[t].as_slice()))?;
    }
    Ok(next)
}

// The numbers over which a step leads to one that is marked.
fn through(
    alloc: Global,
    graph: &[Items<u32>],
    passed: &[bool],
    table: &[bool],
) -> Result<Vec<bool>, NoMemory>
    requires table { length table.now ≡ length graph.now }
    ensures { IfOk result (λ through. (u : ℕ) → marked through.items u ≡ onward graph.now passed.now (marked table.now) u) }
{
    let mut through = Vec::with_capacity(alloc, graph.len())?;
    for u in 0..graph.len() {
        through.push(onward(graph, passed, table, u))?;
    }
    Ok(through)
}

fn onward(graph: &[Items<u32>], passed: &[bool], table: &[bool], u: usize) -> bool
    ensures { result ≡ onward graph.now passed.now (marked table.now) u }
{
    if is_marked(passed, u) {
        return any_marked(table, successors(graph, u));
    }
    is_marked(table, u)
}
