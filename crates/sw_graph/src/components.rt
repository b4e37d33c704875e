//! Ranks of strongly connected components, found by Tarjan's search.

ghost use Rattle.std.specs.Prelude.{◌≡◌, ◌≤◌, ◌<◌, IfOk, IsTrue, length, ℕ, true};
ghost use Rattle.std.specs.List.{Contains};
ghost use Rattle.sw_graph.specs.Cycles.{NeverRise};
ghost use Rattle.sw_graph.specs.Graphs.{entry};

use crate::marks::{entry, successors};
use std::alloc::Global;
use sw_base::{Items, NoMemory};

/// The numbers of a graph by the strongly connected components to which they belong.
#[derive(Drop)]
pub struct Ranked {
    /// The rank of each number.
    pub ranks: Vec<u32>,
    /// The numbers, by their ranks.
    pub order: Vec<u32>,
}

/// Ranks that no edge raises. They are meant to be those of strongly connected components, and the order one in which each
/// number stands behind its successors, but for cycles: this changes only the time of the calls that take them, and
/// nothing of it is promised.
pub fn ranks(alloc: Global, graph: &[Items<u32>]) -> Result<Ranked, NoMemory>
    ensures { IfOk result (λ ranked. NeverRise graph.now ranked.ranks.items) }
{
    let ranked = search(alloc, graph)?;
    if never_rise(graph, ranked.ranks.as_slice()) {
        return Ok(ranked);
    }
    Ok(Ranked {
        ranks: Vec::new(alloc),
        order: Vec::new(alloc),
    })
}

fn never_rise(graph: &[Items<u32>], ranks: &[u32]) -> bool
    ensures { IsTrue result → NeverRise graph.now ranks.now }
{
    for a in 0..graph.len() {
        if !all_at_most(graph[a].as_slice(), ranks, entry(ranks, a)) {
            return false;
        }
    }
    true
}

fn all_at_most(numbers: &[u32], ranks: &[u32], most: u32) -> bool
    ensures { IsTrue result → (b : ℕ) → Contains numbers.now b → entry ranks.now b ≤ most }
{
    for b in numbers {
        if most < entry(ranks, *b as usize) {
            return false;
        }
    }
    true
}

// A search in depth: what was met, in which order, and what is still open.
#[derive(Drop)]
struct DepthFirst {
    /// When each number was met, counted from 1; 0 where it was not.
    met: Vec<u32>,
    /// The earliest that is known to be reachable from each through numbers without a rank.
    low: Vec<u32>,
    /// The numbers met that have no rank yet, the newest last.
    open: Vec<u32>,
    /// The walk that is looked at: each number with the place of its next successor.
    path: Vec<(u32, u32)>,
    count: u32,
    next_rank: u32,
    ranked: Ranked,
}

// Ranks count from 1. The search keeps its walk in a list, since a walk may be as long as the graph.
fn search(alloc: Global, graph: &[Items<u32>]) -> Result<Ranked, NoMemory> {
    let count = graph.len();
    let mut search = DepthFirst {
        met: vec![in alloc; 0; count]?,
        low: vec![in alloc; 0; count]?,
        open: Vec::new(alloc),
        path: Vec::new(alloc),
        count: 0,
        next_rank: 1,
        ranked: Ranked {
            ranks: vec![in alloc; 0; count]?,
            order: Vec::new(alloc),
        },
    };
    for root in 0..count {
        let Ok(root) = u32::try_from(root) else {
            break;
        };
        if entry(search.met.as_slice(), root as usize) == 0 {
            enter(&mut search, root)?;
            explore(graph, &mut search)?;
        }
    }
    Ok(search.ranked)
}

// Goes along the walk until it has come back to its beginning.
fn explore(graph: &[Items<u32>], search: &mut DepthFirst) -> Result<(), NoMemory> {
    for _ in 0..u64::MAX {
        let Some((v, at)) = search.path.pop() else {
            break;
        };
        match successors(graph, v as usize).get(at as usize) {
            Some(w) => {
                search.path.push((v, at.saturating_add(1)))?;
                follow(search, v, *w)?;
            }
            None => leave(search, v)?,
        }
    }
    Ok(())
}

// Looks at a successor w of v.
fn follow(search: &mut DepthFirst, v: u32, w: u32) -> Result<(), NoMemory> {
    let met = entry(search.met.as_slice(), w as usize);
    if met == 0 {
        return enter(search, w);
    }
    if entry(search.ranked.ranks.as_slice(), w as usize) == 0 {
        lower(&mut search.low, v, met);
    }
    Ok(())
}

fn enter(search: &mut DepthFirst, v: u32) -> Result<(), NoMemory> {
    search.count = search.count.saturating_add(1);
    let count = search.count;
    write(&mut search.met, v, count);
    write(&mut search.low, v, count);
    search.open.push(v)?;
    search.path.push((v, 0))?;
    Ok(())
}

// All successors of v were looked at.
fn leave(search: &mut DepthFirst, v: u32) -> Result<(), NoMemory> {
    let low = entry(search.low.as_slice(), v as usize);
    if low == entry(search.met.as_slice(), v as usize) {
        return close(search, v);
    }
    if let Some((parent, _)) = search.path.last() {
        let parent = *parent;
        lower(&mut search.low, parent, low);
    }
    Ok(())
}

// Gives the next rank to v and to what was met after it and is still open: a component.
fn close(search: &mut DepthFirst, v: u32) -> Result<(), NoMemory> {
    let rank = search.next_rank;
    search.next_rank = rank.saturating_add(1);
    for _ in 0..u64::MAX {
        let Some(w) = search.open.pop() else {
            break;
        };
        write(&mut search.ranked.ranks, w, rank);
        search.ranked.order.push(w)?;
        if w == v {
            break;
        }
    }
    Ok(())
}

fn write(table: &mut Vec<u32>, a: u32, entry: u32) {
    if (a as usize) < table.len() {
        table[a as usize] = entry;
    }
}

fn lower(table: &mut Vec<u32>, a: u32, most: u32) {
    if most < entry(table.as_slice(), a as usize) {
        write(table, a, most);
    }
}
