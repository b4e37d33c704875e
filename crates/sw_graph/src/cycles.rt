//! Which numbers stand on a cycle.

ghost use Rattle.std.specs.Prelude.{◌≡◌, ◌<◌, ◌+◌, ◌∷◌, [], IsTrue, IfOk, OnOk, length, ℕ, true, false};
ghost use Rattle.sw_graph.specs.Cycles.{IsOnCycle, NeverRise, AreOnCycles};
ghost use Rattle.sw_graph.specs.Graphs.{marked, entry};
ghost use Rattle.sw_graph.specs.Search.{Has, Visited, Searched, IsClear, IsQueued, IsTurned, Marks, IsBoth, AreBelow};

use crate::marks::{entry, is_marked, successors};
use crate::turned::turned;
use std::alloc::Global;
use sw_base::{Items, NoMemory};

// What a search has seen.
#[derive(Drop)]
struct Seen {
    /// The numbers that were seen, as a table of marks.
    table: Vec<bool>,
    /// The same numbers, in the order in which they were seen.
    queue: Vec<u32>,
}

// The numbers found to stand on a cycle, and two searches, which all numbers share so that each costs no more than what it sees.
#[derive(Drop)]
struct Found {
    table: Vec<bool>,
    /// The search along edges.
    ahead: Seen,
    /// The search against them.
    back: Seen,
}

/// Which of the chosen numbers stand on a cycle. The ranks change only the time, which is linear where they are those of
/// strongly connected components.
pub fn on_cycles(
    alloc: Global,
    graph: &[Items<u32>],
    ranks: &[u32],
    chosen: &[bool],
) -> Result<Vec<bool>, NoMemory>
    requires ranks { NeverRise graph.now ranks.now }
    ensures { IfOk result (λ table. AreOnCycles graph.now chosen.now table.items) }
{
    let turned = turned(alloc, graph)?;
    let mut found = Found {
        table: unmarked(alloc, graph.len())?,
        ahead: nothing_seen(alloc, graph.len())?,
        back: nothing_seen(alloc, graph.len())?,
    };
    for t in 0..graph.len() {
        settle(graph, turned.as_slice(), ranks, chosen, t, &mut found)?;
    }
    Ok(found.table)
}

// Marks a number where it is chosen and stands on a cycle, and with it others that were found to stand on one.
fn settle(
    graph: &[Items<u32>],
    turned: &[Items<u32>],
    ranks: &[u32],
    chosen: &[bool],
    t: usize,
    found: &mut Found,
) -> Result<(), NoMemory>
    requires within { t < length graph.now }
    requires ranks { NeverRise graph.now ranks.now }
    requires turned { IsTurned graph.now turned.now }
    requires table { AreBelow graph.now chosen.now found.old.table.items t }
    requires ahead { IsClear (length graph.now) found.old.ahead.table.items found.old.ahead.queue.items }
    requires back { IsClear (length graph.now) found.old.back.table.items found.old.back.queue.items }
    ensures table { OnOk result (AreBelow graph.now chosen.now found.new.table.items (t + 1)) }
    ensures ahead { OnOk result (IsClear (length graph.now) found.new.ahead.table.items found.new.ahead.queue.items) }
    ensures back { OnOk result (IsClear (length graph.now) found.new.back.table.items found.new.back.queue.items) }
{
    if !is_left(graph, ranks, chosen, found.table.as_slice(), t) {
        return Ok(());
    }
    search(graph, ranks, t, &mut found.ahead)?;
    mark_circle(turned, ranks, chosen, t, found)?;
    clear(&mut found.ahead);
    Ok(())
}

// Tells whether a number is still to be searched from. A cycle keeps to one rank: ranks never rise along it, and are at
// its end what they were at its beginning. So a number none of whose successors has its rank stands on no cycle.
fn is_left(graph: &[Items<u32>], ranks: &[u32], chosen: &[bool], table: &[bool], t: usize) -> bool
    requires ranks { NeverRise graph.now ranks.now }
    ensures chosen { IsTrue result → marked chosen.now t ≡ true }
    ensures settled { result ≡ false → marked chosen.now t ≡ true → IsOnCycle graph.now t → marked table.now t ≡ true }
{
    if !is_marked(chosen, t) || is_marked(table, t) {
        return false;
    }
    has_rank(successors(graph, t), ranks, entry(ranks, t))
}

// Where the search from a number came back to it, marks it and the chosen numbers that lead back to it too.
fn mark_circle(
    turned: &[Items<u32>],
    ranks: &[u32],
    chosen: &[bool],
    t: usize,
    found: &mut Found,
) -> Result<(), NoMemory>
    requires within { t < length turned.now }
    requires size { length found.old.table.items ≡ length turned.now }
    requires chosen { marked chosen.now t ≡ true }
    requires back { IsClear (length turned.now) found.old.back.table.items found.old.back.queue.items }
    ensures marks { OnOk result (Marks (IsBoth turned.now chosen.now found.old.ahead.table.items t) found.old.table.items found.new.table.items) }
    ensures here { OnOk result (marked found.old.ahead.table.items t ≡ true → marked found.new.table.items t ≡ true) }
    ensures ahead { OnOk result (found.new.ahead ≡ found.old.ahead) }
    ensures back { OnOk result (IsClear (length turned.now) found.new.back.table.items found.new.back.queue.items) }
{
    if !is_marked(found.ahead.table.as_slice(), t) {
        return Ok(());
    }
    search(turned, ranks, t, &mut found.back)?;
    mark_seen(
        chosen,
        found.ahead.table.as_slice(),
        found.back.queue.as_slice(),
        &mut found.table,
    );
    found.table[t] = true;
    clear(&mut found.back);
    Ok(())
}

// Marks those of the numbers that are chosen and were seen.
fn mark_seen(chosen: &[bool], seen: &[bool], numbers: &[u32], table: &mut Vec<bool>)
    ensures { Marks (λ u. Has numbers.now u × (marked chosen.now u ≡ true) × (marked seen.now u ≡ true)) table.old.items table.new.items }
{
    for u in numbers {
        mark_one(chosen, seen, *u as usize, table);
    }
}

fn mark_one(chosen: &[bool], seen: &[bool], at: usize, table: &mut Vec<bool>)
    ensures { Marks (λ u. (u ≡ at) × (marked chosen.now u ≡ true) × (marked seen.now u ≡ true)) table.old.items table.new.items }
{
    if at < table.len() && is_marked(chosen, at) && is_marked(seen, at) {
        table[at] = true;
    }
}

// A search that has seen nothing.
fn nothing_seen(alloc: Global, count: usize) -> Result<Seen, NoMemory>
    ensures { IfOk result (λ seen. IsClear count seen.table.items seen.queue.items) }
{
    let table = unmarked(alloc, count)?;
    Ok(Seen {
        table,
        queue: Vec::new(alloc),
    })
}

// A table without marks.
fn unmarked(alloc: Global, count: usize) -> Result<Vec<bool>, NoMemory>
    ensures size { IfOk result (λ table. length table.items ≡ count) }
    ensures none { IfOk result (λ table. (u : ℕ) → marked table.items u ≡ false) }
{
    let table = vec![in alloc; false; count]?;
    Ok(table)
}

// Forgets what was seen, in no more time than it took to see it.
fn clear(seen: &mut Seen)
    requires { IsQueued seen.old.table.items seen.old.queue.items }
    ensures { IsClear (length seen.old.table.items) seen.new.table.items seen.new.queue.items }
{
    unmark_all(seen.queue.as_slice(), &mut seen.table);
    seen.queue.clear();
}

fn unmark_all(numbers: &[u32], table: &mut Vec<bool>)
    requires { IsQueued table.old.items numbers.now }
    ensures { IsClear (length table.old.items) table.new.items [] }
{
    for u in numbers {
        unmark(*u as usize, table);
    }
}

fn unmark(at: usize, table: &mut Vec<bool>)
    ensures size { length table.new.items ≡ length table.old.items }
    ensures only { (u : ℕ) → marked table.new.items u ≡ true → (marked table.old.items u ≡ true) × (u ≡ at → ⊥) }
{
    if at < table.len() {
        table[at] = false;
    }
}

// Sees and queues what is reachable from a number through numbers of its rank.
fn search(graph: &[Items<u32>], ranks: &[u32], from: usize, seen: &mut Seen) -> Result<(), NoMemory>
    requires within { from < length graph.now }
    requires clear { IsClear (length graph.now) seen.old.table.items seen.old.queue.items }
    ensures { OnOk result (Searched graph.now ranks.now from seen.new.table.items seen.new.queue.items (length seen.new.queue.items)) }
{
    let rank = entry(ranks, from);
    visit(successors(graph, from), ranks, rank, seen)?;
    let mut place = 0;
    while place < seen.queue.len() {
        let u = seen.queue[place] as usize;
        visit(successors(graph, u), ranks, rank, seen)?;
        place += 1;
    }
    Ok(())
}

// Sees and queues those of the numbers that have this rank and were not seen before.
fn visit(numbers: &[u32], ranks: &[u32], rank: u32, seen: &mut Seen) -> Result<(), NoMemory>
    ensures { OnOk result (Visited ranks.now rank numbers.now seen.old.table.items seen.old.queue.items seen.new.table.items seen.new.queue.items) }
{
    for u in numbers {
        visit_one(*u, ranks, rank, seen)?;
    }
    Ok(())
}

fn visit_one(u: u32, ranks: &[u32], rank: u32, seen: &mut Seen) -> Result<(), NoMemory>
    ensures { OnOk result (Visited ranks.now rank (u ∷ []) seen.old.table.items seen.old.queue.items seen.new.table.items seen.new.queue.items) }
{
    let at = u as usize;
    if entry(ranks, at) != rank || at >= seen.table.len() || is_marked(seen.table.as_slice(), at) {
        return Ok(());
    }
    seen.queue.push(u)?;
    seen.table[at] = true;
    Ok(())
}

// Tells whether one of the numbers has this rank.
fn has_rank(numbers: &[u32], ranks: &[u32], rank: u32) -> bool
    ensures { result ≡ false → (u : ℕ) → Has numbers.now u → entry ranks.now u ≡ rank → ⊥ }
{
    for u in numbers {
        if entry(ranks, *u as usize) == rank {
            return true;
        }
    }
    false
}
