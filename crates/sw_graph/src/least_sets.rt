//! The least set that is closed under a rule.

ghost use Rattle.std.specs.Prelude.{◌≡◌, ◌<◌, IsTrue, IfOk, length, true, false, not, ◌+◌, ◌||◌, ℕ};
ghost use Rattle.std.specs.List.{count_by};
ghost use Rattle.sw_graph.specs.Graphs.{marked, successors};
ghost use Rattle.sw_graph.specs.Least.{all_in, IsInEachClosed, IsClosedBelow, IsLeast};

use crate::marks::all_marked;
use std::alloc::Global;
use sw_base::{Items, NoMemory};

/// Marks the least set that has each number that is allowed and of which it has all successors. The order is that in which
/// numbers are looked at first. It changes only the time, which is linear where each number stands behind its successors.
pub fn least(
    alloc: Global,
    graph: &[Items<u32>],
    allowed: &[bool],
    order: &[u32],
) -> Result<Vec<bool>, NoMemory>
    requires allowed { length allowed.now ≡ length graph.now }
    ensures length { IfOk result (λ table. length table.items ≡ length graph.now) }
    ensures least { IfOk result (λ table. IsLeast graph.now allowed.now table.items) }
{
    let mut table = vec![in alloc; false; graph.len()]?;
    saturate(graph, allowed, order, table.as_mut_slice());
    Ok(table)
}

// Adds to an empty table until nothing is left to add.
fn saturate(graph: &[Items<u32>], allowed: &[bool], order: &[u32], table: &mut [bool])
    requires counts { length table.old ≡ length graph.now }
    requires allowed { length allowed.now ≡ length graph.now }
    requires none { (t : ℕ) → marked table.old t ≡ false }
    ensures length { length table.new ≡ length table.old }
    ensures least { IsLeast graph.now allowed.now table.new }
{
    for t in order {
        add_known(graph, allowed, table, *t as usize);
    }
    while sweep(graph, allowed, table) {}
}

// Adds each number that can be added, and tells whether there was one.
fn sweep(graph: &[Items<u32>], allowed: &[bool], table: &mut [bool]) -> bool
    requires counts { length table.old ≡ length graph.now }
    requires allowed { length allowed.now ≡ length graph.now }
    ensures length { length table.new ≡ length table.old }
    ensures sound { IsInEachClosed graph.now allowed.now table.old → IsInEachClosed graph.now allowed.now table.new }
    ensures more { IsTrue result → count_by not table.new < count_by not table.old }
    ensures closed { result ≡ false → IsClosedBelow graph.now allowed.now table.new (length table.new) }
{
    let mut added = false;
    for t in 0..table.len() {
        let more = add(graph, allowed, table, t);
        added = either(more, added);
    }
    added
}

// A function of its own, since `||` would part the proof of the loop in two.
fn either(a: bool, b: bool) -> bool
    ensures { result ≡ (a || b) }
{
    a || b
}

// Adds a number where there is such a number and it can be added.
fn add_known(graph: &[Items<u32>], allowed: &[bool], table: &mut [bool], t: usize)
    requires counts { length table.old ≡ length graph.now }
    requires allowed { length allowed.now ≡ length graph.now }
    ensures length { length table.new ≡ length table.old }
    ensures sound { IsInEachClosed graph.now allowed.now table.old → IsInEachClosed graph.now allowed.now table.new }
{
    if t < table.len() {
        add(graph, allowed, table, t);
    }
}

// Adds a number where it can be added, and tells whether it did.
fn add(graph: &[Items<u32>], allowed: &[bool], table: &mut [bool], t: usize) -> bool
    requires within { t < length table.old }
    requires counts { length table.old ≡ length graph.now }
    requires allowed { length allowed.now ≡ length graph.now }
    ensures length { length table.new ≡ length table.old }
    ensures sound { IsInEachClosed graph.now allowed.now table.old → IsInEachClosed graph.now allowed.now table.new }
    ensures more { IsTrue result → count_by not table.new + 1 ≡ count_by not table.old }
    ensures same { result ≡ false → table.new ≡ table.old }
    ensures done { result ≡ false → marked allowed.now t ≡ true → all_in (marked table.new) (successors graph.now t) ≡ true → marked table.new t ≡ true }
{
    if table[t] || !allowed[t] || !all_marked(table, graph[t].as_slice()) {
        return false;
    }
    table[t] = true;
    true
}
