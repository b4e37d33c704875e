//! The types whose level is too high.

ghost use Rattle.std.specs.Prelude.{◌≡◌, ◌<◌, ◌&&◌, ℕ, true, IfOk, nat_eq, slice_get, unwrap_or, length};
ghost use Rattle.sw_holding.specs.Edges.{IsHolding, AreBounded};
ghost use Rattle.sw_holding.specs.Holds.{is_value};
ghost use Rattle.sw_holding.specs.Levels.{AreLevels};
ghost use Rattle.sw_holding.specs.Above.{AreAbove};
ghost use Rattle.sw_holding.specs.Members.{marked};

use crate::holding::level_of;
use crate::members::is_marked;
use crate::parts::is_value;
use std::alloc::Global;
use sw_base::{Items, NoMemory};
use sw_graph::least;
use sw_value::Kind;

/// Tells of each number whether it is a struct or an enum whose level is above 64.
pub(crate) fn all_above(
    alloc: Global,
    kinds: &[Kind],
    graph: &[Items<u32>],
    order: &[u32],
    levels: &[u8],
) -> Result<Vec<bool>, NoMemory>
    requires graph { IsHolding kinds.now graph.now }
    requires levels { AreLevels kinds.now levels.now }
    ensures { IfOk result (λ table. AreAbove kinds.now table.items) }
{
    let bounded = bounded(alloc, kinds, graph, order)?;
    each_above(alloc, kinds, levels, bounded.as_slice())
}

// The numbers from which no walk leads to a circle.
fn bounded(
    alloc: Global,
    kinds: &[Kind],
    graph: &[Items<u32>],
    order: &[u32],
) -> Result<Vec<bool>, NoMemory>
    requires graph { IsHolding kinds.now graph.now }
    ensures { IfOk result (λ table. AreBounded kinds.now table.items) }
{
    let allowed = all_of(alloc, graph.len())?;
    least(alloc, graph, allowed.as_slice(), order)
}

// A table that marks each of so many numbers.
fn all_of(alloc: Global, count: usize) -> Result<Vec<bool>, NoMemory>
    ensures length { IfOk result (λ table. length table.items ≡ count) }
    ensures each { IfOk result (λ table. (t : ℕ) → t < count → marked table.items t ≡ true) }
{
    let table = vec![in alloc; true; count]?;
    Ok(table)
}

// Of each number, whether it is one from which chains come to an end, and which has no level all the same.
fn each_above(
    alloc: Global,
    kinds: &[Kind],
    levels: &[u8],
    bounded: &[bool],
) -> Result<Vec<bool>, NoMemory>
    requires levels { AreLevels kinds.now levels.now }
    requires bounded { AreBounded kinds.now bounded.now }
    ensures { IfOk result (λ table. AreAbove kinds.now table.items) }
{
    let mut table = Vec::with_capacity(alloc, kinds.len())?;
    for t in 0..kinds.len() {
        table.push(is_above(kinds, levels, bounded, t))?;
    }
    Ok(table)
}

fn is_above(kinds: &[Kind], levels: &[u8], bounded: &[bool], t: usize) -> bool
    ensures { result ≡ (is_value (slice_get kinds.now t) && (marked bounded.now t && nat_eq (unwrap_or (slice_get levels.now t) 0) 0)) }
{
    is_value(kinds, t) && is_marked(bounded, t) && level_of(levels, t) == 0
}
