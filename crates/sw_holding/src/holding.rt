//! Which type holds itself, and how many hold one another.

ghost use Rattle.std.specs.Prelude.{◌≡◌, ℕ, IfOk, map, length, slice_get, unwrap_or};
ghost use Rattle.sw_graph.specs.Cycles.{NeverRise};
ghost use Rattle.sw_holding.specs.Edges.{IsHolding, settled, settled_form, capped};
ghost use Rattle.sw_holding.specs.Holds.{AreCircular, is_protocol_form};
ghost use Rattle.sw_holding.specs.Levels.{AreLevels};
ghost use Rattle.sw_holding.specs.Rules.{BreaksNoRule};
ghost use Rattle.sw_value.specs.Settled.{IsSettled};
ghost use Rattle.sw_holding.specs.Above.{AreAbove};
ghost use Rattle.sw_value.specs.Kinds.{has_parts};

use crate::above::all_above;
use crate::edges::edges;
use crate::parts::{has_parts, is_protocol_form};
use std::alloc::Global;
use sw_base::{Items, NoMemory};
use sw_graph::{levels, on_cycles, ranks};
use sw_value::{Form, Kind};

/// What is known of the types that hold one another.
#[derive(Drop)]
pub struct Holding {
    /// Of each number, whether it is a struct or an enum that holds itself, which breaks T5.
    pub circular: Vec<bool>,
    /// The level of each number: how many structs and enums stand on the longest chain in which each holds the next. That of
    /// a protocol is the greatest level of those that conform. 0 where there is none up to 64.
    pub levels: Items<u8>,
    /// Of each number, whether it is a struct or an enum whose level is above 64, which breaks T8. It reaches no circle.
    pub above: Vec<bool>,
}

/// Tells which types hold themselves, the level of each, and of which the level is above 64. Where
/// the table breaks none of the rules T3, T5, T6 and T8, these levels settle it, so that `Kinds::new` takes both. The only
/// error is want of memory, which a table with more types than there are numbers has too.
pub fn holding_of(alloc: Global, kinds: &[Kind]) -> Result<Holding, NoMemory>
    ensures circular { IfOk result (λ holding. AreCircular kinds.now holding.circular.items) }
    ensures levels { IfOk result (λ holding. AreLevels kinds.now holding.levels) }
    ensures settled { IfOk result (λ holding. BreaksNoRule kinds.now → IsSettled kinds.now holding.levels) }
    ensures above { IfOk result (λ holding. AreAbove kinds.now holding.above.items) }
{
    let graph = edges(alloc, kinds)?;
    let ranked = ranks(alloc, graph.as_slice())?;
    let circular = circular(alloc, kinds, graph.as_slice(), ranked.ranks.as_slice())?;
    let levels = levels_in(alloc, kinds, graph.as_slice())?;
    let above = all_above(
        alloc,
        kinds,
        graph.as_slice(),
        ranked.order.as_slice(),
        levels.as_slice(),
    )?;
    Ok(Holding {
        circular,
        levels,
        above,
    })
}

// The structs and enums that hold themselves.
fn circular(
    alloc: Global,
    kinds: &[Kind],
    graph: &[Items<u32>],
    ranks: &[u32],
) -> Result<Vec<bool>, NoMemory>
    requires graph { IsHolding kinds.now graph.now }
    requires ranks { NeverRise graph.now ranks.now }
    ensures { IfOk result (λ table. AreCircular kinds.now table.items) }
{
    let chosen = values(alloc, kinds)?;
    on_cycles(alloc, graph, ranks, chosen.as_slice())
}

// The structs and enums.
fn values(alloc: Global, kinds: &[Kind]) -> Result<Vec<bool>, NoMemory>
    ensures { IfOk result (λ values. values.items ≡ map (λ kind. has_parts kind.form) kinds.now) }
{
    let mut values = Vec::with_capacity(alloc, kinds.len())?;
    for kind in kinds {
        values.push(has_parts(&kind.form))?;
    }
    Ok(values)
}

fn protocols(alloc: Global, kinds: &[Kind]) -> Result<Vec<bool>, NoMemory>
    ensures { IfOk result (λ protocols. protocols.items ≡ map (λ kind. is_protocol_form kind.form) kinds.now) }
{
    let mut protocols = Vec::with_capacity(alloc, kinds.len())?;
    for kind in kinds {
        protocols.push(is_protocol_form(&kind.form))?;
    }
    Ok(protocols)
}

// A protocol is passed through, and stands on its own walks: those have one number more than the chains of the types that
// conform.
fn levels_in(alloc: Global, kinds: &[Kind], graph: &[Items<u32>]) -> Result<Items<u8>, NoMemory>
    requires graph { IsHolding kinds.now graph.now }
    ensures levels { IfOk result (AreLevels kinds.now) }
    ensures settled { IfOk result (λ levels. BreaksNoRule kinds.now → IsSettled kinds.now levels) }
{
    let passed = protocols(alloc, kinds)?;
    let walks = levels(alloc, graph, passed.as_slice(), 65)?;
    settle(alloc, kinds, walks.as_slice())
}

fn settle(alloc: Global, kinds: &[Kind], walks: &[u8]) -> Result<Items<u8>, NoMemory>
    ensures length { IfOk result (λ levels. length levels ≡ length kinds.now) }
    ensures each { IfOk result (λ levels. (t : ℕ) → unwrap_or (slice_get levels t) 0 ≡ settled (slice_get kinds.now t) (unwrap_or (slice_get walks.now t) 0)) }
{
    let mut levels = Items::new(alloc);
    for t in 0..kinds.len() {
        levels.push(settled(&kinds[t].form, level_of(walks, t)))?;
    }
    Ok(levels)
}

// The level of a type from whose number the longest walk has so many numbers.
fn settled(form: &Form, walk: u8) -> u8
    ensures { result ≡ settled_form form.now walk }
{
    match form {
        Form::Struct(_, _) => capped(walk),
        Form::Enum(_) => capped(walk),
        Form::Protocol => walk.saturating_sub(1),
        _ => 0,
    }
}

fn capped(walk: u8) -> u8
    ensures { result ≡ capped walk }
{
    if walk > 64 { 0 } else { walk }
}

/// The level that a table has for a number: 0 past its end.
pub(crate) fn level_of(levels: &[u8], at: usize) -> u8
    ensures { result ≡ unwrap_or (slice_get levels.now at) 0 }
{
    match levels.get(at) {
        Some(level) => *level,
        None => 0,
    }
}
