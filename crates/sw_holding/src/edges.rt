//! A table of types as a graph: from each struct and enum to what its parts name, and from each protocol to the structs and
//! enums that conform. So the graph is no larger than the table.

ghost use Rattle.std.specs.Prelude.{◌≡◌, ◌<◌, ◌++◌, [], ◌∷◌, IfOk, OnOk, length, map};
ghost use Rattle.sw_holding.specs.Edges.{bases_in, held_number, held_by, IsHolding, IsOfProtocol, IsFromListed, Adds};

use crate::parts::{bases_in, has_parts, is_protocol, is_value};
use std::alloc::Global;
use sw_base::{Items, NoMemory, TypeNo};
use sw_value::{Base, Kind};

/// The graph of what is held.
pub(crate) fn edges(alloc: Global, kinds: &[Kind]) -> Result<Vec<Items<u32>>, NoMemory>
    ensures { IfOk result (λ graph. IsHolding kinds.now graph.items) }
{
    let mut graph = edges_of_parts(alloc, kinds)?;
    add_conforming(kinds, &mut graph)?;
    Ok(graph)
}

fn edges_of_parts(alloc: Global, kinds: &[Kind]) -> Result<Vec<Items<u32>>, NoMemory>
    ensures { IfOk result (λ graph. graph.items ≡ map (λ kind. held_by kinds.now (bases_in kind)) kinds.now) }
{
    let mut graph = Vec::with_capacity(alloc, kinds.len())?;
    for kind in kinds {
        graph.push(held_by(alloc, kinds, bases_in(alloc, &kind.form)?.as_slice())?)?;
    }
    Ok(graph)
}

fn held_by(alloc: Global, kinds: &[Kind], bases: &[Base]) -> Result<Items<u32>, NoMemory>
    ensures { IfOk result (λ numbers. numbers ≡ held_by kinds.now bases.now) }
{
    let mut numbers = Items::new(alloc);
    for base in bases {
        push_held(&mut numbers, kinds, *base)?;
    }
    Ok(numbers)
}

fn push_held(numbers: &mut Items<u32>, kinds: &[Kind], base: Base) -> Result<(), NoMemory>
    ensures { OnOk result (numbers.new ≡ numbers.old ++ held_number kinds.now base) }
{
    match base {
        Base::Struct(number) if is_value(kinds, number.0 as usize) => numbers.push(number.0),
        Base::Enum(number) if is_value(kinds, number.0 as usize) => numbers.push(number.0),
        Base::Any(protocol) if is_protocol(kinds, protocol.0 as usize) => numbers.push(protocol.0),
        _ => Ok(()),
    }
}

// Adds an edge from each protocol to each struct and enum that conforms to it.
fn add_conforming(kinds: &[Kind], graph: &mut Vec<Items<u32>>) -> Result<(), NoMemory>
    requires { length graph.old.items ≡ length kinds.now }
    ensures { OnOk result (Adds graph.old.items graph.new.items (IsOfProtocol kinds.now)) }
{
    for u in 0..kinds.len() {
        add_of_one(kinds, graph, u)?;
    }
    Ok(())
}

// Adds an edge from each protocol to which this type conforms.
fn add_of_one(kinds: &[Kind], graph: &mut Vec<Items<u32>>, u: usize) -> Result<(), NoMemory>
    requires size { length graph.old.items ≡ length kinds.now }
    requires within { u < length kinds.now }
    ensures { OnOk result (Adds graph.old.items graph.new.items (λ p t. (t ≡ u) × IsOfProtocol kinds.now p t)) }
{
    // No memory holds a table with a number that is no `u32`.
    let Ok(number) = u32::try_from(u) else {
        return Err(NoMemory);
    };
    let kind = &kinds[u];
    if has_parts(&kind.form) {
        add_each(kinds, graph, kind.protocols.as_slice(), number)?;
    }
    Ok(())
}

fn add_each(
    kinds: &[Kind],
    graph: &mut Vec<Items<u32>>,
    protocols: &[TypeNo],
    u: u32,
) -> Result<(), NoMemory>
    requires size { length graph.old.items ≡ length kinds.now }
    ensures { OnOk result (Adds graph.old.items graph.new.items (IsFromListed kinds.now protocols.now u)) }
{
    for p in protocols {
        add_one(kinds, graph, *p, u)?;
    }
    Ok(())
}

fn add_one(
    kinds: &[Kind],
    graph: &mut Vec<Items<u32>>,
    protocol: TypeNo,
    u: u32,
) -> Result<(), NoMemory>
    requires size { length graph.old.items ≡ length kinds.now }
    ensures { OnOk result (Adds graph.old.items graph.new.items (IsFromListed kinds.now (protocol ∷ []) u)) }
{
    let from = protocol.0 as usize;
    if !is_protocol(kinds, from) {
        return Ok(());
    }
    add_edge(graph, from, u)
}

fn add_edge(graph: &mut Vec<Items<u32>>, from: usize, to: u32) -> Result<(), NoMemory>
    requires { from < length graph.old.items }
    ensures { OnOk result (Adds graph.old.items graph.new.items (λ p t. (t ≡ to) × (p ≡ from))) }
{
    graph[from].push(to)
}
