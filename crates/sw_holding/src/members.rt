//! Which types may cross between nodes, in any table of types.

ghost use Rattle.std.specs.Prelude.{◌≡◌, ◌&&◌, ◌↔◌, IfOk, IsTrue, List, map};
ghost use Rattle.std.specs.List.{flat_map, list_all};
ghost use Rattle.sw_value.specs.declared.kinds.Kind.{Kind};
ghost use Rattle.sw_value.specs.Kinds.{has_parts, parts_in};
ghost use Rattle.sw_value.specs.Codable.{among, IsCodable};
ghost use Rattle.sw_holding.specs.Edges.{bases_in, value_number, could_be, could_cross};
ghost use Rattle.sw_holding.specs.Members.{marked, AreMembers};

use crate::parts::{bases_in, has_parts};
use std::alloc::Global;
use sw_base::{Items, NoMemory};
use sw_graph::{least, ranks};
use sw_value::{Base, Kind, Ty};

/// Tells of each number whether it is a struct or an enum that may cross between nodes: one that is declared `Codable` and whose
/// parts may cross. The only error is want of memory.
pub fn codable_members(alloc: Global, kinds: &[Kind]) -> Result<Vec<bool>, NoMemory>
    ensures { IfOk result (λ table. AreMembers kinds.now table.items) }
{
    let graph = edges_of_values(alloc, kinds)?;
    let allowed = all_that_could(alloc, kinds)?;
    let ranked = ranks(alloc, graph.as_slice())?;
    least(
        alloc,
        graph.as_slice(),
        allowed.as_slice(),
        ranked.order.as_slice(),
    )
}

/// Tells whether a type may cross between nodes, where the table tells the structs and enums that may.
pub fn is_member(table: &[bool], t: &Ty) -> bool
    ensures base { result ≡ among (marked table.now) t.now.base }
    ensures codable { (kinds : List Kind) → AreMembers kinds table.now → (IsTrue result ↔ IsCodable kinds t.now) }
{
    is_among(table, t.base)
}

// Whether a base is a member, where the structs and enums that a table marks are.
fn is_among(table: &[bool], base: Base) -> bool
    ensures { result ≡ among (marked table.now) base }
{
    match base {
        Base::Int | Base::Bool | Base::Str | Base::Id => true,
        Base::Distributed(_) => true,
        Base::Struct(number) => is_marked(table, number.0 as usize),
        Base::Enum(number) => is_marked(table, number.0 as usize),
        _ => false,
    }
}

/// Tells whether a table marks a number.
pub(crate) fn is_marked(table: &[bool], number: usize) -> bool
    ensures { result ≡ marked table.now number }
{
    match table.get(number) {
        None => false,
        Some(mark) => *mark,
    }
}

// The structs and enums that are parts of each.
fn edges_of_values(alloc: Global, kinds: &[Kind]) -> Result<Vec<Items<u32>>, NoMemory>
    ensures { IfOk result (λ graph. graph.items ≡ map (λ kind. flat_map value_number (bases_in kind)) kinds.now) }
{
    let mut graph = Vec::with_capacity(alloc, kinds.len())?;
    for kind in kinds {
        graph.push(value_numbers(alloc, bases_in(alloc, &kind.form)?.as_slice())?)?;
    }
    Ok(graph)
}

fn value_numbers(alloc: Global, bases: &[Base]) -> Result<Items<u32>, NoMemory>
    ensures { IfOk result (λ numbers. numbers ≡ flat_map value_number bases.now) }
{
    let mut numbers = Items::new(alloc);
    for base in bases {
        match base {
            Base::Struct(number) => numbers.push(number.0)?,
            Base::Enum(number) => numbers.push(number.0)?,
            _ => {}
        }
    }
    Ok(numbers)
}

// Those that may cross where their structs and enums may.
fn all_that_could(alloc: Global, kinds: &[Kind]) -> Result<Vec<bool>, NoMemory>
    ensures { IfOk result (λ table. table.items ≡ map could_cross kinds.now) }
{
    let mut table = Vec::with_capacity(alloc, kinds.len())?;
    for kind in kinds {
        let bases = bases_in(alloc, &kind.form)?;
        table.push(could_cross(kind, bases.as_slice()))?;
    }
    Ok(table)
}

fn could_cross(kind: &Kind, bases: &[Base]) -> bool
    ensures { result ≡ (kind.now.is_codable && (has_parts kind.now.form && list_all could_be bases.now)) }
{
    kind.is_codable && has_parts(&kind.form) && all_could_be(bases)
}

fn all_could_be(bases: &[Base]) -> bool
    ensures { result ≡ list_all could_be bases.now }
{
    bases.iter().all(|base| could_be(*base))
}

// Whether a base is a member where all structs and enums are.
fn could_be(base: Base) -> bool
    ensures { result ≡ could_be base }
{
    match base {
        Base::Int | Base::Bool | Base::Str | Base::Id => true,
        Base::Distributed(_) | Base::Struct(_) | Base::Enum(_) => true,
        _ => false,
    }
}
