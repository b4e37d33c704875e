//! A graph with its edges turned round.

ghost use Rattle.std.specs.Prelude.{◌≡◌, ◌<◌, IfOk, OnOk, length};
ghost use Rattle.sw_graph.specs.Search.{AddsEdge, IsEmpty, IsTurned};

use std::alloc::Global;
use sw_base::{Items, NoMemory};

/// The graph in which the successors of each number are those whose successor it was.
pub(crate) fn turned(alloc: Global, graph: &[Items<u32>]) -> Result<Vec<Items<u32>>, NoMemory>
    ensures { IfOk result (λ turned. IsTurned graph.now turned.items) }
{
    let mut turned = without_edges(alloc, graph.len())?;
    for a in 0..graph.len() {
        // A number that is no `u32` is no successor, so that it stands on no cycle.
        let Ok(number) = u32::try_from(a) else {
            break;
        };
        for b in graph[a].as_slice() {
            add_edge(&mut turned, *b as usize, number)?;
        }
    }
    Ok(turned)
}

// A graph of so many numbers without edges.
fn without_edges(alloc: Global, count: usize) -> Result<Vec<Items<u32>>, NoMemory>
    ensures { IfOk result (λ graph. IsEmpty count graph.items) }
{
    let mut graph = Vec::with_capacity(alloc, count)?;
    while graph.len() < count {
        graph.push(Items::new(alloc))?;
    }
    Ok(graph)
}

// Adds an edge where the graph has the number from which it leads.
fn add_edge(graph: &mut Vec<Items<u32>>, from: usize, to: u32) -> Result<(), NoMemory>
    ensures { OnOk result (AddsEdge from to graph.old.items graph.new.items) }
{
    if from < graph.len() {
        push_at(graph, from, to)?;
    }
    Ok(())
}

fn push_at(graph: &mut Vec<Items<u32>>, from: usize, to: u32) -> Result<(), NoMemory>
    requires { from < length graph.old.items }
    ensures { OnOk result (AddsEdge from to graph.old.items graph.new.items) }
{
    graph[from].push(to)
}
