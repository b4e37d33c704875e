//! Looking numbers up: nothing stands past the end of a list.

ghost use Rattle.std.specs.Prelude.{◌≡◌};
ghost use Rattle.sw_graph.specs.Graphs.{entry, marked, successors};
ghost use Rattle.sw_graph.specs.Least.{all_in};
ghost use Rattle.sw_graph.specs.Levels.{any_in};

use sw_base::Items;

/// Tells whether a table marks a number.
pub(crate) fn is_marked(table: &[bool], a: usize) -> bool
    ensures { result ≡ marked table.now a }
{
    match table.get(a) {
        None => false,
        Some(mark) => *mark,
    }
}

/// Tells whether a table marks all these numbers.
pub(crate) fn all_marked(table: &[bool], numbers: &[u32]) -> bool
    ensures { result ≡ all_in (marked table.now) numbers.now }
{
    for a in numbers {
        if !is_marked(table, *a as usize) {
            return false;
        }
    }
    true
}

/// Tells whether a table marks one of these numbers.
pub(crate) fn any_marked(table: &[bool], numbers: &[u32]) -> bool
    ensures { result ≡ any_in (marked table.now) numbers.now }
{
    for a in numbers {
        if is_marked(table, *a as usize) {
            return true;
        }
    }
    false
}

/// The entry of a table for a number.
pub(crate) fn entry(table: &[u32], a: usize) -> u32
    ensures { result ≡ entry table.now a }
{
    match table.get(a) {
        Some(entry) => *entry,
        None => 0,
    }
}

/// The successors of a number.
pub(crate) fn successors(graph: &[Items<u32>], a: usize) -> &[u32]
    ensures { result.now ≡ successors graph.now a }
{
    match graph.get(a) {
        None => &[],
        Some(successors) => successors.as_slice(),
    }
}
