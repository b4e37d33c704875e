//! Graphs by rows: cycles, least sets, levels and components.

mod rows;

use rows::{COMPONENTS, CYCLES, LEAST, LEVELS};
use std::alloc::Global;
use std::test::Fail;
use sw_base::{Items, NoMemory, Text};
use sw_graph::{least, levels, on_cycles, ranks};
use test_rows::check_rows;

/// The graph of these words: each number's successors, parted by commas, or `-`.
fn graph(alloc: Global, words: &str) -> Result<Vec<Items<u32>>, NoMemory> {
    let mut graph = Vec::new(alloc);
    for word in words.split(' ') {
        if word != "" {
            let mut successors = Items::new(alloc);
            for digits in word.split(',') {
                if let Ok(successor) = digits.parse::<u32>() {
                    successors.push(successor)?;
                }
            }
            graph.push(successors)?;
        }
    }
    Ok(graph)
}

/// A table that marks the numbers at which `1` stands.
fn marks(alloc: Global, word: &str) -> Result<Vec<bool>, NoMemory> {
    let mut marks = Vec::new(alloc);
    for byte in word.as_bytes() {
        marks.push(*byte == b'1')?;
    }
    Ok(marks)
}

fn text(alloc: Global, written: &str) -> Result<Text, Fail> {
    Ok(Text::from_bytes(alloc, written.as_bytes())?)
}

/// The parts of a row, which ` / ` parts.
fn parts(row: &[u8]) -> (&str, &str, &str) {
    let Ok(row) = std::str::from_utf8(row) else {
        return ("", "", "");
    };
    let (words, rest) = row.split_once(" / ").unwrap_or((row, ""));
    let (table, most) = rest.split_once(" / ").unwrap_or((rest, ""));
    (words, table, most)
}

/// A table of marks, as rows write it.
fn written(alloc: Global, table: &[bool]) -> Result<Text, Fail> {
    let mut told = String::new(alloc);
    for mark in table {
        told.push(if *mark { '1' } else { '0' })?;
    }
    text(alloc, told.as_str())
}

/// The numbers of a row that stand on a cycle. They are the same for the ranks of components, and where all have one rank.
fn circular(alloc: Global, row: &[u8]) -> Result<Text, Fail> {
    let (words, table, _) = parts(row);
    let graph = graph(alloc, words)?;
    let chosen = marks(alloc, table)?;
    let ranked = ranks(alloc, graph.as_slice())?;
    let found = on_cycles(
        alloc,
        graph.as_slice(),
        ranked.ranks.as_slice(),
        chosen.as_slice(),
    )?;
    let again = on_cycles(alloc, graph.as_slice(), &[], chosen.as_slice())?;
    if found != again {
        return text(alloc, "two answers");
    }
    written(alloc, found.as_slice())
}

/// The least set of a row. It is the same for the order of the components, and for no order.
fn smallest(alloc: Global, row: &[u8]) -> Result<Text, Fail> {
    let (words, table, _) = parts(row);
    let graph = graph(alloc, words)?;
    let allowed = marks(alloc, table)?;
    if allowed.len() != graph.len() {
        return text(alloc, "no row");
    }
    let order = ranks(alloc, graph.as_slice())?.order;
    let found = least(
        alloc,
        graph.as_slice(),
        allowed.as_slice(),
        order.as_slice(),
    )?;
    let again = least(alloc, graph.as_slice(), allowed.as_slice(), &[0, 9])?;
    if found != again {
        return text(alloc, "two answers");
    }
    written(alloc, found.as_slice())
}

fn listed<'a, T: std::fmt::Display + 'a>(alloc: Global, numbers: &'a [T]) -> Result<Text, Fail> {
    let mut told = String::new(alloc);
    for number in numbers {
        if told.as_str() != "" {
            told.push(' ')?;
        }
        told.push_str(format!(in alloc; "{number}")?.as_str())?;
    }
    text(alloc, told.as_str())
}

/// The levels of a row, up to its last number.
fn leveled(alloc: Global, row: &[u8]) -> Result<Text, Fail> {
    let (words, table, most) = parts(row);
    let graph = graph(alloc, words)?;
    let passed = marks(alloc, table)?;
    let most = most.parse::<u8>().unwrap_or(0);
    let levels = levels(alloc, graph.as_slice(), passed.as_slice(), most)?;
    listed(alloc, levels.as_slice())
}

/// The place of the first entry that is this one.
fn place(table: &[u32], wanted: u32) -> usize {
    for at in 0..table.len() {
        if table[at] == wanted {
            return at;
        }
    }
    table.len()
}

/// Of each number the first of its component, and whether each stands in the order behind its successors.
fn components(alloc: Global, row: &[u8]) -> Result<Text, Fail> {
    let (words, _, _) = parts(row);
    let graph = graph(alloc, words)?;
    let ranked = ranks(alloc, graph.as_slice())?;
    let (ranks, order) = (ranked.ranks.as_slice(), ranked.order.as_slice());
    let mut firsts = Vec::new(alloc);
    for a in 0..ranks.len() {
        firsts.push(place(ranks, ranks[a]))?;
    }
    for a in 0..graph.len() {
        for b in graph[a].as_slice() {
            let is_other = firsts.get(*b as usize) != firsts.get(a);
            let number = u32::try_from(a).unwrap_or(0);
            if is_other && place(order, *b) > place(order, number) && (*b as usize) < graph.len() {
                return text(alloc, "a number stands before its successor");
            }
        }
    }
    listed(alloc, firsts.as_slice())
}

#[test]
fn each_graph_is_answered_as_its_row_says(rt: HostRuntime) -> Result<(), Fail> {
    let (right, wrong) = check_rows(rt.alloc(), CYCLES, circular)?;
    assert_eq!(rt; (right, wrong), (32, None));
    let (right, wrong) = check_rows(rt.alloc(), LEAST, smallest)?;
    assert_eq!(rt; (right, wrong), (14, None));
    let (right, wrong) = check_rows(rt.alloc(), LEVELS, leveled)?;
    assert_eq!(rt; (right, wrong), (18, None));
    let (right, wrong) = check_rows(rt.alloc(), COMPONENTS, components)?;
    assert_eq!(rt; (right, wrong), (12, None));
    Ok(())
}

/// A walk through so many numbers, from the first to the last or back, and perhaps on to its beginning.
fn long(
    alloc: Global,
    count: u32,
    is_back: bool,
    is_closed: bool,
) -> Result<Vec<Items<u32>>, NoMemory> {
    let mut graph = Vec::new(alloc);
    for a in 0..count {
        let mut successors = Items::new(alloc);
        let next = if is_back {
            a.wrapping_sub(1)
        } else {
            a.saturating_add(1)
        };
        if next < count {
            successors.push(next)?;
        } else if is_closed {
            successors.push(if is_back { count.saturating_sub(1) } else { 0 })?;
        }
        graph.push(successors)?;
    }
    Ok(graph)
}

/// So many circles, each of two numbers.
fn pairs(alloc: Global, count: u32) -> Result<Vec<Items<u32>>, NoMemory> {
    let mut graph = Vec::new(alloc);
    for pair in 0..count {
        let first = pair.saturating_mul(2);
        for other in [first.saturating_add(1), first] {
            let mut successors = Items::new(alloc);
            successors.push(other)?;
            graph.push(successors)?;
        }
    }
    Ok(graph)
}

/// How many of the chosen numbers stand on a cycle.
fn count_on_cycles(
    alloc: Global,
    graph: &[Items<u32>],
    chosen: &[bool],
) -> Result<usize, NoMemory> {
    let ranked = ranks(alloc, graph)?;
    let table = on_cycles(alloc, graph, ranked.ranks.as_slice(), chosen)?;
    let mut count: usize = 0;
    for mark in table.as_slice() {
        if *mark {
            count = count.saturating_add(1);
        }
    }
    Ok(count)
}

#[test]
fn large_circles_and_many_circles_take_little_time(rt: HostRuntime) -> Result<(), Fail> {
    let alloc = rt.alloc();
    let all = vec![in alloc; true; 100000]?;
    for is_back in [false, true] {
        let graph = long(alloc, 100000, is_back, true)?;
        let marked = count_on_cycles(alloc, graph.as_slice(), all.as_slice())?;
        assert_eq!(rt; marked, 100000);
    }
    let graph = pairs(alloc, 50000)?;
    let marked = count_on_cycles(alloc, graph.as_slice(), all.as_slice())?;
    assert_eq!(rt; marked, 100000);
    Ok(())
}

#[test]
fn a_long_walk_takes_no_stack_and_little_time(rt: HostRuntime) -> Result<(), Fail> {
    let alloc = rt.alloc();
    let count: u32 = 20000;
    let all = vec![in alloc; true; 20000]?;
    for is_back in [false, true] {
        for is_closed in [false, true] {
            let graph = long(alloc, count, is_back, is_closed)?;
            let ranked = ranks(alloc, graph.as_slice())?;
            let marked = count_on_cycles(alloc, graph.as_slice(), all.as_slice())?;
            assert_eq!(rt; marked, if is_closed { 20000 } else { 0 });
            if graph.len() == all.len() {
                let set = least(
                    alloc,
                    graph.as_slice(),
                    all.as_slice(),
                    ranked.order.as_slice(),
                )?;
                assert_eq!(rt; set.first().copied(), Some(!is_closed));
                assert_eq!(rt; set.last().copied(), Some(!is_closed));
            }
            let levels = levels(alloc, graph.as_slice(), &[], 20)?;
            let last = if is_back {
                levels.get(19)
            } else {
                levels.get(19980)
            };
            assert_eq!(rt; last.copied(), Some(if is_closed { 0 } else { 20 }));
            let beyond = if is_back {
                levels.get(20)
            } else {
                levels.get(19979)
            };
            assert_eq!(rt; beyond.copied(), Some(0));
        }
    }
    Ok(())
}
