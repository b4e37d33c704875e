//! Which types hold which, by rows.

mod rows;

use crate::tables::{cases, structure};
use rows::ROWS;
use std::alloc::Global;
use std::test::Fail;
use sw_base::{Items, NoMemory, Text, TypeNo};
use sw_holding::{codable_members, holding_of, is_member};
use sw_value::{Base, Form, Kind, Ty};
use test_rows::check_rows;

/// What a type of this letter is made of.
fn form(alloc: Global, letter: u8, parts: &str) -> Result<Form, NoMemory> {
    match letter {
        b's' => structure(alloc, parts),
        b'e' => cases(alloc, parts),
        b'a' => Ok(Form::Plain(Items::new(alloc), Items::new(alloc))),
        b'd' => Ok(Form::Distributed(Items::new(alloc), Items::new(alloc))),
        _ => Ok(Form::Protocol),
    }
}

fn kind(alloc: Global, words: &str) -> Result<Kind, NoMemory> {
    let (head, parts) = words.split_once(' ').unwrap_or((words, ""));
    let (letters, digits) = head.split_once(':').unwrap_or((head, ""));
    let mut protocols = Items::new(alloc);
    if let Ok(number) = digits.parse::<u32>() {
        protocols.push(TypeNo(number))?;
    }
    let letter = letters.as_bytes().first().copied().unwrap_or(b'p');
    Ok(Kind {
        name: Text::from_bytes(alloc, b"T")?,
        form: form(alloc, letter, parts)?,
        protocols,
        is_codable: letters.ends_with('c'),
        is_equatable: false,
        is_error: letters.ends_with('x'),
    })
}

/// The types of a row.
fn kinds(alloc: Global, row: &str) -> Result<Items<Kind>, NoMemory> {
    let mut kinds = Items::new(alloc);
    for words in row.split(" / ") {
        kinds.push(kind(alloc, words)?)?;
    }
    Ok(kinds)
}

fn push_marks(text: &mut Text, table: &[bool]) -> Result<(), NoMemory> {
    for mark in table {
        text.push_all(if *mark { b"1" } else { b"0" })?;
    }
    Ok(())
}

fn push_levels(alloc: Global, text: &mut Text, levels: &[u8]) -> Result<(), Fail> {
    let mut mark = " ";
    for level in levels {
        text.push_all(format!(in alloc; "{mark}{level}")?.as_bytes())?;
        mark = ",";
    }
    text.push_all(b" ")?;
    Ok(())
}

/// Adds `1` for each struct of the table that may cross, and `0` for what else is there.
fn push_members(
    alloc: Global,
    text: &mut Text,
    kinds: &[Kind],
    table: &[bool],
) -> Result<(), NoMemory> {
    let mut number: u32 = 0;
    for _ in kinds {
        let t = Ty {
            marks: Items::new(alloc),
            base: Base::Struct(TypeNo(number)),
        };
        text.push_all(if is_member(table, &t) { b"1" } else { b"0" })?;
        number = number.saturating_add(1);
    }
    Ok(())
}

fn told(alloc: Global, row: &[u8]) -> Result<Text, Fail> {
    let kinds = kinds(alloc, std::str::from_utf8(row).unwrap_or(""))?;
    let holding = holding_of(alloc, kinds.as_slice())?;
    let table = codable_members(alloc, kinds.as_slice())?;
    let mut text = Text::from_bytes(alloc, b"")?;
    push_marks(&mut text, holding.circular.as_slice())?;
    push_levels(alloc, &mut text, holding.levels.as_slice())?;
    push_marks(&mut text, holding.above.as_slice())?;
    text.push_all(b" ")?;
    push_members(alloc, &mut text, kinds.as_slice(), table.as_slice())?;
    Ok(text)
}

/// So many structs, of which each holds the next.
fn chain(alloc: Global, length: u32) -> Result<Items<Kind>, Fail> {
    let mut kinds = Items::new(alloc);
    for number in 1..length {
        kinds.push(kind(alloc, format!(in alloc; "s Struct:{number}")?.as_str())?)?;
    }
    kinds.push(kind(alloc, "s Int")?)?;
    Ok(kinds)
}

#[test]
fn each_table_is_told(rt: HostRuntime) -> Result<(), Fail> {
    let (right, wrong) = check_rows(rt.alloc(), ROWS, told)?;
    assert_eq!(rt; wrong, None);
    assert_eq!(rt; right, 35);
    Ok(())
}

/// How many a table marks.
fn count(table: &[bool]) -> usize {
    let mut count: usize = 0;
    for mark in table {
        if *mark {
            count = count.saturating_add(1);
        }
    }
    count
}

#[test]
fn level_64_is_the_last(rt: HostRuntime) -> Result<(), Fail> {
    let alloc = rt.alloc();
    let most = holding_of(alloc, chain(alloc, 64)?.as_slice())?;
    assert_eq!(rt; (most.above.len(), count(most.above.as_slice())), (64, 0));
    assert_eq!(rt; most.levels.as_slice().first().copied(), Some(64));
    // of 66 the first has level 66, the second 65
    let more = holding_of(alloc, chain(alloc, 66)?.as_slice())?;
    assert_eq!(rt; (more.above.len(), count(more.above.as_slice())), (66, 2));
    assert_eq!(rt; more.above.first().copied(), Some(true));
    assert_eq!(rt; more.above.get(1).copied(), Some(true));
    assert_eq!(rt; count(more.circular.as_slice()), 0);
    assert_eq!(rt; more.levels.as_slice().get(1).copied(), Some(0));
    assert_eq!(rt; more.levels.as_slice().get(2).copied(), Some(64));
    Ok(())
}
