//! Values, operators, types and tables by rows.

mod rows;

use crate::tables::{base_of, kinds, ty_of};
use rows::{CROSSING, FITTING, OPERATORS, SETTLED};
use sqlite_items::Items as Parts;
use std::alloc::Global;
use std::test::Fail;
use sw_base::{ActNo, ActorId, Items, NoMemory, NodeNo, Text, TypeNo};
use sw_value::{
    Base, Kinds, Op, OpError, Shared, Value, Values, apply, fits, has_meaning, is_codable,
};
use test_rows::check_rows;

/// A number of a word `NAME:NUMBER:NUMBER..`, counted from 1; 0 where there is none.
fn number(word: &str, at: usize) -> u64 {
    match word.split(':').nth(at) {
        Some(digits) => digits.parse::<u64>().unwrap_or(0),
        None => 0,
    }
}

fn kind(word: &str) -> TypeNo {
    TypeNo(u32::try_from(number(word, 1)).unwrap_or(0))
}

fn node(word: &str, at: usize) -> NodeNo {
    NodeNo(u8::try_from(number(word, at)).unwrap_or(0))
}

fn name(alloc: Global) -> Result<Text, NoMemory> {
    Text::from_bytes(alloc, b"a name of more than fourteen bytes")
}

fn named(alloc: Global, node: NodeNo) -> Result<ActorId, NoMemory> {
    Ok(ActorId::Named {
        node,
        name: name(alloc)?,
    })
}

fn string(alloc: Global, bytes: &[u8]) -> Result<Value, NoMemory> {
    Ok(Value::Str(Shared::new(alloc, Text::from_bytes(alloc, bytes)?)?))
}

/// So many bytes.
fn long(alloc: Global, count: u64) -> Result<Value, NoMemory> {
    let mut bytes = Vec::new(alloc);
    for _ in 0..count {
        bytes.push(b'x')?;
    }
    string(alloc, bytes.as_slice())
}

/// So many zeros.
fn zeros(alloc: Global, count: u64) -> Result<Value, NoMemory> {
    let mut items = Parts::new(alloc);
    for _ in 0..count {
        items.push(Value::Int(0))?;
    }
    Ok(Value::List(Shared::new(alloc, items)?))
}

/// The last so many values of a stack, in order.
fn taken(alloc: Global, stack: &mut Vec<Value>, count: u64) -> Result<Values, NoMemory> {
    let mut items = Parts::new(alloc);
    let length = stack.len();
    let from = length.saturating_sub(count as usize);
    for _ in from..length {
        if from < stack.len() {
            items.push(stack.remove(from))?;
        }
    }
    Shared::new(alloc, items)
}

/// The value of a word that takes none off the stack.
fn alone(alloc: Global, word: &str) -> Result<Option<Value>, NoMemory> {
    if let Ok(n) = word.parse::<i64>() {
        return Ok(Some(Value::Int(n)));
    }
    let (head, rest) = word.split_once(':').unwrap_or((word, ""));
    Ok(match head {
        "true" => Some(Value::Bool(true)),
        "false" => Some(Value::Bool(false)),
        "nil" => Some(Value::Absent),
        "void" => Some(Value::Void),
        "str" => Some(string(alloc, rest.as_bytes())?),
        "no-text" => Some(string(alloc, b"\xff")?),
        "string" => Some(long(alloc, number(word, 1))?),
        "array" => Some(zeros(alloc, number(word, 1))?),
        _ => identity(alloc, head, word)?,
    })
}

/// The value of a word that names an actor, an identity or a system.
fn identity(alloc: Global, head: &str, word: &str) -> Result<Option<Value>, NoMemory> {
    Ok(match head {
        "plain" => Some(Value::Plain {
            kind: kind(word),
            act: ActNo(number(word, 2)),
        }),
        "remote" => Some(Value::Remote {
            kind: kind(word),
            id: named(alloc, node(word, 2))?,
        }),
        "named" => Some(Value::Id(named(alloc, node(word, 1))?)),
        "numbered" => Some(Value::Id(ActorId::Numbered {
            node: node(word, 1),
            epoch: 1,
            number: 2,
        })),
        "system" => Some(Value::System {
            node: node(word, 1),
            name: Some(name(alloc)?),
        }),
        _ => None,
    })
}

/// The value that a word makes of those on the stack.
fn made(alloc: Global, stack: &mut Vec<Value>, word: &str) -> Result<Option<Value>, NoMemory> {
    let (head, _) = word.split_once(':').unwrap_or((word, ""));
    Ok(match head {
        "list" => Some(Value::List(taken(alloc, stack, number(word, 1))?)),
        "made" => Some(Value::Made {
            kind: kind(word),
            parts: taken(alloc, stack, number(word, 2))?,
        }),
        "case" => Some(Value::Case {
            kind: kind(word),
            case_no: u8::try_from(number(word, 2)).unwrap_or(0),
            parts: taken(alloc, stack, number(word, 3))?,
        }),
        "some" => match stack.pop() {
            Some(value) => Some(Value::Present(Shared::new(alloc, value)?)),
            None => None,
        },
        _ => None,
    })
}

/// The values that words leave, and the first word that is none of theirs.
fn read<'a>(alloc: Global, words: &'a str) -> Result<(Vec<Value>, &'a str), NoMemory> {
    let mut stack = Vec::new(alloc);
    for word in words.split(' ') {
        let value = match alone(alloc, word)? {
            Some(value) => Some(value),
            None => made(alloc, &mut stack, word)?,
        };
        match value {
            Some(value) => stack.push(value)?,
            None => return Ok((stack, word)),
        }
    }
    Ok((stack, ""))
}

fn operator(word: &str) -> Option<Op> {
    match word {
        "*" => Some(Op::Mul),
        "/" => Some(Op::Div),
        "%" => Some(Op::Rem),
        "+" => Some(Op::Add),
        "-" => Some(Op::Sub),
        "==" => Some(Op::Eq),
        "!=" => Some(Op::Ne),
        "<" => Some(Op::Lt),
        "<=" => Some(Op::Le),
        ">" => Some(Op::Gt),
        ">=" => Some(Op::Ge),
        _ => None,
    }
}

/// A long string or an array by its length, and any other value as it is displayed.
fn told(alloc: Global, value: &Value) -> Result<String, Fail> {
    Ok(match value {
        Value::Str(text) if text.get().as_bytes().len() > 20 => {
            format!(in alloc; "{} bytes", text.get().as_bytes().len())?
        }
        Value::Str(text) => format!(in alloc; "{:?}", text.get().as_bytes())?,
        Value::List(items) => format!(in alloc; "{} items", items.get().len())?,
        _ => format!(in alloc; "{value:?}")?,
    })
}

fn text(alloc: Global, written: &str) -> Result<Text, Fail> {
    Ok(Text::from_bytes(alloc, written.as_bytes())?)
}

/// What the operator of a row gives, or its trap.
fn given(alloc: Global, row: &[u8]) -> Result<Text, Fail> {
    let Ok(row) = std::str::from_utf8(row) else {
        return text(alloc, "no text");
    };
    let (mut stack, word) = read(alloc, row)?;
    let (Some(op), Some(right), Some(left)) = (operator(word), stack.pop(), stack.pop()) else {
        return text(alloc, "no row");
    };
    if !has_meaning(op, &left, &right) {
        return text(alloc, "no meaning");
    }
    match apply(alloc, op, &left, &right) {
        Ok(value) => text(alloc, told(alloc, &value)?.as_str()),
        Err(OpError::Trap(kind)) => text(alloc, format!(in alloc; "{kind:?}")?.as_str()),
        Err(OpError::NoMemory) => text(alloc, "no memory"),
    }
}

fn truth(alloc: Global, holds: bool) -> Result<Text, Fail> {
    text(alloc, if holds { "true" } else { "false" })
}

fn levels(alloc: Global, words: &str) -> Result<Items<u8>, NoMemory> {
    let mut levels = Items::new(alloc);
    for word in words.split(' ') {
        levels.push(word.parse::<u8>().unwrap_or(0))?;
    }
    Ok(levels)
}

/// The table where `List` holds an `Int`.
fn table(alloc: Global) -> Result<Option<Kinds>, NoMemory> {
    let numbers = levels(alloc, "1 1 2 1 1 2 0 0 1")?;
    Ok(Kinds::new(kinds(alloc, Base::Int)?, numbers))
}

/// Whether the value of a row fits its type.
fn fitted(alloc: Global, row: &[u8]) -> Result<Text, Fail> {
    let Ok(row) = std::str::from_utf8(row) else {
        return text(alloc, "no text");
    };
    let (mut stack, word) = read(alloc, row)?;
    let (Some(value), Some(table)) = (stack.pop(), table(alloc)?) else {
        return text(alloc, "no row");
    };
    truth(alloc, fits(&table, &value, &ty_of(alloc, word)?))
}

/// Whether the type of a row may cross.
fn crossed(alloc: Global, row: &[u8]) -> Result<Text, Fail> {
    let Ok(row) = std::str::from_utf8(row) else {
        return text(alloc, "no text");
    };
    let Some(table) = table(alloc)? else {
        return text(alloc, "no table");
    };
    truth(alloc, is_codable(&table, &ty_of(alloc, row)?))
}

/// Whether there is the table of a row.
fn settled(alloc: Global, row: &[u8]) -> Result<Text, Fail> {
    let Ok(row) = std::str::from_utf8(row) else {
        return text(alloc, "no text");
    };
    let (word, numbers) = row.split_once(' ').unwrap_or((row, ""));
    let table = Kinds::new(kinds(alloc, base_of(word))?, levels(alloc, numbers)?);
    truth(alloc, table.is_some())
}

#[test]
fn each_row_is_answered_as_it_says(rt: HostRuntime) -> Result<(), Fail> {
    let (right, wrong) = check_rows(rt.alloc(), OPERATORS, given)?;
    assert_eq!(rt; (right, wrong), (87, None));
    let (right, wrong) = check_rows(rt.alloc(), FITTING, fitted)?;
    assert_eq!(rt; (right, wrong), (77, None));
    let (right, wrong) = check_rows(rt.alloc(), CROSSING, crossed)?;
    assert_eq!(rt; (right, wrong), (24, None));
    let (right, wrong) = check_rows(rt.alloc(), SETTLED, settled)?;
    assert_eq!(rt; (right, wrong), (16, None));
    Ok(())
}
