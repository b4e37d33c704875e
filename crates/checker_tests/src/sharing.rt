//! Copies share what they are made of, and a change of one is not seen in another.

use sqlite_items::Items;
use std::alloc::Global;
use std::test::Fail;
use sw_base::{Duplicate, NoMemory, Text};
use sw_value::{Shared, Value, Values, copy_all, own_items, own_value, same, with_item, with_last};

fn zeros(alloc: Global, count: usize) -> Result<Values, NoMemory> {
    let mut items = Items::new(alloc);
    for _ in 0..count {
        items.push(Value::Int(0))?;
    }
    Shared::new(alloc, items)
}

/// The list with another value at an index, and the list itself where it has no such index.
fn set(alloc: Global, values: Values, at: usize, value: i64) -> Result<Values, NoMemory> {
    if at >= values.get().len() {
        return Ok(values);
    }
    with_item(alloc, values, at, Value::Int(value))
}

#[test]
fn a_change_of_a_copy_is_its_own(rt: HostRuntime) -> Result<(), Fail> {
    let list = zeros(rt.alloc(), 3)?;
    let changed = set(rt.alloc(), list.copy()?, 1, 7)?;
    assert!(rt; list == zeros(rt.alloc(), 3)?);
    assert!(rt; changed != list);
    let back = set(rt.alloc(), changed, 1, 0)?;
    assert!(rt; back == list);
    let longer = with_last(rt.alloc(), back, Value::Absent)?;
    assert_eq!(rt; longer.get().len(), 4);
    assert_eq!(rt; list.get().len(), 3);
    let items = own_items(rt.alloc(), longer.copy()?)?;
    assert_eq!(rt; items.len(), 4);
    assert_eq!(rt; copy_all(rt.alloc(), items.as_slice())?.len(), 4);
    Ok(())
}

#[test]
fn an_optional_gives_its_value(rt: HostRuntime) -> Result<(), Fail> {
    let text = Text::from_bytes(rt.alloc(), b"a text of more than fourteen bytes")?;
    let value = Value::Str(Shared::new(rt.alloc(), text)?);
    let present = Shared::new(rt.alloc(), value.copy()?)?;
    let shared = present.copy()?;
    assert!(rt; same(&own_value(present)?, &value));
    assert!(rt; same(&own_value(shared)?, &value));
    assert!(rt;
        same(
            &Value::Present(Shared::new(rt.alloc(), Value::Void)?).copy()?,
            &Value::Present(Shared::new(rt.alloc(), Value::Void)?)
        )
    );
    Ok(())
}

#[test]
fn a_million_elements_are_copied_compared_and_changed_in_place(
    rt: HostRuntime,
) -> Result<(), Fail> {
    let list = zeros(rt.alloc(), 1000000)?;
    let value = Value::List(list.copy()?);
    // each copy is one count, so that these are no 10^12 values
    for i in 0..1000000 {
        let copied = value.copy()?;
        if i % 100000 == 0 {
            assert!(rt; same(&copied, &value));
        }
    }
    drop(value);
    // the list is shared with nobody, so each change is made in place
    let mut changed = list;
    for i in 0..1000000 {
        changed = set(rt.alloc(), changed, i, 1)?;
    }
    assert!(rt; changed != zeros(rt.alloc(), 1000000)?);
    assert_eq!(rt; changed.get().len(), 1000000);
    Ok(())
}

#[test]
fn deep_optionals_are_copied_compared_and_dropped(rt: HostRuntime) -> Result<(), Fail> {
    let mut value = Value::Absent;
    let mut other = Value::Absent;
    for _ in 0..6500 {
        value = Value::Present(Shared::new(rt.alloc(), value)?);
        other = Value::Present(Shared::new(rt.alloc(), other)?);
    }
    assert!(rt; same(&value, &other));
    assert!(rt; same(&value.copy()?, &other));
    Ok(())
}
