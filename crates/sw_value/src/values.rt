//! Changes of what copies share: done in place where nobody else has it.

ghost use Rattle.std.specs.Prelude.{◌≡◌, ◌<◌, ◌++◌, [], ◌∷◌, IfOk, Some, length, slice_get, slice_set};
ghost use Rattle.sw_value.specs.declared.value.Value.TheVariants.{Void};

use crate::shared::Shared;
use crate::value::{Value, Values};
use sqlite_items::Items;
use std::alloc::Global;
use sw_base::{Duplicate, NoMemory};

/// A list of equal values. The only error is want of memory.
pub fn copy_all(alloc: Global, values: &[Value]) -> Result<Items<Value>, NoMemory>
    ensures { IfOk result (λ copied. copied ≡ values.now) }
{
    let mut copied = Items::new(alloc);
    for value in values {
        copied.push(value.copy()?)?;
    }
    Ok(copied)
}

/// The values of a list, to be changed: the list's own where nobody shares them, else copies of each.
/// The only error is want of memory.
pub fn own_items(alloc: Global, values: Values) -> Result<Items<Value>, NoMemory>
    ensures { IfOk result (λ items. items ≡ values) }
{
    match values.into_sole() {
        Ok(items) => Ok(items),
        Err(shared) => copy_all(alloc, shared.get().as_slice()),
    }
}

/// The value of an optional that is there, to be changed. The only error is want of memory.
pub fn own_value(present: Shared<Value>) -> Result<Value, NoMemory>
    ensures { IfOk result (λ value. value ≡ present) }
{
    match present.into_sole() {
        Ok(value) => Ok(value),
        Err(shared) => shared.get().copy(),
    }
}

/// The list with another value at an index that it has. The only error is want of memory.
pub fn with_item(alloc: Global, values: Values, at: usize, value: Value) -> Result<Values, NoMemory>
    requires { at < length values }
    ensures { IfOk result (λ changed. changed ≡ slice_set values at value) }
{
    let mut items = own_items(alloc, values)?;
    items.set(at, value);
    Shared::new(alloc, items)
}

/// The value at an index that the list has, and the list with `Void` in its place. What was not shared
/// is not shared then either, so that it can be changed in place and put back by `with_item`. The only
/// error is want of memory.
pub fn take_item(alloc: Global, values: Values, at: usize) -> Result<(Value, Values), NoMemory>
    requires { at < length values }
    ensures item { IfOk result (λ taken. slice_get values at ≡ Some taken.0) }
    ensures rest { IfOk result (λ taken. taken.1 ≡ slice_set values at Void) }
{
    let mut items = own_items(alloc, values)?;
    let item = items.as_slice()[at].copy()?;
    // the copy is the only one once this has dropped what it was made of
    items.set(at, Value::Void);
    Ok((item, Shared::new(alloc, items)?))
}

/// The list with another value at its end. The only error is want of memory.
pub fn with_last(alloc: Global, values: Values, value: Value) -> Result<Values, NoMemory>
    ensures { IfOk result (λ changed. changed ≡ values ++ value ∷ []) }
{
    let mut items = own_items(alloc, values)?;
    items.push(value)?;
    Shared::new(alloc, items)
}
