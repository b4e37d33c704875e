//! Lists of a tree.

ghost use Rattle.std.specs.Prelude.{◌≡◌, IfOk};

use sqlite_items::Items;
use std::alloc::{AllocError, Global};

/// Below this length a list is moved into a block of its own size.
const SHORT: usize = 8;

/// The same list without spare room, if it is a short one.
///
/// Most lists of a tree have one or two elements, and a list grows to room for four at its first. One
/// of eight or more has at most as much spare room as elements, and moving it would take both blocks
/// at once.
pub fn trimmed<T: Drop>(alloc: Global, items: Items<T>) -> Result<Items<T>, AllocError>
    ensures { IfOk result (λ list. list ≡ items) }
{
    if items.is_empty() || items.len() >= SHORT {
        return Ok(items);
    }
    let mut list = Items::from_vec(Vec::with_capacity(alloc, items.len())?);
    list.append(items)?;
    Ok(list)
}
