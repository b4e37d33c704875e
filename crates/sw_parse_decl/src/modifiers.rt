//! Modifiers.

ghost use Rattle.std.specs.Prelude.{◌≤◌, [], drop, length};
ghost use Rattle.sw_syntax.specs.Members.{mods_from};
ghost use Rattle.sw_syntax.specs.ReadResults.{Gives, Inside, Stays};

use crate::builders;
use sqlite_items::Items;
use std::alloc::Global;
use sw_syntax::{Budget, Opening, Read, TokenView, stands, trimmed};
use sw_tree::Modifier;

/// The modifiers at this position, perhaps none.
pub fn modifiers(
    alloc: Global,
    view: &TokenView,
    lenient: bool,
    at: usize,
    budget: Budget,
) -> Read<Items<Modifier>>
    requires { at ≤ length view.now }
    ensures gives { Gives view.now result (mods_from lenient budget.brackets budget.limit budget.left [] (drop at view.now)) }
    ensures stays { Stays at result }
    ensures inside { Inside (length view.now) result }
{
    let mut xs = Items::new(alloc);
    let mut end = at;
    'modifiers: while stands(view, end, Opening::Modifier) {
        let (token, next) = view.take(end);
        xs.push(builders::modifier(token))?;
        end = next;
    }
    let kept = trimmed(alloc, xs)?;
    Ok((kept, end, budget.left))
}
