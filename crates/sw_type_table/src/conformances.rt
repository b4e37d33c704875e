//! What stands after the `:` of a heading.

ghost use Rattle.std.specs.Prelude.{◌≡◌, ◌++◌, ◌&&◌, not, is_none, IfOk, OnOk};
ghost use Rattle.std.specs.List.{flat_map, list_any};
ghost use Rattle.sw_sight.specs.InSight.{same};
ghost use Rattle.sw_type_table.specs.Table.{conforms_to, protocols_in};
ghost use Rattle.sw_type_table.specs.Written.{is_hidden, type_named};

use crate::finding::{is_hidden, same, type_named};
use std::alloc::Global;
use sw_base::{Items, NoMemory, TypeNo};
use sw_declared::{Form, Members, Names};
use sw_tree::Name;

/// Adds the declared protocol that a name stands for, if it does.
fn push_protocol(
    names: &Names,
    own: &Members,
    protocols: &mut Items<TypeNo>,
    name: &Name,
) -> Result<(), NoMemory>
    ensures { OnOk result (protocols.new ≡ protocols.old ++ protocols_in names.now own.now name.now) }
{
    if is_hidden(names, own, name.text.as_bytes()) {
        return Ok(());
    }
    match type_named(names, name.text.as_bytes())? {
        Some((number, Form::Protocol)) => protocols.push(number),
        _ => Ok(()),
    }
}

/// The declared protocols among these names.
pub(crate) fn protocols_of(
    alloc: Global,
    names: &Names,
    own: &Members,
    conformances: &[Name],
) -> Result<Items<TypeNo>, NoMemory>
    ensures { IfOk result (λ protocols. protocols ≡ flat_map (protocols_in names.now own.now) conformances.now) }
{
    let mut protocols = Items::new(alloc);
    for name in conformances {
        push_protocol(names, own, &mut protocols, name)?;
    }
    Ok(protocols)
}

fn is_among(built_in: &[u8], names: &[Name]) -> bool
    ensures { result ≡ list_any (λ name. same built_in.now name.text) names.now }
{
    names
        .iter()
        .any(|name| same(built_in, name.text.as_bytes()))
}

/// Tells whether neither the own type nor the file declares what has the name.
#[tactic(auto, using(crate::proofs::Numbers::none_named))]
fn is_free(names: &Names, own: &Members, name: &[u8]) -> bool
    ensures { result ≡ (not (is_hidden names.now own.now name.now) && is_none (type_named names.now name.now)) }
{
    !is_hidden(names, own, name) && !names.types.has(name)
}

/// Tells whether one of the names is this built-in one, which nothing hides.
pub(crate) fn conforms_to(
    names: &Names,
    own: &Members,
    built_in: &[u8],
    conformances: &[Name],
) -> bool
    ensures { result ≡ conforms_to names.now own.now built_in.now conformances.now }
{
    is_among(built_in, conformances) && is_free(names, own, built_in)
}
