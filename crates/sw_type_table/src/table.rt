//! The table of declared types.

ghost use Rattle.std.specs.Prelude.{◌≡◌, [], ◌++◌, ◌||◌, codes, map, IfOk, OnOk};
ghost use Rattle.std.specs.List.{flat_map};
ghost use Rattle.sw_declared.specs.Declarations.{members_in};
ghost use Rattle.sw_declared.specs.declared.names.Form.TheVariants.{Enum, Protocol};
ghost use Rattle.sw_type_table.specs.Table.{actor_form, conforms_to, entries_in, entry, item_cases, item_properties, requirement_entry, stored_properties, table};

use crate::conformances::{conforms_to, protocols_of};
use crate::entry::TypeEntry;
use crate::properties::{item_cases, item_properties, properties_of};
use crate::requirements::requirements_of;
use std::alloc::Global;
use sw_base::{Duplicate, Items, NoMemory};
use sw_declared::{Form, Members, Names, is_distributed, members_in};
use sw_tree::{Decl, EnumItem, Heading, Member, Name, Requirement, Tree};

/// Tells whether `Equatable` or `Hashable` is one of the names, where nothing hides it.
fn is_equatable(names: &Names, own: &Members, conformances: &[Name]) -> bool
    ensures { result ≡ (conforms_to names.now own.now (codes "Equatable") conformances.now || conforms_to names.now own.now (codes "Hashable") conformances.now) }
{
    conforms_to(names, own, b"Equatable", conformances)
        || conforms_to(names, own, b"Hashable", conformances)
}

/// The entry of a type as its heading tells it, without properties, cases and requirements.
fn bare_entry(
    alloc: Global,
    names: &Names,
    own: &Members,
    heading: &Heading,
    form: Form,
) -> Result<TypeEntry, NoMemory>
    ensures { IfOk result (λ found. found ≡ entry names.now own.now heading.now form [] [] []) }
{
    let conformances = heading.conformances.as_slice();
    Ok(TypeEntry {
        name: heading.name.text.copy()?,
        form,
        properties: Items::new(alloc),
        cases: Items::new(alloc),
        requirements: Items::new(alloc),
        protocols: protocols_of(alloc, names, own, conformances)?,
        is_codable: conforms_to(names, own, b"Codable", conformances),
        is_equatable: is_equatable(names, own, conformances),
        is_error: conforms_to(names, own, b"Error", conformances),
    })
}

/// The entry of a struct or an actor.
fn member_entry(
    alloc: Global,
    names: &Names,
    own: &Members,
    heading: &Heading,
    form: Form,
    members: &[Member],
) -> Result<TypeEntry, NoMemory>
    ensures { IfOk result (λ found. found ≡ entry names.now own.now heading.now form (flat_map (stored_properties names.now own.now) members.now) [] []) }
{
    let mut entry = bare_entry(alloc, names, own, heading, form)?;
    entry.properties = properties_of(alloc, names, own, members)?;
    Ok(entry)
}

fn enum_entry(
    alloc: Global,
    names: &Names,
    own: &Members,
    heading: &Heading,
    items: &[EnumItem],
) -> Result<TypeEntry, NoMemory>
    ensures { IfOk result (λ found. found ≡ entry names.now own.now heading.now Enum (flat_map (item_properties names.now own.now) items.now) (flat_map (item_cases names.now own.now) items.now) []) }
{
    let mut entry = bare_entry(alloc, names, own, heading, Form::Enum)?;
    entry.properties = item_properties(alloc, names, own, items)?;
    entry.cases = item_cases(alloc, names, own, items)?;
    Ok(entry)
}

fn protocol_entry(
    alloc: Global,
    names: &Names,
    own: &Members,
    heading: &Heading,
    requirements: &[Requirement],
) -> Result<TypeEntry, NoMemory>
    ensures { IfOk result (λ found. found ≡ entry names.now own.now heading.now Protocol [] [] (map (requirement_entry names.now own.now) requirements.now)) }
{
    let mut entry = bare_entry(alloc, names, own, heading, Form::Protocol)?;
    entry.requirements = requirements_of(alloc, names, own, requirements)?;
    Ok(entry)
}

fn actor_form(heading: &Heading) -> Form
    ensures { result ≡ actor_form heading.now }
{
    if is_distributed(heading) {
        Form::DistributedActor
    } else {
        Form::Actor
    }
}

/// Adds the entry of the type that a declaration with these members declares, if it does.
fn push_entry_of(
    alloc: Global,
    names: &Names,
    own: &Members,
    entries: &mut Items<TypeEntry>,
    decl: &Decl,
) -> Result<(), NoMemory>
    requires { own.now ≡ members_in decl.now }
    ensures { OnOk result (entries.new ≡ entries.old ++ entries_in names.now decl.now) }
{
    match decl {
        Decl::Struct(heading, members) => {
            let members = members.as_slice();
            entries.push(member_entry(alloc, names, own, heading, Form::Struct, members)?)
        }
        Decl::Enum(heading, items) => {
            entries.push(enum_entry(alloc, names, own, heading, items.as_slice())?)
        }
        Decl::Protocol(heading, requirements) => {
            let requirements = requirements.as_slice();
            entries.push(protocol_entry(alloc, names, own, heading, requirements)?)
        }
        Decl::Actor(heading, members) => {
            let (form, members) = (actor_form(heading), members.as_slice());
            entries.push(member_entry(alloc, names, own, heading, form, members)?)
        }
        _ => Ok(()),
    }
}

/// Adds the entry of the type that a declaration declares, if it does.
fn push_entry(
    alloc: Global,
    names: &Names,
    entries: &mut Items<TypeEntry>,
    decl: &Decl,
) -> Result<(), NoMemory>
    ensures { OnOk result (entries.new ≡ entries.old ++ entries_in names.now decl.now) }
{
    match members_in(alloc, decl) {
        Ok(own) => push_entry_of(alloc, names, &own, entries, decl),
        Err(NoMemory) => Err(NoMemory),
    }
}

/// The table of the types that a source declares, in the order of the source: the type with the number n, from 1,
/// stands at n - 1. The only error is want of memory, or of numbers for types.
pub fn type_table(alloc: Global, names: &Names, tree: &Tree) -> Result<Items<TypeEntry>, NoMemory>
    ensures { IfOk result (λ entries. entries ≡ table names.now tree.now) }
{
    let mut entries = Items::new(alloc);
    for decl in tree.decls.as_slice() {
        push_entry(alloc, names, &mut entries, decl)?;
    }
    Ok(entries)
}
