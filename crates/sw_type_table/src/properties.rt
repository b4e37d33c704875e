//! The stored properties and cases of declared types.

ghost use Rattle.std.specs.Prelude.{◌≡◌, ◌++◌, map, IfOk, OnOk};
ghost use Rattle.std.specs.List.{flat_map};
ghost use Rattle.sw_declared.specs.Declarations.{payload_labels};
ghost use Rattle.sw_type_table.specs.Table.{case_entry, item_cases, item_properties, payload, stored_properties, written_type};
ghost use Rattle.sw_type_table.specs.Written.{written};

use crate::entry::{CaseEntry, Property, WrittenType};
use crate::marks::written;
use std::alloc::Global;
use sw_base::{ArgLabels, Duplicate, Items, NoMemory};
use sw_declared::{Members, Names, is_static, payload_labels};
use sw_tree::{Case, EnumItem, Member, Payload, Type};
use sw_value::Ty;

fn written_type(
    alloc: Global,
    names: &Names,
    own: &Members,
    t: &Option<Type>,
) -> Result<WrittenType, NoMemory>
    ensures { IfOk result (λ declared. declared ≡ written_type names.now own.now t.now) }
{
    match t {
        None => Ok(WrittenType::Absent),
        Some(t) => match written(alloc, names, own, t)? {
            None => Ok(WrittenType::NoType),
            Some(t) => Ok(WrittenType::Known(t)),
        },
    }
}

/// Adds the stored property that a member is, if it is one.
fn push_property(
    alloc: Global,
    names: &Names,
    own: &Members,
    properties: &mut Items<Property>,
    x: &Member,
) -> Result<(), NoMemory>
    ensures { OnOk result (properties.new ≡ properties.old ++ stored_properties names.now own.now x.now) }
{
    match x {
        Member::Stored(x) => properties.push(Property {
            name: x.name.text.copy()?,
            binding: x.binding,
            is_static: is_static(x.modifiers.as_slice()),
            declared: written_type(alloc, names, own, &x.declared)?,
            has_initial: x.initial.is_some(),
        }),
        _ => Ok(()),
    }
}

/// The stored properties among members.
pub(crate) fn properties_of(
    alloc: Global,
    names: &Names,
    own: &Members,
    members: &[Member],
) -> Result<Items<Property>, NoMemory>
    ensures { IfOk result (λ properties. properties ≡ flat_map (stored_properties names.now own.now) members.now) }
{
    let mut properties = Items::new(alloc);
    for member in members {
        push_property(alloc, names, own, &mut properties, member)?;
    }
    Ok(properties)
}

fn push_item_property(
    alloc: Global,
    names: &Names,
    own: &Members,
    properties: &mut Items<Property>,
    x: &EnumItem,
) -> Result<(), NoMemory>
    ensures { OnOk result (properties.new ≡ properties.old ++ item_properties names.now own.now x.now) }
{
    match x {
        EnumItem::Cases(_) => Ok(()),
        EnumItem::Member(x) => push_property(alloc, names, own, properties, x),
    }
}

/// The stored properties among the items of an enum.
pub(crate) fn item_properties(
    alloc: Global,
    names: &Names,
    own: &Members,
    items: &[EnumItem],
) -> Result<Items<Property>, NoMemory>
    ensures { IfOk result (λ properties. properties ≡ flat_map (item_properties names.now own.now) items.now) }
{
    let mut properties = Items::new(alloc);
    for item in items {
        push_item_property(alloc, names, own, &mut properties, item)?;
    }
    Ok(properties)
}

fn payload_types(
    alloc: Global,
    names: &Names,
    own: &Members,
    parts: &[Payload],
) -> Result<Items<Option<Ty>>, NoMemory>
    ensures { IfOk result (λ types. types ≡ map (λ p. written names.now own.now p.declared) parts.now) }
{
    let mut types = Items::new(alloc);
    for part in parts {
        types.push(written(alloc, names, own, &part.declared)?)?;
    }
    Ok(types)
}

/// The labels and types of a payload, where there is one.
fn payload_parts(
    alloc: Global,
    names: &Names,
    own: &Members,
    x: &Option<sqlite_items::Items<Payload>>,
) -> Result<(ArgLabels, Items<Option<Ty>>), NoMemory>
    ensures { IfOk result (λ parts. parts ≡ (payload_labels (payload x.now), map (λ p. written names.now own.now p.declared) (payload x.now))) }
{
    match x {
        None => Ok((Items::new(alloc), Items::new(alloc))),
        Some(parts) => Ok((
            payload_labels(alloc, parts.as_slice())?,
            payload_types(alloc, names, own, parts.as_slice())?,
        )),
    }
}

fn case_entry(alloc: Global, names: &Names, own: &Members, x: &Case) -> Result<CaseEntry, NoMemory>
    ensures { IfOk result (λ entry. entry ≡ case_entry names.now own.now x.now) }
{
    let (labels, types) = payload_parts(alloc, names, own, &x.payload)?;
    Ok(CaseEntry {
        name: x.name.text.copy()?,
        labels,
        types,
    })
}

fn push_cases(
    alloc: Global,
    names: &Names,
    own: &Members,
    entries: &mut Items<CaseEntry>,
    cases: &[Case],
) -> Result<(), NoMemory>
    ensures { OnOk result (entries.new ≡ entries.old ++ map (case_entry names.now own.now) cases.now) }
{
    for case in cases {
        entries.push(case_entry(alloc, names, own, case)?)?;
    }
    Ok(())
}

fn push_item_cases(
    alloc: Global,
    names: &Names,
    own: &Members,
    entries: &mut Items<CaseEntry>,
    x: &EnumItem,
) -> Result<(), NoMemory>
    ensures { OnOk result (entries.new ≡ entries.old ++ item_cases names.now own.now x.now) }
{
    match x {
        EnumItem::Cases(cases) => push_cases(alloc, names, own, entries, cases.as_slice()),
        EnumItem::Member(_) => Ok(()),
    }
}

/// The cases among the items of an enum.
pub(crate) fn item_cases(
    alloc: Global,
    names: &Names,
    own: &Members,
    items: &[EnumItem],
) -> Result<Items<CaseEntry>, NoMemory>
    ensures { IfOk result (λ entries. entries ≡ flat_map (item_cases names.now own.now) items.now) }
{
    let mut entries = Items::new(alloc);
    for item in items {
        push_item_cases(alloc, names, own, &mut entries, item)?;
    }
    Ok(entries)
}
