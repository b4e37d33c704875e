//! Stored properties, cases and requirements as declarations.

ghost use Rattle.std.specs.Prelude.{◌≡◌, ◌++◌, [], ◌∷◌, IfOk, OnOk};
ghost use Rattle.sw_facts.specs.Members.{case_labels, case_of, changes, is_variable, property, requirement_of, written_type};
ghost use Rattle.sw_facts.specs.Numbers.{numbered};
ghost use Rattle.sw_type_table.specs.declared.entry.Requirement.TheVariants as requirement;

use crate::numbers::after;
use std::alloc::Global;
use sw_base::{ArgLabels, Duplicate, Items, NoMemory, TypeNo};
use sw_members::{Declaration, Declarations};
use sw_tree::Binding;
use sw_type_table::{CaseEntry, Property, Requirement, Signature, WrittenType};
use sw_typed::Entity;
use sw_typing::bare;
use sw_value::{Base, Ty};

/// The type that a property is written with, where it is one.
pub(crate) fn written_type(x: &WrittenType) -> Result<Option<Ty>, NoMemory>
    ensures { IfOk result (λ t. t ≡ written_type x.now) }
{
    match x {
        WrittenType::Absent => Ok(None),
        WrittenType::NoType => Ok(None),
        WrittenType::Known(t) => Ok(Some(t.copy()?)),
    }
}

fn is_variable(binding: Binding) -> bool
    ensures { result ≡ is_variable binding }
{
    match binding {
        Binding::Let => false,
        Binding::Var => true,
    }
}

fn property(
    alloc: Global,
    owner: TypeNo,
    number: u32,
    x: &Property,
) -> Result<Declaration, NoMemory>
    ensures { IfOk result (λ made. made ≡ property owner number x.now) }
{
    Ok(Declaration {
        name: x.name.copy()?,
        labels: None,
        is_static: x.is_static,
        entity: Entity::Stored(owner, number, x.binding),
        takes: Items::new(alloc),
        gives: written_type(&x.declared)?,
        is_mutating: false,
        is_var: is_variable(x.binding),
    })
}

fn push_property(
    alloc: Global,
    list: &mut Declarations,
    owner: TypeNo,
    number: u32,
    x: &Property,
) -> Result<(), NoMemory>
    ensures { OnOk result (list.new ≡ list.old ++ property owner number x.now ∷ []) }
{
    list.push(property(alloc, owner, number, x)?)
}

/// Adds the stored properties of a type, by their numbers.
pub(crate) fn push_properties(
    alloc: Global,
    list: &mut Declarations,
    owner: TypeNo,
    properties: &[Property],
) -> Result<(), NoMemory>
    ensures { OnOk result (list.new ≡ list.old ++ numbered (property owner) 0 properties.now) }
{
    let mut number: u32 = 0;
    for x in properties {
        push_property(alloc, list, owner, number, x)?;
        number = after(number, 1)?;
    }
    Ok(())
}

/// With what a case is called; none where it has no payload.
fn case_labels(labels: &ArgLabels) -> Result<Option<ArgLabels>, NoMemory>
    ensures { IfOk result (λ called. called ≡ case_labels labels.now) }
{
    if labels.is_empty() {
        return Ok(None);
    }
    Ok(Some(labels.copy()?))
}

fn case_of(
    alloc: Global,
    owner: TypeNo,
    number: u32,
    x: &CaseEntry,
) -> Result<Declaration, NoMemory>
    ensures { IfOk result (λ made. made ≡ case_of owner number x.now) }
{
    Ok(Declaration {
        name: x.name.copy()?,
        labels: case_labels(&x.labels)?,
        is_static: true,
        entity: Entity::Case(owner, number),
        takes: x.types.copy()?,
        gives: Some(bare(alloc, Base::Enum(owner))),
        is_mutating: false,
        is_var: false,
    })
}

fn push_case(
    alloc: Global,
    list: &mut Declarations,
    owner: TypeNo,
    number: u32,
    x: &CaseEntry,
) -> Result<(), NoMemory>
    ensures { OnOk result (list.new ≡ list.old ++ case_of owner number x.now ∷ []) }
{
    list.push(case_of(alloc, owner, number, x)?)
}

/// Adds the cases of an enum, by their numbers.
pub(crate) fn push_cases(
    alloc: Global,
    list: &mut Declarations,
    owner: TypeNo,
    cases: &[CaseEntry],
) -> Result<(), NoMemory>
    ensures { OnOk result (list.new ≡ list.old ++ numbered (case_of owner) 0 cases.now) }
{
    let mut number: u32 = 0;
    for x in cases {
        push_case(alloc, list, owner, number, x)?;
        number = after(number, 1)?;
    }
    Ok(())
}

/// Tells whether a func changes the value on which it is called. A static one is called on none.
pub(crate) fn changes(is_mutating: bool, is_static: bool) -> bool
    ensures { result ≡ changes is_mutating is_static }
{
    is_mutating && !is_static
}

fn required_func(owner: TypeNo, number: u32, x: &Signature) -> Result<Declaration, NoMemory>
    ensures { IfOk result (λ made. made ≡ requirement_of owner number (requirement.Func x.now)) }
{
    Ok(Declaration {
        name: x.name.copy()?,
        labels: Some(x.labels.copy()?),
        is_static: x.is_static,
        entity: Entity::Requirement(owner, number),
        takes: x.types.copy()?,
        gives: x.result.copy()?,
        is_mutating: changes(x.is_mutating, x.is_static),
        is_var: false,
    })
}

fn requirement_of(
    alloc: Global,
    owner: TypeNo,
    number: u32,
    x: &Requirement,
) -> Result<Declaration, NoMemory>
    ensures { IfOk result (λ made. made ≡ requirement_of owner number x.now) }
{
    match x {
        Requirement::Func(x) => required_func(owner, number, x),
        Requirement::Property(name, t) => Ok(Declaration {
            name: name.copy()?,
            labels: None,
            is_static: false,
            entity: Entity::Requirement(owner, number),
            takes: Items::new(alloc),
            gives: t.copy()?,
            is_mutating: false,
            is_var: false,
        }),
    }
}

fn push_requirement(
    alloc: Global,
    list: &mut Declarations,
    owner: TypeNo,
    number: u32,
    x: &Requirement,
) -> Result<(), NoMemory>
    ensures { OnOk result (list.new ≡ list.old ++ requirement_of owner number x.now ∷ []) }
{
    list.push(requirement_of(alloc, owner, number, x)?)
}

/// Adds the requirements of a protocol, by their numbers.
pub(crate) fn push_requirements(
    alloc: Global,
    list: &mut Declarations,
    owner: TypeNo,
    requirements: &[Requirement],
) -> Result<(), NoMemory>
    ensures { OnOk result (list.new ≡ list.old ++ numbered (requirement_of owner) 0 requirements.now) }
{
    let mut number: u32 = 0;
    for x in requirements {
        push_requirement(alloc, list, owner, number, x)?;
        number = after(number, 1)?;
    }
    Ok(())
}
