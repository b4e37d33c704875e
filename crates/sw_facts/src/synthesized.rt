//! The initialisers that types have without writing them.

ghost use Rattle.std.specs.Prelude.{◌≡◌, ◌+◌, ◌++◌, IfOk, OnOk, length};
ghost use Rattle.std.specs.List.{flat_map};
ghost use Rattle.sw_facts.specs.Members.{actor_initializer, memberwise, synthesized, unset_label, unset_type};

use crate::counts::{has_initializer, has_uninitialized};
use crate::funcs::initializer;
use crate::numbers::after;
use crate::parts::written_type;
use std::alloc::Global;
use sw_base::{ArgLabels, Duplicate, Items, NoMemory, Text};
use sw_declared::Form;
use sw_members::{Declaration, Declarations};
use sw_tree::Decl;
use sw_type_table::{Property, TypeEntry};
use sw_typing::bare;
use sw_value::{Base, Ty};

fn push_unset_label(labels: &mut ArgLabels, x: &Property) -> Result<(), NoMemory>
    ensures { OnOk result (labels.new ≡ labels.old ++ unset_label x.now) }
{
    if x.has_initial {
        return Ok(());
    }
    labels.push(Some(x.name.copy()?))
}

fn unset_labels(alloc: Global, properties: &[Property]) -> Result<ArgLabels, NoMemory>
    ensures { IfOk result (λ labels. labels ≡ flat_map unset_label properties.now) }
{
    let mut labels = Items::new(alloc);
    for x in properties {
        push_unset_label(&mut labels, x)?;
    }
    Ok(labels)
}

fn push_unset_type(types: &mut Items<Option<Ty>>, x: &Property) -> Result<(), NoMemory>
    ensures { OnOk result (types.new ≡ types.old ++ unset_type x.now) }
{
    if x.has_initial {
        return Ok(());
    }
    types.push(written_type(&x.declared)?)
}

fn unset_types(alloc: Global, properties: &[Property]) -> Result<Items<Option<Ty>>, NoMemory>
    ensures { IfOk result (λ types. types ≡ flat_map unset_type properties.now) }
{
    let mut types = Items::new(alloc);
    for x in properties {
        push_unset_type(&mut types, x)?;
    }
    Ok(types)
}

fn memberwise(
    alloc: Global,
    gives: Option<Base>,
    number: u32,
    properties: &[Property],
) -> Result<Declaration, NoMemory>
    ensures { IfOk result (λ made. made ≡ memberwise gives number properties.now) }
{
    let labels = unset_labels(alloc, properties)?;
    let takes = unset_types(alloc, properties)?;
    initializer(alloc, gives, number, labels, takes)
}

fn actor_initializer(
    alloc: Global,
    gives: Option<Base>,
    number: u32,
    form: Form,
) -> Result<Declaration, NoMemory>
    ensures { IfOk result (λ made. made ≡ actor_initializer gives number form) }
{
    let mut labels = Items::new(alloc);
    let mut takes = Items::new(alloc);
    match form {
        Form::DistributedActor => {
            labels.push(Some(Text::from_bytes(alloc, b"actorSystem")?))?;
            takes.push(Some(bare(alloc, Base::System)))?;
            initializer(alloc, gives, number, labels, takes)
        }
        _ => initializer(alloc, gives, number, labels, takes),
    }
}

/// Adds the initialiser that the type of a declaration has without writing it, if it does; gives the next number.
pub(crate) fn push_synthesized(
    alloc: Global,
    list: &mut Declarations,
    gives: Option<Base>,
    number: u32,
    decl: &Decl,
    entry: &TypeEntry,
) -> Result<u32, NoMemory>
    ensures list { OnOk result (list.new ≡ list.old ++ synthesized gives number decl.now entry.now) }
    ensures next { IfOk result (λ n. n ≡ number + length (synthesized gives number decl.now entry.now)) }
{
    let properties = entry.properties.as_slice();
    match decl {
        Decl::Struct(_, members) => {
            if has_initializer(members.as_slice()) {
                return Ok(number);
            }
            list.push(memberwise(alloc, gives, number, properties)?)?;
            after(number, 1)
        }
        Decl::Actor(_, members) => {
            if has_initializer(members.as_slice()) || has_uninitialized(members.as_slice()) {
                return Ok(number);
            }
            list.push(actor_initializer(alloc, gives, number, entry.form)?)?;
            after(number, 1)
        }
        _ => Ok(number),
    }
}
