//! The funcs, getters and initialisers of a declaration.

ghost use Rattle.std.specs.Prelude.{◌≡◌, ◌++◌, IfOk, OnOk, ◌∷◌, [], None, Some, false, map};
ghost use Rattle.sw_declared.specs.declared.names.FuncKind.TheVariants.{TopLevel};
ghost use Rattle.std.specs.List.{flat_map, list_any};
ghost use Rattle.sw_declared.specs.Declarations.{actor_funcs, declared_func, funcs_in, is_initializer, is_uninitialized, item_funcs, member_funcs, parameter_labels, struct_funcs, synthesized, uninitialized};

use crate::labels::{is_distributed, is_static, parameter_labels};
use crate::names::{DeclaredFunc, FuncKind};
use crate::tables::Funcs;
use std::alloc::Global;
use sw_base::{ArgLabels, Duplicate, Items, NoMemory, Text, TypeNo};
use sw_tree::{Decl, EnumItem, Func, Member};

/// Adds the func, getter or initialiser that a member of a type is, if it is one.
fn push_member_func(
    alloc: Global,
    funcs: &mut Funcs,
    owner: TypeNo,
    x: &Member,
) -> Result<(), NoMemory>
    ensures { OnOk result (funcs.new ≡ funcs.old ++ member_funcs owner x.now) }
{
    match x {
        Member::Stored(_) => Ok(()),
        Member::Computed(x) => funcs.push(DeclaredFunc {
            owner: Some(owner),
            kind: FuncKind::Getter,
            name: x.name.text.copy()?,
            labels: Items::new(alloc),
            is_static: is_static(x.modifiers.as_slice()),
        }),
        Member::Func(x) => funcs.push(DeclaredFunc {
            owner: Some(owner),
            kind: FuncKind::Method,
            name: x.signature.name.text.copy()?,
            labels: parameter_labels(alloc, x.signature.parameters.as_slice())?,
            is_static: is_static(x.signature.modifiers.as_slice()),
        }),
        Member::Initializer(x) => funcs.push(DeclaredFunc {
            owner: Some(owner),
            kind: FuncKind::Initializer,
            name: Text::from_bytes(alloc, b"init")?,
            labels: parameter_labels(alloc, x.parameters.as_slice())?,
            is_static: false,
        }),
        Member::Typealias(_) => Ok(()),
    }
}

fn push_item_func(
    alloc: Global,
    funcs: &mut Funcs,
    owner: TypeNo,
    x: &EnumItem,
) -> Result<(), NoMemory>
    ensures { OnOk result (funcs.new ≡ funcs.old ++ item_funcs owner x.now) }
{
    match x {
        EnumItem::Cases(_) => Ok(()),
        EnumItem::Member(x) => push_member_func(alloc, funcs, owner, x),
    }
}

fn push_member_funcs(
    alloc: Global,
    funcs: &mut Funcs,
    owner: TypeNo,
    members: &[Member],
) -> Result<(), NoMemory>
    ensures { OnOk result (funcs.new ≡ funcs.old ++ flat_map (member_funcs owner) members.now) }
{
    for member in members {
        push_member_func(alloc, funcs, owner, member)?;
    }
    Ok(())
}

fn push_item_funcs(
    alloc: Global,
    funcs: &mut Funcs,
    owner: TypeNo,
    items: &[EnumItem],
) -> Result<(), NoMemory>
    ensures { OnOk result (funcs.new ≡ funcs.old ++ flat_map (item_funcs owner) items.now) }
{
    for item in items {
        push_item_func(alloc, funcs, owner, item)?;
    }
    Ok(())
}

fn is_initializer(x: &Member) -> bool
    ensures { result ≡ is_initializer x.now }
{
    match x {
        Member::Initializer(_) => true,
        _ => false,
    }
}

/// Tells whether it is a stored property without an initial value.
fn is_uninitialized(x: &Member) -> bool
    ensures { result ≡ is_uninitialized x.now }
{
    match x {
        Member::Stored(x) => x.initial.is_none(),
        _ => false,
    }
}

fn has_initializer(members: &[Member]) -> bool
    ensures { result ≡ list_any is_initializer members.now }
{
    members.iter().any(|m| is_initializer(m))
}

fn has_uninitialized(members: &[Member]) -> bool
    ensures { result ≡ list_any is_uninitialized members.now }
{
    members.iter().any(|m| is_uninitialized(m))
}

fn push_uninitialized(labels: &mut ArgLabels, x: &Member) -> Result<(), NoMemory>
    ensures { OnOk result (labels.new ≡ labels.old ++ map Some (uninitialized x.now)) }
{
    match x {
        Member::Stored(x) => {
            if x.initial.is_none() {
                labels.push(Some(x.name.text.copy()?))?;
            }
            Ok(())
        }
        _ => Ok(()),
    }
}

/// The labels of the initialiser that a struct has without writing it.
fn memberwise_labels(alloc: Global, members: &[Member]) -> Result<ArgLabels, NoMemory>
    ensures { IfOk result (λ labels. labels ≡ map Some (flat_map uninitialized members.now)) }
{
    let mut labels = Items::new(alloc);
    for member in members {
        push_uninitialized(&mut labels, member)?;
    }
    Ok(labels)
}

fn synthesized(alloc: Global, owner: TypeNo, labels: ArgLabels) -> Result<DeclaredFunc, NoMemory>
    ensures { IfOk result (λ func. func ≡ synthesized owner labels) }
{
    Ok(DeclaredFunc {
        owner: Some(owner),
        kind: FuncKind::Synthesized,
        name: Text::from_bytes(alloc, b"init")?,
        labels,
        is_static: false,
    })
}

/// Adds the initialiser that a struct has without writing it, if it does.
fn push_struct_func(
    alloc: Global,
    funcs: &mut Funcs,
    owner: TypeNo,
    members: &[Member],
) -> Result<(), NoMemory>
    ensures { OnOk result (funcs.new ≡ funcs.old ++ struct_funcs owner members.now) }
{
    if has_initializer(members) {
        return Ok(());
    }
    let labels = memberwise_labels(alloc, members)?;
    funcs.push(synthesized(alloc, owner, labels)?)
}

/// Adds the initialiser that an actor has without writing it, if it does.
fn push_actor_func(
    alloc: Global,
    funcs: &mut Funcs,
    owner: TypeNo,
    is_distributed: bool,
    members: &[Member],
) -> Result<(), NoMemory>
    ensures { OnOk result (funcs.new ≡ funcs.old ++ actor_funcs owner is_distributed members.now) }
{
    if has_initializer(members) || has_uninitialized(members) {
        return Ok(());
    }
    let mut labels = Items::new(alloc);
    if is_distributed {
        labels.push(Some(Text::from_bytes(alloc, b"actorSystem")?))?;
    }
    funcs.push(synthesized(alloc, owner, labels)?)
}

fn push_top_level(alloc: Global, funcs: &mut Funcs, x: &Func) -> Result<(), NoMemory>
    ensures { OnOk result (funcs.new ≡ funcs.old ++ declared_func None TopLevel x.now.signature.name.text (parameter_labels x.now.signature.parameters) false ∷ []) }
{
    funcs.push(DeclaredFunc {
        owner: None,
        kind: FuncKind::TopLevel,
        name: x.signature.name.text.copy()?,
        labels: parameter_labels(alloc, x.signature.parameters.as_slice())?,
        is_static: false,
    })
}

/// Adds the funcs, getters and initialisers of a declaration, in the order of the source; `owner` is the number of
/// its type, where it declares one.
pub(crate) fn push_funcs(
    alloc: Global,
    funcs: &mut Funcs,
    owner: TypeNo,
    decl: &Decl,
) -> Result<(), NoMemory>
    ensures { OnOk result (funcs.new ≡ funcs.old ++ funcs_in owner decl.now) }
{
    match decl {
        Decl::Struct(_, members) => {
            push_struct_func(alloc, funcs, owner, members.as_slice())?;
            push_member_funcs(alloc, funcs, owner, members.as_slice())
        }
        Decl::Enum(_, items) => push_item_funcs(alloc, funcs, owner, items.as_slice()),
        Decl::Actor(heading, members) => {
            push_actor_func(
                alloc,
                funcs,
                owner,
                is_distributed(heading),
                members.as_slice(),
            )?;
            push_member_funcs(alloc, funcs, owner, members.as_slice())
        }
        Decl::Func(x) => push_top_level(alloc, funcs, x),
        _ => Ok(()),
    }
}
