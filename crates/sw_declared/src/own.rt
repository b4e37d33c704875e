//! The members of a declared type.

ghost use Rattle.std.specs.Prelude.{◌≡◌, ◌++◌, ◌∷◌, [], Some, codes, IfOk, OnOk, map};
ghost use Rattle.std.specs.List.{flat_map};
ghost use Rattle.sw_declared.specs.declared.names.MemberKind.TheVariants.{BuiltIn};
ghost use Rattle.sw_declared.specs.Declarations.{alias_inner, case_call, case_member, distributed_members, is_node_system, item_members, member, members_in, members_of};

use crate::labels::{is_distributed, is_static, parameter_labels, payload_labels};
use crate::member_table::Members;
use crate::names::{Inner, Member, MemberKind};
use crate::words::same;
use std::alloc::Global;
use sw_base::{ArgLabels, Duplicate, Items, NoMemory, Text};
use sw_tree::{Case, Decl, EnumItem, Payload, Type, Typealias};

/// Tells whether the type is written `NodeSystem`.
pub(crate) fn is_node_system(x: &Type) -> bool
    ensures { result ≡ is_node_system x.now }
{
    match x {
        Type::Name(name) => same(b"NodeSystem", name.text.as_bytes()),
        _ => false,
    }
}

/// What may stand after the name of an alias.
pub(crate) fn alias_inner(x: &Typealias) -> Inner
    ensures { result ≡ alias_inner x.now }
{
    if is_node_system(&x.target) {
        Inner::ActorId
    } else {
        Inner::Nothing
    }
}

/// Adds what a member of a struct, an enum or an actor is as a member.
fn push_member(alloc: Global, own: &mut Members, x: &sw_tree::Member) -> Result<(), NoMemory>
    ensures { OnOk result (own.new ≡ own.old ++ members_of x.now) }
{
    match x {
        sw_tree::Member::Stored(x) => own.push(Member {
            name: x.name.text.copy()?,
            labels: None,
            is_static: is_static(x.modifiers.as_slice()),
            kind: MemberKind::Stored,
        }),
        sw_tree::Member::Computed(x) => own.push(Member {
            name: x.name.text.copy()?,
            labels: None,
            is_static: is_static(x.modifiers.as_slice()),
            kind: MemberKind::Computed,
        }),
        sw_tree::Member::Func(x) => own.push(Member {
            name: x.signature.name.text.copy()?,
            labels: Some(parameter_labels(alloc, x.signature.parameters.as_slice())?),
            is_static: is_static(x.signature.modifiers.as_slice()),
            kind: MemberKind::Func,
        }),
        sw_tree::Member::Initializer(_) => Ok(()),
        sw_tree::Member::Typealias(x) => own.push(Member {
            name: x.name.text.copy()?,
            labels: None,
            is_static: true,
            kind: MemberKind::Alias(alias_inner(x)),
        }),
    }
}

/// With what labels a case is called, where it has a payload.
fn case_labels(
    alloc: Global,
    payload: &Option<sqlite_items::Items<Payload>>,
) -> Result<Option<ArgLabels>, NoMemory>
    ensures { IfOk result (λ labels. labels ≡ case_call payload.now) }
{
    match payload {
        None => Ok(None),
        Some(parts) => {
            if parts.as_slice().is_empty() {
                return Ok(None);
            }
            Ok(Some(payload_labels(alloc, parts.as_slice())?))
        }
    }
}

fn push_cases(alloc: Global, own: &mut Members, cases: &[Case]) -> Result<(), NoMemory>
    ensures { OnOk result (own.new ≡ own.old ++ map case_member cases.now) }
{
    for case in cases {
        own.push(Member {
            name: case.name.text.copy()?,
            labels: case_labels(alloc, &case.payload)?,
            is_static: true,
            kind: MemberKind::Case,
        })?;
    }
    Ok(())
}

/// Adds what an item of an enum is as members.
fn push_item(alloc: Global, own: &mut Members, x: &EnumItem) -> Result<(), NoMemory>
    ensures { OnOk result (own.new ≡ own.old ++ item_members x.now) }
{
    match x {
        EnumItem::Cases(cases) => push_cases(alloc, own, cases.as_slice()),
        EnumItem::Member(x) => push_member(alloc, own, x),
    }
}

/// Adds a member that each distributed actor has.
fn push_built_in(
    alloc: Global,
    own: &mut Members,
    name: &[u8],
    labels: Option<ArgLabels>,
    is_static: bool,
) -> Result<(), NoMemory>
    ensures { OnOk result (own.new ≡ own.old ++ member name.now labels is_static BuiltIn ∷ []) }
{
    own.push(Member {
        name: Text::from_bytes(alloc, name)?,
        labels,
        is_static,
        kind: MemberKind::BuiltIn,
    })
}

/// The labels of `resolve(id:using:)`.
fn resolve_labels(alloc: Global) -> Result<ArgLabels, NoMemory>
    ensures { IfOk result (λ labels. labels ≡ Some (codes "id") ∷ Some (codes "using") ∷ []) }
{
    let mut labels = Items::new(alloc);
    labels.push(Some(Text::from_bytes(alloc, b"id")?))?;
    labels.push(Some(Text::from_bytes(alloc, b"using")?))?;
    Ok(labels)
}

/// Adds what each distributed actor has.
fn push_distributed(alloc: Global, own: &mut Members) -> Result<(), NoMemory>
    ensures { OnOk result (own.new ≡ own.old ++ distributed_members) }
{
    push_built_in(alloc, own, b"id", None, false)?;
    push_built_in(alloc, own, b"actorSystem", None, false)?;
    let labels = resolve_labels(alloc)?;
    push_built_in(alloc, own, b"resolve", Some(labels), true)?;
    Ok(())
}

fn push_members(
    alloc: Global,
    own: &mut Members,
    members: &[sw_tree::Member],
) -> Result<(), NoMemory>
    ensures { OnOk result (own.new ≡ own.old ++ flat_map members_of members.now) }
{
    for member in members {
        push_member(alloc, own, member)?;
    }
    Ok(())
}

fn push_items(alloc: Global, own: &mut Members, items: &[EnumItem]) -> Result<(), NoMemory>
    ensures { OnOk result (own.new ≡ own.old ++ flat_map item_members items.now) }
{
    for item in items {
        push_item(alloc, own, item)?;
    }
    Ok(())
}

/// Adds the members that a body in a declaration sees without a `.`.
fn push_members_in(alloc: Global, own: &mut Members, decl: &Decl) -> Result<(), NoMemory>
    ensures { OnOk result (own.new ≡ own.old ++ members_in decl.now) }
{
    match decl {
        Decl::Struct(_, members) => push_members(alloc, own, members.as_slice()),
        Decl::Enum(_, items) => push_items(alloc, own, items.as_slice()),
        Decl::Actor(heading, members) => {
            if is_distributed(heading) {
                push_distributed(alloc, own)?;
            }
            push_members(alloc, own, members.as_slice())
        }
        _ => Ok(()),
    }
}

/// The members that a body in a declaration sees without a `.`. The only error is want of memory.
pub fn members_in(alloc: Global, decl: &Decl) -> Result<Members, NoMemory>
    ensures { IfOk result (λ own. own ≡ members_in decl.now) }
{
    let mut own = Members::new(alloc);
    // no `?`, since each way out with the table alive costs the proof
    match push_members_in(alloc, &mut own, decl) {
        Ok(()) => Ok(own),
        Err(NoMemory) => Err(NoMemory),
    }
}
