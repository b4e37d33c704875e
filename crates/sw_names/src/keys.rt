//! What is declared twice in one scope: N1.

ghost use Rattle.std.specs.Prelude.{◌≡◌, List, [], ◌∷◌, map, IfOk, OnOk};
ghost use Rattle.std.specs.List.{flat_map};
ghost use Rattle.sw_declared.specs.Declarations.{parameter_labels};
ghost use Rattle.sw_names.specs.Keys.{case_key, case_labels, file_keys, inner_keys, item_keys, key, member_keys, requirement_keys};
ghost use Rattle.sw_names.specs.Meeting.{Meets};

use crate::labels::{parameter_labels, payload_labels};
use crate::meeting::{Scope, meet};
use sqlite_items::Items as TreeItems;
use std::alloc::Global;
use sw_base::{ArgLabels, Items, NoMemory};
use sw_tree::{Case, Decl, EnumItem, Member, Name, Parameter, Payload, Requirement};

/// Meets a declaration without labels.
fn meet_name(alloc: Global, scope: &mut Scope, name: &Name) -> Result<(), NoMemory>
    ensures { OnOk result (Meets (key name.now [] ∷ []) scope.old scope.new) }
{
    let labels: ArgLabels = Items::new(alloc);
    meet(
        alloc,
        scope,
        name.text.as_bytes(),
        labels.as_slice(),
        name.span,
    )
}

/// Meets a declaration with parameters.
fn meet_func(
    alloc: Global,
    scope: &mut Scope,
    name: &Name,
    parameters: &[Parameter],
) -> Result<(), NoMemory>
    ensures { OnOk result (Meets (key name.now (parameter_labels parameters.now) ∷ []) scope.old scope.new) }
{
    let labels = parameter_labels(alloc, parameters)?;
    meet(
        alloc,
        scope,
        name.text.as_bytes(),
        labels.as_slice(),
        name.span,
    )
}

/// Meets a member.
fn meet_member(alloc: Global, scope: &mut Scope, member: &Member) -> Result<(), NoMemory>
    ensures { OnOk result (Meets (member_keys member.now) scope.old scope.new) }
{
    match member {
        Member::Stored(x) => meet_name(alloc, scope, &x.name),
        Member::Computed(x) => meet_name(alloc, scope, &x.name),
        Member::Func(x) => meet_func(
            alloc,
            scope,
            &x.signature.name,
            x.signature.parameters.as_slice(),
        ),
        Member::Initializer(x) => {
            let labels = parameter_labels(alloc, x.parameters.as_slice())?;
            meet(alloc, scope, b"init", labels.as_slice(), x.span)
        }
        Member::Typealias(x) => meet_name(alloc, scope, &x.name),
    }
}

/// Meets members.
fn meet_members(alloc: Global, scope: &mut Scope, members: &[Member]) -> Result<(), NoMemory>
    ensures { OnOk result (Meets (flat_map member_keys members.now) scope.old scope.new) }
{
    for member in members {
        meet_member(alloc, scope, member)?;
    }
    Ok(())
}

/// The labels of a case.
fn case_labels(alloc: Global, payload: &Option<TreeItems<Payload>>) -> Result<ArgLabels, NoMemory>
    ensures { IfOk result (λ labels. labels ≡ case_labels payload.now) }
{
    match payload {
        None => Ok(Items::new(alloc)),
        Some(parts) => payload_labels(alloc, parts.as_slice()),
    }
}

/// Meets a case.
fn meet_case(alloc: Global, scope: &mut Scope, case: &Case) -> Result<(), NoMemory>
    ensures { OnOk result (Meets (case_key case.now ∷ []) scope.old scope.new) }
{
    let labels = case_labels(alloc, &case.payload)?;
    meet(
        alloc,
        scope,
        case.name.text.as_bytes(),
        labels.as_slice(),
        case.name.span,
    )
}

/// Meets cases.
fn meet_cases(alloc: Global, scope: &mut Scope, cases: &[Case]) -> Result<(), NoMemory>
    ensures { OnOk result (Meets (map case_key cases.now) scope.old scope.new) }
{
    for case in cases {
        meet_case(alloc, scope, case)?;
    }
    Ok(())
}

/// Meets an item of an enum.
fn meet_item(alloc: Global, scope: &mut Scope, item: &EnumItem) -> Result<(), NoMemory>
    ensures { OnOk result (Meets (item_keys item.now) scope.old scope.new) }
{
    match item {
        EnumItem::Cases(cases) => meet_cases(alloc, scope, cases.as_slice()),
        EnumItem::Member(member) => meet_member(alloc, scope, member),
    }
}

/// Meets the items of an enum.
fn meet_items(alloc: Global, scope: &mut Scope, items: &[EnumItem]) -> Result<(), NoMemory>
    ensures { OnOk result (Meets (flat_map item_keys items.now) scope.old scope.new) }
{
    for item in items {
        meet_item(alloc, scope, item)?;
    }
    Ok(())
}

/// Meets a requirement.
fn meet_requirement(
    alloc: Global,
    scope: &mut Scope,
    requirement: &Requirement,
) -> Result<(), NoMemory>
    ensures { OnOk result (Meets (requirement_keys requirement.now) scope.old scope.new) }
{
    match requirement {
        Requirement::Func(x) => meet_func(alloc, scope, &x.name, x.parameters.as_slice()),
        Requirement::Property(name, _) => meet_name(alloc, scope, name),
    }
}

/// Meets the requirements of a protocol.
fn meet_requirements(
    alloc: Global,
    scope: &mut Scope,
    requirements: &[Requirement],
) -> Result<(), NoMemory>
    ensures { OnOk result (Meets (flat_map requirement_keys requirements.now) scope.old scope.new) }
{
    for requirement in requirements {
        meet_requirement(alloc, scope, requirement)?;
    }
    Ok(())
}

/// Meets what is declared in a declaration.
#[tactic(auto, using(crate::proofs::Meetings::meets_none))]
pub(crate) fn meet_inner(alloc: Global, scope: &mut Scope, decl: &Decl) -> Result<(), NoMemory>
    ensures { OnOk result (Meets (inner_keys decl.now) scope.old scope.new) }
{
    match decl {
        Decl::Struct(_, members) => meet_members(alloc, scope, members.as_slice()),
        Decl::Enum(_, items) => meet_items(alloc, scope, items.as_slice()),
        Decl::Protocol(_, requirements) => {
            meet_requirements(alloc, scope, requirements.as_slice())
        }
        Decl::Actor(_, members) => meet_members(alloc, scope, members.as_slice()),
        Decl::Import(_, _) => Ok(()),
        Decl::Typealias(_) => Ok(()),
        Decl::Func(_) => Ok(()),
    }
}

/// Meets a declaration of the file.
#[tactic(auto, using(crate::proofs::Meetings::meets_none))]
fn meet_decl(alloc: Global, scope: &mut Scope, decl: &Decl) -> Result<(), NoMemory>
    ensures { OnOk result (Meets (file_keys decl.now) scope.old scope.new) }
{
    match decl {
        Decl::Import(_, _) => Ok(()),
        Decl::Typealias(x) => meet_name(alloc, scope, &x.name),
        Decl::Struct(heading, _) => meet_name(alloc, scope, &heading.name),
        Decl::Enum(heading, _) => meet_name(alloc, scope, &heading.name),
        Decl::Protocol(heading, _) => meet_name(alloc, scope, &heading.name),
        Decl::Actor(heading, _) => meet_name(alloc, scope, &heading.name),
        Decl::Func(x) => meet_func(
            alloc,
            scope,
            &x.signature.name,
            x.signature.parameters.as_slice(),
        ),
    }
}

/// Meets the declarations of the file.
pub(crate) fn meet_decls(alloc: Global, scope: &mut Scope, decls: &[Decl]) -> Result<(), NoMemory>
    ensures { OnOk result (Meets (flat_map file_keys decls.now) scope.old scope.new) }
{
    for decl in decls {
        meet_decl(alloc, scope, decl)?;
    }
    Ok(())
}
