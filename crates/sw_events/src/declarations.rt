//! The parts of declarations. The only error is want of memory.

ghost use Rattle.std.specs.Prelude.{◌≡◌, [], ◌∷◌, ◌++◌, None, OnOk};
ghost use Rattle.sw_tree.specs.declared.decl.ModifierKind.TheVariants.{Static};
ghost use Rattle.sw_declared.specs.Declarations.{has_modifier, same_modifier};
ghost use Rattle.sw_scope.specs.Events.{each, perhaps, types};
ghost use Rattle.sw_scope.specs.Walk.{run};
ghost use Rattle.sw_events.specs.Bodies.{block_events, expr_events, type_events};
ghost use Rattle.sw_events.specs.Parts.{accessor_events, case_events, func_events, heading_part, is_instance, item_part, member_part, parameter_events, requirement_part, signature_events};

use crate::expressions::walk_value;
use crate::statements::walk_block;
use crate::types::{walk_declared, walk_type};
use sqlite_items::Items;
use std::alloc::Global;
use sw_base::NoMemory;
use sw_scope::{Around, Seen, bind, close, name_type, open};
use sw_tree::{
    Accessor, Case, ComputedProperty, EnumItem, Func, Heading, Initializer, Member, Modifier,
    ModifierKind, Name, Parameter, Payload, Requirement, Signature, Stmt, StoredProperty, Type,
};

// ---- which parts have an instance

fn is_static_word(kind: ModifierKind) -> bool
    ensures { result ≡ same_modifier Static kind }
{
    match kind {
        ModifierKind::Static => true,
        _ => false,
    }
}

fn is_static(modifiers: &[Modifier]) -> bool
    ensures { result ≡ has_modifier Static modifiers.now }
{
    modifiers.iter().any(|m| is_static_word(m.kind))
}

fn is_instance(modifiers: &[Modifier]) -> bool
    ensures { result ≡ is_instance modifiers.now }
{
    !is_static(modifiers)
}

/// Tells whether there is an instance of the own type in a member.
pub fn has_instance(x: &Member) -> bool
    ensures { result ≡ (member_part x.now).has_instance }
{
    match x {
        Member::Stored(x) => is_instance(x.modifiers.as_slice()),
        Member::Computed(x) => is_instance(x.modifiers.as_slice()),
        Member::Func(x) => is_instance(x.signature.modifiers.as_slice()),
        Member::Initializer(_) => true,
        Member::Typealias(_) => false,
    }
}

/// Tells whether there is an instance of the own type in an item of an enum.
pub fn item_has_instance(x: &EnumItem) -> bool
    ensures { result ≡ (item_part x.now).has_instance }
{
    match x {
        EnumItem::Cases(_) => false,
        EnumItem::Member(x) => has_instance(x),
    }
}

// ---- parameters and what follows them

#[tactic(auto, using(crate::proofs::Runs::run_rules))]
fn walk_parameter(around: &Around<'_>, seen: &mut Seen, x: &Parameter) -> Result<(), NoMemory>
    ensures { OnOk result (seen.new ≡ run around.now (parameter_events x.now) seen.old) }
{
    walk_type(around, seen, &x.declared);
    bind(around, seen, &x.name)
}

fn walk_parameters(
    around: &Around<'_>,
    seen: &mut Seen,
    parameters: &[Parameter],
) -> Result<(), NoMemory>
    ensures { OnOk result (seen.new ≡ run around.now (each parameter_events parameters.now) seen.old) }
{
    for parameter in parameters {
        walk_parameter(around, seen, parameter)?;
    }
    Ok(())
}

/// Walks over parameters, a result and the block after them.
#[tactic(auto, using(crate::proofs::Runs::run_rules))]
fn walk_with_block(
    alloc: Global,
    around: &Around<'_>,
    seen: &mut Seen,
    parameters: &[Parameter],
    result_type: &Option<Type>,
    body: &Items<Stmt>,
) -> Result<(), NoMemory>
    ensures { OnOk result (seen.new ≡ run around.now (signature_events parameters.now result_type.now (block_events body.now)) seen.old) }
{
    open(around, seen)?;
    walk_parameters(around, seen, parameters)?;
    walk_declared(around, seen, result_type);
    walk_block(alloc, around, seen, body)?;
    close(around, seen);
    Ok(())
}

/// Walks over a func. The only error is want of memory.
#[tactic(auto, using(crate::proofs::Runs::run_rules))]
pub fn walk_func(
    alloc: Global,
    around: &Around<'_>,
    seen: &mut Seen,
    x: &Func,
) -> Result<(), NoMemory>
    ensures { OnOk result (seen.new ≡ run around.now (func_events x.now) seen.old) }
{
    walk_with_block(
        alloc,
        around,
        seen,
        x.signature.parameters.as_slice(),
        &x.signature.result,
        &x.body,
    )
}

/// Walks over parameters and a result without a block.
#[tactic(auto, using(crate::proofs::Runs::run_rules))]
fn walk_signature(around: &Around<'_>, seen: &mut Seen, x: &Signature) -> Result<(), NoMemory>
    ensures { OnOk result (seen.new ≡ run around.now (signature_events x.now.parameters x.now.result []) seen.old) }
{
    open(around, seen)?;
    walk_parameters(around, seen, x.parameters.as_slice())?;
    walk_declared(around, seen, &x.result);
    close(around, seen);
    Ok(())
}

// ---- members

#[tactic(auto, using(crate::proofs::Runs::run_rules))]
fn walk_stored(around: &Around<'_>, seen: &mut Seen, x: &StoredProperty) -> Result<(), NoMemory>
    ensures { OnOk result (seen.new ≡ run around.now (perhaps type_events x.now.declared ++ perhaps expr_events x.now.initial) seen.old) }
{
    walk_declared(around, seen, &x.declared);
    walk_value(around, seen, &x.initial)
}

fn walk_accessor(
    alloc: Global,
    around: &Around<'_>,
    seen: &mut Seen,
    x: &Accessor,
) -> Result<(), NoMemory>
    ensures { OnOk result (seen.new ≡ run around.now (accessor_events x.now) seen.old) }
{
    match x {
        Accessor::Body(body) | Accessor::Get(body) => walk_block(alloc, around, seen, body),
    }
}

#[tactic(auto, using(crate::proofs::Runs::run_rules))]
fn walk_computed(
    alloc: Global,
    around: &Around<'_>,
    seen: &mut Seen,
    x: &ComputedProperty,
) -> Result<(), NoMemory>
    ensures { OnOk result (seen.new ≡ run around.now (type_events x.now.declared ++ accessor_events x.now.accessor) seen.old) }
{
    walk_type(around, seen, &x.declared);
    walk_accessor(alloc, around, seen, &x.accessor)
}

#[tactic(auto, using(crate::proofs::Runs::run_rules))]
fn walk_initializer(
    alloc: Global,
    around: &Around<'_>,
    seen: &mut Seen,
    x: &Initializer,
) -> Result<(), NoMemory>
    ensures { OnOk result (seen.new ≡ run around.now (signature_events x.now.parameters None (block_events x.now.body)) seen.old) }
{
    walk_with_block(alloc, around, seen, x.parameters.as_slice(), &None, &x.body)
}

/// Walks over a member of a type. The only error is want of memory.
#[tactic(auto, using(crate::proofs::Runs::run_rules))]
pub fn walk_member(
    alloc: Global,
    around: &Around<'_>,
    seen: &mut Seen,
    x: &Member,
) -> Result<(), NoMemory>
    ensures { OnOk result (seen.new ≡ run around.now (member_part x.now).events seen.old) }
{
    match x {
        Member::Stored(x) => walk_stored(around, seen, x),
        Member::Computed(x) => walk_computed(alloc, around, seen, x),
        Member::Func(x) => walk_func(alloc, around, seen, x),
        Member::Initializer(x) => walk_initializer(alloc, around, seen, x),
        Member::Typealias(x) => {
            walk_type(around, seen, &x.target);
            Ok(())
        }
    }
}

// ---- items of an enum

fn walk_payload(around: &Around<'_>, seen: &mut Seen, parts: &[Payload])
    ensures { seen.new ≡ run around.now (each (λ p. type_events p.declared) parts.now) seen.old }
{
    for part in parts {
        walk_type(around, seen, &part.declared);
    }
}

#[tactic(auto, using(crate::proofs::Runs::run_rules))]
fn walk_case(around: &Around<'_>, seen: &mut Seen, x: &Case)
    ensures { seen.new ≡ run around.now (case_events x.now) seen.old }
{
    match &x.payload {
        None => {}
        Some(parts) => walk_payload(around, seen, parts.as_slice()),
    }
}

fn walk_cases(around: &Around<'_>, seen: &mut Seen, cases: &[Case])
    ensures { seen.new ≡ run around.now (each case_events cases.now) seen.old }
{
    for case in cases {
        walk_case(around, seen, case);
    }
}

/// Walks over an item of an enum. The only error is want of memory.
pub fn walk_item(
    alloc: Global,
    around: &Around<'_>,
    seen: &mut Seen,
    x: &EnumItem,
) -> Result<(), NoMemory>
    ensures { OnOk result (seen.new ≡ run around.now (item_part x.now).events seen.old) }
{
    match x {
        EnumItem::Cases(cases) => {
            walk_cases(around, seen, cases.as_slice());
            Ok(())
        }
        EnumItem::Member(x) => walk_member(alloc, around, seen, x),
    }
}

// ---- requirements and headings

/// Walks over a requirement of a protocol. The only error is want of memory.
#[tactic(auto, using(crate::proofs::Runs::run_rules))]
pub fn walk_requirement(
    around: &Around<'_>,
    seen: &mut Seen,
    x: &Requirement,
) -> Result<(), NoMemory>
    ensures { OnOk result (seen.new ≡ run around.now (requirement_part x.now).events seen.old) }
{
    match x {
        Requirement::Func(x) => walk_signature(around, seen, x),
        Requirement::Property(_, declared) => {
            walk_type(around, seen, declared);
            Ok(())
        }
    }
}

fn walk_conformances(around: &Around<'_>, seen: &mut Seen, names: &[Name])
    ensures { seen.new ≡ run around.now (each (λ name. types name ∷ []) names.now) seen.old }
{
    for name in names {
        name_type(around, seen, name);
    }
}

/// Walks over a heading: over what the type conforms to.
pub fn walk_heading(around: &Around<'_>, seen: &mut Seen, x: &Heading)
    ensures { seen.new ≡ run around.now (heading_part x.now).events seen.old }
{
    walk_conformances(around, seen, x.conformances.as_slice());
}
