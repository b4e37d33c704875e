//! Forms of declarations that are left out: T9.

ghost use Rattle.std.specs.Prelude.{◌≡◌, ◌++◌, true};
ghost use Rattle.std.specs.List.{flat_map};
ghost use Rattle.sw_tree.specs.declared.decl.ModifierKind.TheVariants.{Distributed};
ghost use Rattle.sw_declared.specs.Declarations.{same_modifier};
ghost use Rattle.sw_rules.specs.declared.Rule.TheVariants.{T9};
ghost use Rattle.sw_findings.specs.Found.{keep_all, when};
ghost use Rattle.sw_check_decl.specs.Forms.{actor_func_form, actor_member_form, enum_member_form, forms_broken, func_parameters, is_distributed, is_nonisolated, is_nonisolated_word, item_form, parameter_form, requirement_form, stored_form, struct_member_form, value_func_form};

use sw_declared::is_static;
use sw_findings::Findings;
use sw_rules::Rule;
use sw_tree::{
    Decl, EnumItem, Initializer, Member, Modifier, ModifierKind, Parameter, Requirement, Signature,
    StoredProperty,
};

// ---- modifiers

fn is_distributed_word(kind: ModifierKind) -> bool
    ensures { result ≡ same_modifier Distributed kind }
{
    match kind {
        ModifierKind::Distributed => true,
        _ => false,
    }
}

fn is_distributed(modifiers: &[Modifier]) -> bool
    ensures { result ≡ is_distributed modifiers.now }
{
    modifiers.iter().any(|m| is_distributed_word(m.kind))
}

fn is_nonisolated_word(kind: ModifierKind) -> bool
    ensures { result ≡ is_nonisolated_word kind }
{
    match kind {
        ModifierKind::Nonisolated => true,
        _ => false,
    }
}

fn is_nonisolated(modifiers: &[Modifier]) -> bool
    ensures { result ≡ is_nonisolated modifiers.now }
{
    modifiers.iter().any(|m| is_nonisolated_word(m.kind))
}

// ---- parameters

/// T9 at a parameter.
fn report_parameter(found: &mut Findings, x: &Parameter)
    ensures { found.new ≡ keep_all found.old (parameter_form x.now) }
{
    found.report(
        x.inout.is_some() || x.variadic.is_some(),
        Rule::T9,
        x.name.span,
    );
}

fn report_parameters(found: &mut Findings, parameters: &[Parameter])
    ensures { found.new ≡ keep_all found.old (flat_map parameter_form parameters.now) }
{
    for parameter in parameters {
        report_parameter(found, parameter);
    }
}

/// T9 at the parameters of a func.
#[tactic(auto, using(crate::proofs::Findings::keep_none))]
fn report_func_parameters(found: &mut Findings, x: &Signature)
    ensures { found.new ≡ keep_all found.old (func_parameters x.now) }
{
    if !is_distributed(x.modifiers.as_slice()) {
        report_parameters(found, x.parameters.as_slice());
    }
}

// ---- members

/// T9 at a stored property of a struct or an actor.
fn report_stored(found: &mut Findings, x: &StoredProperty)
    ensures { found.new ≡ keep_all found.old (stored_form x.now) }
{
    let modifiers = x.modifiers.as_slice();
    let broken = (is_static(modifiers) || is_nonisolated(modifiers))
        || (x.declared.is_none() && x.initial.is_none());
    found.report(broken, Rule::T9, x.name.span);
}

/// T9 at a func of a struct or an enum.
#[tactic(auto, using(crate::proofs::Findings::keep_append))]
fn report_value_func(found: &mut Findings, x: &Signature)
    ensures { found.new ≡ keep_all found.old (value_func_form x.now) }
{
    found.report(x.is_async, Rule::T9, x.name.span);
    report_func_parameters(found, x);
}

/// T9 at a func of an actor.
#[tactic(auto, using(crate::proofs::Findings::keep_append))]
fn report_actor_func(found: &mut Findings, x: &Signature)
    ensures { found.new ≡ keep_all found.old (actor_func_form x.now) }
{
    let modifiers = x.modifiers.as_slice();
    let broken = x.is_async && (is_nonisolated(modifiers) || is_static(modifiers));
    found.report(broken, Rule::T9, x.name.span);
    report_func_parameters(found, x);
}

/// T9 at a member of a struct.
#[tactic(auto, using(crate::proofs::Findings::keep_none))]
fn report_struct_member(found: &mut Findings, x: &Member)
    ensures { found.new ≡ keep_all found.old (struct_member_form x.now) }
{
    match x {
        Member::Stored(x) => report_stored(found, x),
        Member::Computed(_) | Member::Typealias(_) => {}
        Member::Func(x) => report_value_func(found, &x.signature),
        Member::Initializer(x) => report_parameters(found, x.parameters.as_slice()),
    }
}

fn report_struct(found: &mut Findings, members: &[Member])
    ensures { found.new ≡ keep_all found.old (flat_map struct_member_form members.now) }
{
    for member in members {
        report_struct_member(found, member);
    }
}

/// T9 at an initialiser of an enum.
#[tactic(auto, using(crate::proofs::Findings::keep_append))]
fn report_enum_initializer(found: &mut Findings, x: &Initializer)
    ensures { found.new ≡ keep_all found.old (when true T9 x.now.span ++ flat_map parameter_form x.now.parameters) }
{
    found.report(true, Rule::T9, x.span);
    report_parameters(found, x.parameters.as_slice());
}

/// T9 at a member of an enum.
#[tactic(auto, using(crate::proofs::Findings::keep_none))]
fn report_enum_member(found: &mut Findings, x: &Member)
    ensures { found.new ≡ keep_all found.old (enum_member_form x.now) }
{
    match x {
        Member::Stored(x) => found.report(true, Rule::T9, x.name.span),
        Member::Computed(_) | Member::Typealias(_) => {}
        Member::Func(x) => report_value_func(found, &x.signature),
        Member::Initializer(x) => report_enum_initializer(found, x),
    }
}

/// T9 at an item of an enum.
#[tactic(auto, using(crate::proofs::Findings::keep_none))]
fn report_item(found: &mut Findings, x: &EnumItem)
    ensures { found.new ≡ keep_all found.old (item_form x.now) }
{
    match x {
        EnumItem::Cases(_) => {}
        EnumItem::Member(x) => report_enum_member(found, x),
    }
}

fn report_enum(found: &mut Findings, items: &[EnumItem])
    ensures { found.new ≡ keep_all found.old (flat_map item_form items.now) }
{
    for item in items {
        report_item(found, item);
    }
}

/// T9 at a member of an actor.
#[tactic(auto, using(crate::proofs::Findings::keep_none))]
fn report_actor_member(found: &mut Findings, x: &Member)
    ensures { found.new ≡ keep_all found.old (actor_member_form x.now) }
{
    match x {
        Member::Stored(x) => report_stored(found, x),
        Member::Computed(_) | Member::Typealias(_) => {}
        Member::Func(x) => report_actor_func(found, &x.signature),
        Member::Initializer(x) => report_parameters(found, x.parameters.as_slice()),
    }
}

fn report_actor(found: &mut Findings, members: &[Member])
    ensures { found.new ≡ keep_all found.old (flat_map actor_member_form members.now) }
{
    for member in members {
        report_actor_member(found, member);
    }
}

// ---- requirements

/// T9 at a requirement of a protocol.
#[tactic(auto, using(crate::proofs::Findings::keep_none))]
fn report_requirement(found: &mut Findings, x: &Requirement)
    ensures { found.new ≡ keep_all found.old (requirement_form x.now) }
{
    match x {
        Requirement::Func(x) => report_parameters(found, x.parameters.as_slice()),
        Requirement::Property(_, _) => {}
    }
}

fn report_protocol(found: &mut Findings, requirements: &[Requirement])
    ensures { found.new ≡ keep_all found.old (flat_map requirement_form requirements.now) }
{
    for requirement in requirements {
        report_requirement(found, requirement);
    }
}

/// T9 at a declaration.
#[tactic(auto, using(crate::proofs::Findings::keep_none))]
pub(crate) fn report_forms(found: &mut Findings, decl: &Decl)
    ensures { found.new ≡ keep_all found.old (forms_broken decl.now) }
{
    match decl {
        Decl::Import(_, _) | Decl::Typealias(_) => {}
        Decl::Struct(_, members) => report_struct(found, members.as_slice()),
        Decl::Enum(_, items) => report_enum(found, items.as_slice()),
        Decl::Protocol(_, requirements) => report_protocol(found, requirements.as_slice()),
        Decl::Actor(_, members) => report_actor(found, members.as_slice()),
        Decl::Func(x) => report_func_parameters(found, &x.signature),
    }
}
