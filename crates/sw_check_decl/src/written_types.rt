//! T7 at the types that declarations write.

ghost use Rattle.std.specs.Prelude.{◌≡◌, ◌++◌};
ghost use Rattle.std.specs.List.{flat_map};
ghost use Rattle.sw_findings.specs.Found.{keep_all};
ghost use Rattle.sw_type_table.specs.Table.{payload};
ghost use Rattle.sw_check_decl.specs.TypesInSource.{accessor_broken, block_broken, case_broken, func_broken, item_broken, member_broken, parameters_broken, perhaps, requirement_broken, signature_broken, type_broken, type_name_broken, types_broken};

use crate::protocols::{names_protocol, takes_any};
use crate::statements::report_block;
use sw_declared::{Members, Names};
use sw_findings::Findings;
use sw_rules::Rule;
use sw_tree::{
    Accessor, Case, ComputedProperty, Decl, EnumItem, Func, Initializer, Member, Name, Parameter,
    Payload, Requirement, Type,
};

/// T7 at a name that stands for a type.
pub(crate) fn report_type_name(found: &mut Findings, names: &Names, own: &Members, name: &Name)
    ensures { found.new ≡ keep_all found.old (type_name_broken names.now own.now name.now) }
{
    found.report(
        names_protocol(names, own, name.text.as_bytes()),
        Rule::T7,
        name.span,
    );
}

/// T7 in a type.
#[tactic(auto, using(crate::proofs::TypeLevels::type_rules))]
fn report_type(found: &mut Findings, names: &Names, own: &Members, x: &Type)
    ensures { found.new ≡ keep_all found.old (type_broken names.now own.now x.now) }
{
    match x {
        Type::Name(name) => report_type_name(found, names, own, name),
        Type::Member(_, _) => {}
        Type::Array(_, element) => report_type(found, names, own, element.get()),
        Type::Any(at, name) => {
            found.report(!takes_any(names, own, name.text.as_bytes()), Rule::T7, *at);
        }
        Type::Void(_) => {}
        Type::Optional(wrapped) => report_type(found, names, own, wrapped.get()),
    }
}

/// T7 in a type, where there is one.
#[tactic(auto, using(crate::proofs::Findings::keep_none))]
pub(crate) fn report_declared(found: &mut Findings, names: &Names, own: &Members, x: &Option<Type>)
    ensures { found.new ≡ keep_all found.old (perhaps (type_broken names.now own.now) x.now) }
{
    match x {
        None => {}
        Some(x) => report_type(found, names, own, x),
    }
}

fn report_parameters(found: &mut Findings, names: &Names, own: &Members, parameters: &[Parameter])
    ensures { found.new ≡ keep_all found.old (parameters_broken names.now own.now parameters.now) }
{
    for parameter in parameters {
        report_type(found, names, own, &parameter.declared);
    }
}

/// T7 in parameters and a result.
#[tactic(auto, using(crate::proofs::Findings::keep_append))]
fn report_signature(
    found: &mut Findings,
    names: &Names,
    own: &Members,
    parameters: &[Parameter],
    result_type: &Option<Type>,
)
    ensures { found.new ≡ keep_all found.old (signature_broken names.now own.now parameters.now result_type.now) }
{
    report_parameters(found, names, own, parameters);
    report_declared(found, names, own, result_type);
}

#[tactic(auto, using(crate::proofs::Findings::keep_append))]
fn report_func(found: &mut Findings, names: &Names, own: &Members, x: &Func)
    ensures { found.new ≡ keep_all found.old (func_broken names.now own.now x.now) }
{
    report_signature(
        found,
        names,
        own,
        x.signature.parameters.as_slice(),
        &x.signature.result,
    );
    report_block(found, names, own, &x.body);
}

fn report_accessor(found: &mut Findings, names: &Names, own: &Members, x: &Accessor)
    ensures { found.new ≡ keep_all found.old (accessor_broken names.now own.now x.now) }
{
    match x {
        Accessor::Body(body) | Accessor::Get(body) => report_block(found, names, own, body),
    }
}

#[tactic(auto, using(crate::proofs::Findings::keep_append))]
fn report_computed(found: &mut Findings, names: &Names, own: &Members, x: &ComputedProperty)
    ensures { found.new ≡ keep_all found.old (type_broken names.now own.now x.now.declared ++ accessor_broken names.now own.now x.now.accessor) }
{
    report_type(found, names, own, &x.declared);
    report_accessor(found, names, own, &x.accessor);
}

#[tactic(auto, using(crate::proofs::Findings::keep_append))]
fn report_initializer(found: &mut Findings, names: &Names, own: &Members, x: &Initializer)
    ensures { found.new ≡ keep_all found.old (parameters_broken names.now own.now x.now.parameters ++ block_broken names.now own.now x.now.body) }
{
    report_parameters(found, names, own, x.parameters.as_slice());
    report_block(found, names, own, &x.body);
}

/// T7 in a member of a type.
fn report_member(found: &mut Findings, names: &Names, own: &Members, x: &Member)
    ensures { found.new ≡ keep_all found.old (member_broken names.now own.now x.now) }
{
    match x {
        Member::Stored(x) => report_declared(found, names, own, &x.declared),
        Member::Computed(x) => report_computed(found, names, own, x),
        Member::Func(x) => report_func(found, names, own, x),
        Member::Initializer(x) => report_initializer(found, names, own, x),
        Member::Typealias(x) => report_type(found, names, own, &x.target),
    }
}

fn report_members(found: &mut Findings, names: &Names, own: &Members, members: &[Member])
    ensures { found.new ≡ keep_all found.old (flat_map (member_broken names.now own.now) members.now) }
{
    for member in members {
        report_member(found, names, own, member);
    }
}

fn report_parts(found: &mut Findings, names: &Names, own: &Members, parts: &[Payload])
    ensures { found.new ≡ keep_all found.old (flat_map (λ p. type_broken names.now own.now p.declared) parts.now) }
{
    for part in parts {
        report_type(found, names, own, &part.declared);
    }
}

/// T7 in the payload of a case.
#[tactic(auto, using(crate::proofs::Findings::keep_none))]
fn report_case(found: &mut Findings, names: &Names, own: &Members, x: &Case)
    ensures { found.new ≡ keep_all found.old (case_broken names.now own.now x.now) }
{
    match &x.payload {
        None => {}
        Some(parts) => report_parts(found, names, own, parts.as_slice()),
    }
}

fn report_cases(found: &mut Findings, names: &Names, own: &Members, cases: &[Case])
    ensures { found.new ≡ keep_all found.old (flat_map (case_broken names.now own.now) cases.now) }
{
    for case in cases {
        report_case(found, names, own, case);
    }
}

/// T7 in an item of an enum.
fn report_item(found: &mut Findings, names: &Names, own: &Members, x: &EnumItem)
    ensures { found.new ≡ keep_all found.old (item_broken names.now own.now x.now) }
{
    match x {
        EnumItem::Cases(cases) => report_cases(found, names, own, cases.as_slice()),
        EnumItem::Member(x) => report_member(found, names, own, x),
    }
}

fn report_items(found: &mut Findings, names: &Names, own: &Members, items: &[EnumItem])
    ensures { found.new ≡ keep_all found.old (flat_map (item_broken names.now own.now) items.now) }
{
    for item in items {
        report_item(found, names, own, item);
    }
}

/// T7 in a requirement of a protocol.
fn report_requirement(found: &mut Findings, names: &Names, own: &Members, x: &Requirement)
    ensures { found.new ≡ keep_all found.old (requirement_broken names.now own.now x.now) }
{
    match x {
        Requirement::Func(x) => {
            report_signature(found, names, own, x.parameters.as_slice(), &x.result);
        }
        Requirement::Property(_, declared) => report_type(found, names, own, declared),
    }
}

fn report_requirements(
    found: &mut Findings,
    names: &Names,
    own: &Members,
    requirements: &[Requirement],
)
    ensures { found.new ≡ keep_all found.old (flat_map (requirement_broken names.now own.now) requirements.now) }
{
    for requirement in requirements {
        report_requirement(found, names, own, requirement);
    }
}

/// T7 in a declaration.
#[tactic(auto, using(crate::proofs::Findings::keep_none))]
pub(crate) fn report_types(found: &mut Findings, names: &Names, own: &Members, decl: &Decl)
    ensures { found.new ≡ keep_all found.old (types_broken names.now own.now decl.now) }
{
    match decl {
        Decl::Import(_, _) => {}
        Decl::Typealias(x) => report_type(found, names, own, &x.target),
        Decl::Struct(_, members) => report_members(found, names, own, members.as_slice()),
        Decl::Enum(_, items) => report_items(found, names, own, items.as_slice()),
        Decl::Protocol(_, requirements) => {
            report_requirements(found, names, own, requirements.as_slice());
        }
        Decl::Actor(_, members) => report_members(found, names, own, members.as_slice()),
        Decl::Func(x) => report_func(found, names, own, x),
    }
}
