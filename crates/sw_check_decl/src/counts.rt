//! T8 of counts.

ghost use Rattle.std.specs.Prelude.{◌≡◌, ◌++◌, slice_get};
ghost use Rattle.std.specs.Option.{option_map};
ghost use Rattle.std.specs.List.{flat_map};
ghost use Rattle.sw_findings.specs.Found.{keep_all};
ghost use Rattle.sw_check_decl.specs.Counts.{case_counted, case_place, cases_in, counts_broken, first_token, item_counted, member_counted, member_place, members_in, most, parameter_place, parameters_counted, part_place, refused_at, requirement_counted, requirement_place, too_many};

use sw_base::Span;
use sw_findings::Findings;
use sw_rules::Rule;
use sw_tree::{Case, Decl, EnumItem, Member, Parameter, Payload, Requirement, Type};

/// The most members, cases, parts of a payload and parameters.
const MOST: usize = 255;

/// T8 at a place, where there is one.
#[tactic(auto, using(crate::proofs::Findings::keep_none), unfolding(sw_findings::specs::Found::when))]
fn report_at(found: &mut Findings, at: Option<Span>)
    ensures { found.new ≡ keep_all found.old (refused_at at) }
{
    match at {
        None => {}
        Some(at) => found.report(true, Rule::T8, at),
    }
}

// ---- parameters and parts of a payload

/// T8 at the first parameter too many.
fn report_parameters(found: &mut Findings, parameters: &[Parameter])
    ensures { found.new ≡ keep_all found.old (parameters_counted parameters.now) }
{
    report_at(found, parameters.get(MOST).map(|x| x.name.span));
}

/// The place of the first token of a type.
#[tactic(auto, using(crate::proofs::Tokens::token_rules))]
fn first_token(x: &Type) -> Span
    ensures { result ≡ first_token x.now }
{
    match x {
        Type::Name(name) => name.span,
        Type::Member(outer, _) => outer.span,
        Type::Array(at, _) => *at,
        Type::Any(at, _) => *at,
        Type::Void(at) => *at,
        Type::Optional(wrapped) => first_token(wrapped.get()),
    }
}

/// The place of the first token of a part of a payload.
fn part_place(x: &Payload) -> Span
    ensures { result ≡ part_place x.now x.now.label }
{
    match &x.label {
        None => first_token(&x.declared),
        Some(label) => label.span,
    }
}

/// T8 at the first part too many.
fn report_parts(found: &mut Findings, parts: &[Payload])
    ensures { found.new ≡ keep_all found.old (too_many (λ p. part_place p p.label) parts.now) }
{
    report_at(found, parts.get(MOST).map(part_place));
}

/// T8 in the payload of a case.
#[tactic(auto, using(crate::proofs::Findings::keep_none))]
fn report_case(found: &mut Findings, x: &Case)
    ensures { found.new ≡ keep_all found.old (case_counted x.now) }
{
    match &x.payload {
        None => {}
        Some(parts) => report_parts(found, parts.as_slice()),
    }
}

fn report_cases(found: &mut Findings, cases: &[Case])
    ensures { found.new ≡ keep_all found.old (flat_map case_counted cases.now) }
{
    for case in cases {
        report_case(found, case);
    }
}

// ---- members

/// The place of a member.
fn member_place(x: &Member) -> Span
    ensures { result ≡ member_place x.now }
{
    match x {
        Member::Stored(x) => x.name.span,
        Member::Computed(x) => x.name.span,
        Member::Func(x) => x.signature.name.span,
        Member::Initializer(x) => x.span,
        Member::Typealias(x) => x.name.span,
    }
}

/// T8 at the first member too many.
fn report_many_members(found: &mut Findings, members: &[Member])
    ensures { found.new ≡ keep_all found.old (too_many member_place members.now) }
{
    report_at(found, members.get(MOST).map(member_place));
}

/// T8 in a member.
#[tactic(auto, using(crate::proofs::Findings::keep_none))]
fn report_member(found: &mut Findings, x: &Member)
    ensures { found.new ≡ keep_all found.old (member_counted x.now) }
{
    match x {
        Member::Stored(_) | Member::Computed(_) | Member::Typealias(_) => {}
        Member::Func(x) => report_parameters(found, x.signature.parameters.as_slice()),
        Member::Initializer(x) => report_parameters(found, x.parameters.as_slice()),
    }
}

fn report_each_member(found: &mut Findings, members: &[Member])
    ensures { found.new ≡ keep_all found.old (flat_map member_counted members.now) }
{
    for member in members {
        report_member(found, member);
    }
}

/// T8 at the members of a struct or an actor.
#[tactic(auto, using(crate::proofs::Findings::keep_append))]
fn report_members(found: &mut Findings, members: &[Member])
    ensures { found.new ≡ keep_all found.old (too_many member_place members.now ++ flat_map member_counted members.now) }
{
    report_many_members(found, members);
    report_each_member(found, members);
}

// ---- items of an enum

/// T8 in an item of an enum.
fn report_item(found: &mut Findings, x: &EnumItem)
    ensures { found.new ≡ keep_all found.old (item_counted x.now) }
{
    match x {
        EnumItem::Cases(cases) => report_cases(found, cases.as_slice()),
        EnumItem::Member(x) => report_member(found, x),
    }
}

fn report_each_item(found: &mut Findings, items: &[EnumItem])
    ensures { found.new ≡ keep_all found.old (flat_map item_counted items.now) }
{
    for item in items {
        report_item(found, item);
    }
}

/// The place of the first member of an enum too many, where there is one.
fn member_too_many(items: &[EnumItem]) -> Option<Span>
    ensures { result ≡ option_map member_place (slice_get (flat_map members_in items.now) most) }
{
    let mut left = MOST;
    for item in items {
        if let EnumItem::Member(member) = item {
            if left == 0 {
                return Some(member_place(member));
            }
            left -= 1;
        }
    }
    None
}

/// The cases in an item of an enum.
fn cases_in(x: &EnumItem) -> &[Case]
    ensures { result.now ≡ cases_in x.now }
{
    match x {
        EnumItem::Cases(cases) => cases.as_slice(),
        EnumItem::Member(_) => &[],
    }
}

/// The place of the first case of an enum too many, where there is one.
fn case_too_many(items: &[EnumItem]) -> Option<Span>
    ensures { result ≡ option_map case_place (slice_get (flat_map cases_in items.now) most) }
{
    let mut left = MOST;
    for item in items {
        let cases = cases_in(item);
        match cases.get(left) {
            Some(case) => return Some(case.name.span),
            None => {
                left -= cases.len();
            }
        }
    }
    None
}

/// T8 at the items of an enum.
#[tactic(auto, using(crate::proofs::Findings::keep_append))]
fn report_items(found: &mut Findings, items: &[EnumItem])
    ensures { found.new ≡ keep_all found.old (too_many member_place (flat_map members_in items.now) ++ (too_many case_place (flat_map cases_in items.now) ++ flat_map item_counted items.now)) }
{
    report_at(found, member_too_many(items));
    report_at(found, case_too_many(items));
    report_each_item(found, items);
}

// ---- requirements

/// The place of a requirement.
fn requirement_place(x: &Requirement) -> Span
    ensures { result ≡ requirement_place x.now }
{
    match x {
        Requirement::Func(x) => x.name.span,
        Requirement::Property(name, _) => name.span,
    }
}

/// T8 at the first requirement too many.
fn report_many_requirements(found: &mut Findings, requirements: &[Requirement])
    ensures { found.new ≡ keep_all found.old (too_many requirement_place requirements.now) }
{
    report_at(found, requirements.get(MOST).map(requirement_place));
}

/// T8 in a requirement.
#[tactic(auto, using(crate::proofs::Findings::keep_none))]
fn report_requirement(found: &mut Findings, x: &Requirement)
    ensures { found.new ≡ keep_all found.old (requirement_counted x.now) }
{
    match x {
        Requirement::Func(x) => report_parameters(found, x.parameters.as_slice()),
        Requirement::Property(_, _) => {}
    }
}

fn report_each_requirement(found: &mut Findings, requirements: &[Requirement])
    ensures { found.new ≡ keep_all found.old (flat_map requirement_counted requirements.now) }
{
    for requirement in requirements {
        report_requirement(found, requirement);
    }
}

/// T8 at the requirements of a protocol.
#[tactic(auto, using(crate::proofs::Findings::keep_append))]
fn report_requirements(found: &mut Findings, requirements: &[Requirement])
    ensures { found.new ≡ keep_all found.old (too_many requirement_place requirements.now ++ flat_map requirement_counted requirements.now) }
{
    report_many_requirements(found, requirements);
    report_each_requirement(found, requirements);
}

/// T8 of counts at a declaration.
#[tactic(auto, using(crate::proofs::Findings::keep_none))]
pub(crate) fn report_counts(found: &mut Findings, decl: &Decl)
    ensures { found.new ≡ keep_all found.old (counts_broken decl.now) }
{
    match decl {
        Decl::Import(_, _) | Decl::Typealias(_) => {}
        Decl::Struct(_, members) => report_members(found, members.as_slice()),
        Decl::Enum(_, items) => report_items(found, items.as_slice()),
        Decl::Protocol(_, requirements) => report_requirements(found, requirements.as_slice()),
        Decl::Actor(_, members) => report_members(found, members.as_slice()),
        Decl::Func(x) => report_parameters(found, x.signature.parameters.as_slice()),
    }
}
