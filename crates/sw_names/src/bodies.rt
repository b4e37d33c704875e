//! The parts of declarations: N1 to N4 in each, in which names are looked up.

ghost use Rattle.std.specs.Prelude.{◌≡◌, false, [], map, IfOk};
ghost use Rattle.std.specs.List.{flat_map};
ghost use Rattle.sw_findings.specs.Found.{keep_all};
ghost use Rattle.sw_events.specs.Bodies.{type_events};
ghost use Rattle.sw_events.specs.Parts.{func_events, heading_part, item_part, member_part, part, parts_of, requirement_part};
ghost use Rattle.sw_names.specs.Walk.{inside_broken, part_broken};

use std::alloc::Global;
use sw_base::NoMemory;
use sw_declared::{Members, Names, members_in};
use sw_events::{
    has_instance, item_has_instance, walk_func, walk_heading, walk_item, walk_member,
    walk_requirement, walk_type,
};
use sw_findings::Findings;
use sw_scope::{Around, Seen, walks_find_what_is_broken};
use sw_sight::Sight;
use sw_tree::{Decl, EnumItem, Func, Heading, Member, Requirement, Type};

/// No name is in sight where a part begins.
fn begin(alloc: Global, found: Findings) -> Seen
    ensures { result ≡ record { sight = []; found = found } }
{
    Seen {
        sight: Sight::new(alloc),
        found,
    }
}

/// What is found in a heading, with what was found before.
fn report_heading(
    alloc: Global,
    names: &Names,
    own: &Members,
    found: Findings,
    heading: &Heading,
) -> Findings
    ensures { result ≡ keep_all found (part_broken names.now own.now (heading_part heading.now)) }
{
    walks_find_what_is_broken();
    let around = Around::new(names, own, false);
    let mut seen = begin(alloc, found);
    walk_heading(&around, &mut seen, heading);
    seen.found
}

/// What is found in the target of an alias, with what was found before.
fn report_target(
    alloc: Global,
    names: &Names,
    own: &Members,
    found: Findings,
    target: &Type,
) -> Findings
    ensures { result ≡ keep_all found (part_broken names.now own.now (part false (type_events target.now))) }
{
    walks_find_what_is_broken();
    let around = Around::new(names, own, false);
    let mut seen = begin(alloc, found);
    walk_type(&around, &mut seen, target);
    seen.found
}

/// What is found in a func of the file, with what was found before. The only error is want of memory.
fn report_func(
    alloc: Global,
    names: &Names,
    own: &Members,
    found: Findings,
    func: &Func,
) -> Result<Findings, NoMemory>
    ensures { IfOk result (λ more. more ≡ keep_all found (part_broken names.now own.now (part false (func_events func.now)))) }
{
    walks_find_what_is_broken();
    let around = Around::new(names, own, false);
    let mut seen = begin(alloc, found);
    walk_func(alloc, &around, &mut seen, func)?;
    Ok(seen.found)
}

/// What is found in a member, with what was found before. The only error is want of memory.
fn report_member(
    alloc: Global,
    names: &Names,
    own: &Members,
    found: Findings,
    member: &Member,
) -> Result<Findings, NoMemory>
    ensures { IfOk result (λ more. more ≡ keep_all found (part_broken names.now own.now (member_part member.now))) }
{
    walks_find_what_is_broken();
    let around = Around::new(names, own, has_instance(member));
    let mut seen = begin(alloc, found);
    walk_member(alloc, &around, &mut seen, member)?;
    Ok(seen.found)
}

/// What is found in members, with what was found before. The only error is want of memory.
fn report_members(
    alloc: Global,
    names: &Names,
    own: &Members,
    mut found: Findings,
    members: &[Member],
) -> Result<Findings, NoMemory>
    ensures { IfOk result (λ more. more ≡ keep_all found (flat_map (part_broken names.now own.now) (map member_part members.now))) }
{
    for member in members {
        found = report_member(alloc, names, own, found, member)?;
    }
    Ok(found)
}

/// What is found in an item of an enum, with what was found before. The only error is want of memory.
fn report_item(
    alloc: Global,
    names: &Names,
    own: &Members,
    found: Findings,
    item: &EnumItem,
) -> Result<Findings, NoMemory>
    ensures { IfOk result (λ more. more ≡ keep_all found (part_broken names.now own.now (item_part item.now))) }
{
    walks_find_what_is_broken();
    let around = Around::new(names, own, item_has_instance(item));
    let mut seen = begin(alloc, found);
    walk_item(alloc, &around, &mut seen, item)?;
    Ok(seen.found)
}

/// What is found in the items of an enum, with what was found before. The only error is want of memory.
fn report_items(
    alloc: Global,
    names: &Names,
    own: &Members,
    mut found: Findings,
    items: &[EnumItem],
) -> Result<Findings, NoMemory>
    ensures { IfOk result (λ more. more ≡ keep_all found (flat_map (part_broken names.now own.now) (map item_part items.now))) }
{
    for item in items {
        found = report_item(alloc, names, own, found, item)?;
    }
    Ok(found)
}

/// What is found in a requirement, with what was found before. The only error is want of memory.
fn report_requirement(
    alloc: Global,
    names: &Names,
    own: &Members,
    found: Findings,
    requirement: &Requirement,
) -> Result<Findings, NoMemory>
    ensures { IfOk result (λ more. more ≡ keep_all found (part_broken names.now own.now (requirement_part requirement.now))) }
{
    walks_find_what_is_broken();
    let around = Around::new(names, own, true);
    let mut seen = begin(alloc, found);
    walk_requirement(&around, &mut seen, requirement)?;
    Ok(seen.found)
}

/// What is found in requirements, with what was found before. The only error is want of memory.
fn report_requirements(
    alloc: Global,
    names: &Names,
    own: &Members,
    mut found: Findings,
    requirements: &[Requirement],
) -> Result<Findings, NoMemory>
    ensures { IfOk result (λ more. more ≡ keep_all found (flat_map (part_broken names.now own.now) (map requirement_part requirements.now))) }
{
    for requirement in requirements {
        found = report_requirement(alloc, names, own, found, requirement)?;
    }
    Ok(found)
}

/// What is found in the parts of a declaration, with what was found before. The only error is want of memory.
#[tactic(auto, using(crate::proofs::Findings::keep_rules))]
fn report_parts(
    alloc: Global,
    names: &Names,
    own: &Members,
    found: Findings,
    decl: &Decl,
) -> Result<Findings, NoMemory>
    ensures { IfOk result (λ more. more ≡ keep_all found (flat_map (part_broken names.now own.now) (parts_of decl.now))) }
{
    match decl {
        Decl::Import(_, _) => Ok(found),
        Decl::Typealias(x) => Ok(report_target(alloc, names, own, found, &x.target)),
        Decl::Struct(heading, members) => {
            let found = report_heading(alloc, names, own, found, heading);
            report_members(alloc, names, own, found, members.as_slice())
        }
        Decl::Enum(heading, items) => {
            let found = report_heading(alloc, names, own, found, heading);
            report_items(alloc, names, own, found, items.as_slice())
        }
        Decl::Protocol(heading, requirements) => {
            let found = report_heading(alloc, names, own, found, heading);
            report_requirements(alloc, names, own, found, requirements.as_slice())
        }
        Decl::Actor(heading, members) => {
            let found = report_heading(alloc, names, own, found, heading);
            report_members(alloc, names, own, found, members.as_slice())
        }
        Decl::Func(x) => report_func(alloc, names, own, found, x),
    }
}

/// N1 to N4 in the parts of a declaration, with what was found before. The only error is want of memory.
#[tactic(auto, unfolding(crate::specs::Walk::inside_broken))]
pub(crate) fn report_inside(
    alloc: Global,
    names: &Names,
    found: Findings,
    decl: &Decl,
) -> Result<Findings, NoMemory>
    ensures { IfOk result (λ more. more ≡ keep_all found (inside_broken names.now decl.now)) }
{
    let own = members_in(alloc, decl)?;
    report_parts(alloc, names, &own, found, decl)
}
