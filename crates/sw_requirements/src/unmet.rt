//! T2 at a declaration.

ghost use Rattle.std.specs.Prelude.{◌≡◌, ◌+◌, [], not, IfOk, OnOk, OnErr, slice_get, unwrap_or};
ghost use Rattle.std.specs.List.{list_all};
ghost use Rattle.std.specs.Option.{option_copied};
ghost use Rattle.sw_findings.specs.Found.{keep_all};
ghost use Rattle.sw_typing.specs.Facts.{members_of};
ghost use Rattle.sw_requirements.specs.Met.{is_met};
ghost use Rattle.sw_requirements.specs.Unmet.{is_unmet, meets_all, protocols_of, requirements_at, unmet_broken};

use crate::met::is_met;
use crate::signatures::{Funcs, funcs_of};
use std::alloc::Global;
use std::collections::BTreeSet;
use sw_base::{NoMemory, TypeNo};
use sw_declared::{Members, Names};
use sw_findings::Findings;
use sw_members::Declarations;
use sw_rules::Rule;
use sw_tree::Decl;
use sw_type_table::{Requirement, TypeEntry};
use sw_typing::Facts;

/// What is known of the members of the type before which so many stand; none where nothing is.
#[tactic(auto, unfolding(sw_typing::specs::Facts::members_of))]
fn members_at(known: &Facts, before: usize) -> Option<&Declarations>
    ensures { unwrap_or (option_copied result) [] ≡ members_of (slice_get known.now.types (before + 1)) }
{
    // the first is that of `DistributedCallError`
    match known.types.as_slice() {
        [] => None,
        [_, declared @ ..] => match declared.get(before) {
            Some(facts) => Some(&facts.members),
            None => None,
        },
    }
}

/// The declared protocols to which the type before which so many stand conforms.
fn protocols_at(table: &[TypeEntry], before: usize) -> &[TypeNo]
    ensures { result.now ≡ protocols_of (slice_get table.now before) }
{
    match table.get(before) {
        Some(entry) => entry.protocols.as_slice(),
        None => &[],
    }
}

/// What the protocol of this number requires.
fn requirements_at(table: &[TypeEntry], number: TypeNo) -> &[Requirement]
    ensures { result.now ≡ requirements_at table.now number }
{
    if number.0 == 0 {
        return &[];
    }
    match table.get(number.0 as usize - 1) {
        Some(entry) => entry.requirements.as_slice(),
        None => &[],
    }
}

/// Tells whether each of these requirements is met.
fn meets_each(
    alloc: Global,
    requirements: &[Requirement],
    funcs: &Funcs,
    members: Option<&Declarations>,
) -> bool
    ensures { result ≡ list_all (is_met funcs.now.list (unwrap_or (option_copied members.entry) [])) requirements.now }
{
    requirements
        .iter()
        .all(|required| is_met(alloc, funcs, members, required))
}

/// Tells whether all that these protocols require is met.
fn meets_all(
    alloc: Global,
    table: &[TypeEntry],
    funcs: &Funcs,
    members: Option<&Declarations>,
    protocols: &[TypeNo],
) -> Result<bool, NoMemory>
    ensures { IfOk result (λ met. met ≡ meets_all table.now funcs.now.list (unwrap_or (option_copied members.entry) []) protocols.now) }
{
    let mut seen = BTreeSet::new(alloc);
    for number in protocols {
        // a protocol that is listed again requires nothing more
        let is_new = seen.insert(number.0)?;
        if is_new && !meets_each(alloc, requirements_at(table, *number), funcs, members) {
            return Ok(false);
        }
    }
    Ok(true)
}

/// Tells whether something that these protocols require is not met.
fn lacks(
    alloc: Global,
    table: &[TypeEntry],
    funcs: &Funcs,
    members: Option<&Declarations>,
    protocols: &[TypeNo],
) -> Result<bool, NoMemory>
    ensures { IfOk result (λ lacks. lacks ≡ not (meets_all table.now funcs.now.list (unwrap_or (option_copied members.entry) []) protocols.now)) }
{
    let met = meets_all(alloc, table, funcs, members, protocols)?;
    Ok(!met)
}

/// Tells whether a requirement of a protocol to which a type conforms is not met.
fn is_unmet(
    alloc: Global,
    names: &Names,
    own: &Members,
    table: &[TypeEntry],
    known: &Facts,
    before: usize,
    decl: &Decl,
) -> Result<bool, NoMemory>
    ensures { IfOk result (λ unmet. unmet ≡ is_unmet names.now own.now table.now known.now before decl.now) }
{
    let protocols = protocols_at(table, before);
    // most types conform to none, and cost nothing
    if protocols.is_empty() {
        return Ok(false);
    }
    match funcs_of(alloc, names, own, decl) {
        Ok(funcs) => lacks(alloc, table, &funcs, members_at(known, before), protocols),
        Err(NoMemory) => Err(NoMemory),
    }
}

/// Reports T2 at the name of a struct or an enum that does not meet all requirements of the declared protocols after its
/// `:`.
///
/// `names` are what the file declares, `own` the members of this declaration, `table` its declared types, and `known` what
/// is known of them; `before` types stand before this one in the file.
///
/// # Errors
/// [`NoMemory`] where there is no memory for the signatures of the funcs of the type or for what finds them, or where the
/// file declares more types than there are numbers. Then nothing is reported.
#[tactic(auto, using(crate::proofs::Findings::keep_none))]
pub fn report_unmet(
    alloc: Global,
    found: &mut Findings,
    names: &Names,
    own: &Members,
    table: &[TypeEntry],
    known: &Facts,
    before: usize,
    decl: &Decl,
) -> Result<(), NoMemory>
    ensures ok { OnOk result (found.new ≡ keep_all found.old (unmet_broken names.now own.now table.now known.now before decl.now)) }
    ensures err { OnErr result (found.new ≡ found.old) }
{
    match decl {
        Decl::Struct(heading, _) | Decl::Enum(heading, _) => {
            let unmet = is_unmet(alloc, names, own, table, known, before, decl)?;
            found.report(unmet, Rule::T2, heading.name.span);
            Ok(())
        }
        Decl::Import(_, _)
        | Decl::Typealias(_)
        | Decl::Protocol(_, _)
        | Decl::Actor(_, _)
        | Decl::Func(_) => Ok(()),
    }
}
