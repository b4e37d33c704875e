//! The pass over a whole tree.

ghost use Rattle.std.specs.Prelude.{◌≡◌, IfOk, IfErr};
ghost use Rattle.std.specs.List.{flat_map};
ghost use Rattle.sw_rules.specs.Pass.{IsCause, RefusesNone};
ghost use Rattle.sw_findings.specs.Found.{Finds, keep_all};
ghost use Rattle.sw_declared.specs.Declarations.{declarations};
ghost use Rattle.sw_names.specs.Pass.{Refuses};
ghost use Rattle.sw_names.specs.Walk.{decl_broken};

use crate::aliases::report_aliases_and_imports;
use crate::bodies::report_inside;
use crate::scopes::{report_file, report_inner};
use std::alloc::Global;
use sw_base::NoMemory;
use sw_declared::{Names, declare};
use sw_findings::{Findings, finds_first};
use sw_rules::{FrontError, Refusal};
use sw_scope::walks_find_what_is_broken;
use sw_tree::{Decl, Tree};

/// What is found in a declaration, with what was found before. The only error is want of memory.
#[tactic(auto, using(crate::proofs::Findings::keep_append), unfolding(crate::specs::Walk::decl_broken))]
fn report_decl(
    alloc: Global,
    names: &Names,
    found: Findings,
    decl: &Decl,
) -> Result<Findings, NoMemory>
    ensures { IfOk result (λ more. more ≡ keep_all found (decl_broken names.now decl.now)) }
{
    let inside = report_inside(alloc, names, found, decl)?;
    let mut more = report_inner(alloc, inside, decl)?;
    report_aliases_and_imports(&mut more, decl);
    Ok(more)
}

/// What is found in declarations, with what was found before. The only error is want of memory.
fn report_decls(
    alloc: Global,
    names: &Names,
    mut found: Findings,
    decls: &[Decl],
) -> Result<Findings, NoMemory>
    ensures { IfOk result (λ more. more ≡ keep_all found (flat_map (decl_broken names.now) decls.now)) }
{
    for decl in decls {
        found = report_decl(alloc, names, found, decl)?;
    }
    Ok(found)
}

/// The first refusal of the pass, by what the source declares. The only error is want of memory.
fn find_first(alloc: Global, names: &Names, tree: &Tree) -> Result<Option<Refusal>, NoMemory>
    ensures { IfOk result (λ first. names.now ≡ declarations tree.now → Finds (Refuses tree.now) first) }
{
    finds_first();
    walks_find_what_is_broken();
    let found = report_decls(alloc, names, Findings::new(), tree.decls.as_slice())?;
    let found = report_file(alloc, found, tree.decls.as_slice())?;
    Ok(found.first())
}

/// Looks all names of a source up, and gives what it declares.
///
/// The error is the first rule of names that the source breaks, with its place, or want of memory.
pub fn names(alloc: Global, tree: &Tree) -> Result<Names, FrontError>
    ensures declares { IfOk result (λ names. names ≡ declarations tree.now) }
    ensures unbroken { IfOk result (λ names. RefusesNone (Refuses tree.now)) }
    ensures cause { IfErr result (IsCause (Refuses tree.now)) }
{
    let names = declare(alloc, tree)?;
    match find_first(alloc, &names, tree) {
        Ok(None) => Ok(names),
        Ok(Some(refusal)) => Err(FrontError::Refused(refusal)),
        Err(NoMemory) => Err(FrontError::NoMemory),
    }
}
