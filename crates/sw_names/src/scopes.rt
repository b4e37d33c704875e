//! The scopes of declarations: a file, and each type.

ghost use Rattle.std.specs.Prelude.{◌≡◌, ◌||◌, List, ℕ, [], ◌∷◌, Some, codes, IfOk, OnOk, if◌then◌else◌};
ghost use Rattle.std.specs.List.{flat_map};
ghost use Rattle.sw_findings.specs.Found.{keep_all};
ghost use Rattle.sw_sight.specs.InSight.{same};
ghost use Rattle.sw_declared.specs.Declarations.{is_distributed};
ghost use Rattle.sw_declared.specs.Spelling.{spelled};
ghost use Rattle.sw_names.specs.Keys.{built_in_keys, distributed_keys, file_keys, inner_keys};
ghost use Rattle.sw_names.specs.Meeting.{AreMet, is_met, repeats};

use crate::keys::{meet_decls, meet_inner};
use crate::meeting::{Scope, insert};
use crate::words::is_distributed;
use std::alloc::Global;
use sw_base::{ArgLabels, Items, NoMemory, Text};
use sw_declared::spelled;
use sw_findings::Findings;
use sw_sight::Levels;
use sw_tree::{Decl, Heading};

/// A scope in which nothing was met.
fn empty(alloc: Global) -> Levels
    ensures { AreMet [] result }
{
    Levels::new(alloc)
}

/// Meets what no source declares.
fn insert_built_in(
    alloc: Global,
    met: &mut Levels,
    name: &[u8],
    labels: &[Option<Text>],
) -> Result<(), NoMemory>
    ensures { OnOk result ((x : List ℕ) → is_met x met.new ≡ (same x (spelled name.now labels.now) || is_met x met.old)) }
{
    let key = spelled(alloc, name, labels)?;
    insert(met, &key)?;
    Ok(())
}

/// The labels of `resolve(id:using:)`.
fn resolve_labels(alloc: Global) -> Result<ArgLabels, NoMemory>
    ensures { IfOk result (λ labels. labels ≡ Some (codes "id") ∷ Some (codes "using") ∷ []) }
{
    let mut labels = Items::new(alloc);
    labels.push(Some(Text::from_bytes(alloc, b"id")?))?;
    labels.push(Some(Text::from_bytes(alloc, b"using")?))?;
    Ok(labels)
}

/// A scope in which what each distributed actor has was met.
fn meet_distributed(alloc: Global) -> Result<Levels, NoMemory>
    ensures { IfOk result (AreMet distributed_keys) }
{
    let mut met = empty(alloc);
    let none: ArgLabels = Items::new(alloc);
    let labels = resolve_labels(alloc)?;
    insert_built_in(alloc, &mut met, b"resolve", labels.as_slice())?;
    insert_built_in(alloc, &mut met, b"actorSystem", none.as_slice())?;
    insert_built_in(alloc, &mut met, b"id", none.as_slice())?;
    Ok(met)
}

/// The same where the heading says `distributed`, and else one in which nothing was met.
fn meet_heading(alloc: Global, heading: &Heading) -> Result<Levels, NoMemory>
    ensures { IfOk result (AreMet (if is_distributed heading.now then distributed_keys else [])) }
{
    if is_distributed(heading) {
        meet_distributed(alloc)
    } else {
        Ok(empty(alloc))
    }
}

/// The scope that a declaration is, in which what nothing in it declares was met.
fn meet_built_in(alloc: Global, decl: &Decl) -> Result<Levels, NoMemory>
    ensures { IfOk result (AreMet (built_in_keys decl.now)) }
{
    match decl {
        Decl::Actor(heading, _) => meet_heading(alloc, heading),
        Decl::Import(_, _) => Ok(empty(alloc)),
        Decl::Typealias(_) => Ok(empty(alloc)),
        Decl::Struct(_, _) => Ok(empty(alloc)),
        Decl::Enum(_, _) => Ok(empty(alloc)),
        Decl::Protocol(_, _) => Ok(empty(alloc)),
        Decl::Func(_) => Ok(empty(alloc)),
    }
}

/// N1 among what is declared in a declaration, with what was found before. The only error is want of memory.
pub(crate) fn report_inner(
    alloc: Global,
    found: Findings,
    decl: &Decl,
) -> Result<Findings, NoMemory>
    ensures { IfOk result (λ more. more ≡ keep_all found (repeats (built_in_keys decl.now) (inner_keys decl.now))) }
{
    let met = meet_built_in(alloc, decl)?;
    let mut scope = Scope { met, found };
    meet_inner(alloc, &mut scope, decl)?;
    Ok(scope.found)
}

/// N1 among the declarations of a file, with what was found before. The only error is want of memory.
pub(crate) fn report_file(
    alloc: Global,
    found: Findings,
    decls: &[Decl],
) -> Result<Findings, NoMemory>
    ensures { IfOk result (λ more. more ≡ keep_all found (repeats [] (flat_map file_keys decls.now))) }
{
    let mut scope = Scope {
        met: empty(alloc),
        found,
    };
    meet_decls(alloc, &mut scope, decls)?;
    Ok(scope.found)
}
