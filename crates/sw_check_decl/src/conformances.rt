//! What stands after the `:` of a heading: T1, and T6 by the form of the type.

ghost use Rattle.std.specs.Prelude.{◌≡◌, codes};
ghost use Rattle.std.specs.List.{flat_map, list_any};
ghost use Rattle.sw_findings.specs.Found.{keep_all};
ghost use Rattle.sw_sight.specs.InSight.{same};
ghost use Rattle.sw_type_table.specs.Table.{conforms_to};
ghost use Rattle.sw_check_decl.specs.Conformances.{conformance_broken, conformances_broken, error_broken, errors_broken, heading_broken, is_misplaced};

use crate::protocols::{form_named, is_built_in_protocol, is_error, is_free, is_hidden, same};
use sw_declared::{Form, Members, Names};
use sw_findings::Findings;
use sw_rules::Rule;
use sw_tree::{Decl, Heading, Name};

/// Tells whether a name may not stand after the `:` of a heading, where the file declares a type of this form by it, or
/// none.
fn is_misplaced(on_actor: bool, name: &[u8], form: Option<Form>) -> bool
    ensures { result ≡ is_misplaced on_actor name.now form }
{
    match form {
        None => !(is_built_in_protocol(name) || (is_error(name) && !on_actor)),
        Some(Form::Protocol) => on_actor,
        Some(Form::Struct | Form::Enum | Form::Actor | Form::DistributedActor) => true,
    }
}

/// T1 at a name after `:`.
fn report_conformance(
    found: &mut Findings,
    names: &Names,
    own: &Members,
    on_actor: bool,
    name: &Name,
)
    ensures { found.new ≡ keep_all found.old (conformance_broken names.now own.now on_actor name.now) }
{
    let text = name.text.as_bytes();
    let broken = is_hidden(names, own, text)
        || is_misplaced(on_actor, text, form_named(names, text));
    found.report(broken, Rule::T1, name.span);
}

fn report_conformances(
    found: &mut Findings,
    names: &Names,
    own: &Members,
    on_actor: bool,
    conformances: &[Name],
)
    ensures { found.new ≡ keep_all found.old (flat_map (conformance_broken names.now own.now on_actor) conformances.now) }
{
    for name in conformances {
        report_conformance(found, names, own, on_actor, name);
    }
}

/// T1 at the names after the `:` of a heading.
fn report_heading(
    found: &mut Findings,
    names: &Names,
    own: &Members,
    on_actor: bool,
    heading: &Heading,
)
    ensures { found.new ≡ keep_all found.old (heading_broken names.now own.now on_actor heading.now) }
{
    report_conformances(found, names, own, on_actor, heading.conformances.as_slice());
}

/// T1 at a declaration.
#[tactic(auto, using(crate::proofs::Findings::keep_none))]
pub(crate) fn report_misplaced(found: &mut Findings, names: &Names, own: &Members, decl: &Decl)
    ensures { found.new ≡ keep_all found.old (conformances_broken names.now own.now decl.now) }
{
    match decl {
        Decl::Import(_, _) | Decl::Typealias(_) | Decl::Func(_) => {}
        Decl::Struct(heading, _) => report_heading(found, names, own, false, heading),
        Decl::Enum(heading, _) => report_heading(found, names, own, false, heading),
        Decl::Protocol(heading, _) => report_heading(found, names, own, false, heading),
        Decl::Actor(heading, _) => report_heading(found, names, own, true, heading),
    }
}

fn is_among(built_in: &[u8], names: &[Name]) -> bool
    ensures { result ≡ list_any (λ name. same built_in.now name.text) names.now }
{
    names
        .iter()
        .any(|name| same(built_in, name.text.as_bytes()))
}

/// Tells whether the built-in `Error`, which nothing hides, is one of the names.
fn conforms_to_error(names: &Names, own: &Members, conformances: &[Name]) -> bool
    ensures { result ≡ conforms_to names.now own.now (codes "Error") conformances.now }
{
    is_among(b"Error", conformances) && is_free(names, own, b"Error")
}

/// T6 at the name of a type that is no enum.
fn report_error(found: &mut Findings, names: &Names, own: &Members, heading: &Heading)
    ensures { found.new ≡ keep_all found.old (error_broken names.now own.now heading.now) }
{
    let broken = conforms_to_error(names, own, heading.conformances.as_slice());
    found.report(broken, Rule::T6, heading.name.span);
}

/// T6 at a declaration, where its form breaks it.
#[tactic(auto, using(crate::proofs::Findings::keep_none))]
pub(crate) fn report_errors(found: &mut Findings, names: &Names, own: &Members, decl: &Decl)
    ensures { found.new ≡ keep_all found.old (errors_broken names.now own.now decl.now) }
{
    match decl {
        Decl::Import(_, _) | Decl::Typealias(_) | Decl::Func(_) | Decl::Enum(_, _) => {}
        Decl::Struct(heading, _) => report_error(found, names, own, heading),
        Decl::Protocol(heading, _) => report_error(found, names, own, heading),
        Decl::Actor(heading, _) => report_error(found, names, own, heading),
    }
}
