//! Names and members that stand as values.

ghost use Rattle.std.specs.Prelude.{◌≡◌, IfOk, OnOk};
ghost use Rattle.std.specs.Option.{option_copied};
ghost use Rattle.sw_findings.specs.Found.{keep_all};
ghost use Rattle.sw_typed.specs.declared.expr.Form.TheVariants as form;
ghost use Rattle.sw_resolve.specs.Standings.{member, member_broken, unresolved, value_of, value_or_parts};
ghost use Rattle.sw_resolve.specs.Names.{is_no_value, name_broken, named, variable, variable_or_member};

use crate::scope::Scope;
use crate::standing::{Standing, first, is_bare_func, lacks, parts, receiver, value_there};
use sqlite_items::Items;
use std::alloc::Global;
use sw_base::{Duplicate, NoMemory, Span};
use sw_findings::Findings;
use sw_locals::Local;
use sw_members::Declaration;
use sw_rules::Rule;
use sw_tree::Name;
use sw_typed::{Form, Typed};

/// What names nothing, as its parts.
fn unresolved(first: Span, parts: Items<Typed>) -> Typed
    ensures { result ≡ unresolved first parts }
{
    Typed {
        ty: None,
        first,
        form: Form::Unresolved(parts),
    }
}

/// A declaration as a value. The only error is want of memory.
pub(crate) fn value_of(
    alloc: Global,
    standing: Standing,
    at: Span,
    found: &Declaration,
) -> Result<Typed, NoMemory>
    ensures { IfOk result (λ made. made ≡ value_of standing at found.now) }
{
    let first = first(&standing);
    let ty = found.gives.copy()?;
    let on = receiver(alloc, standing, found.is_static)?;
    Ok(Typed {
        ty,
        first,
        form: Form::Member(found.entity, on, at),
    })
}

#[tactic(auto, unfolding(crate::specs::Standings::value_or_parts))]
fn value_or_parts(
    alloc: Global,
    standing: Standing,
    at: Span,
    found: Option<&Declaration>,
) -> Result<Typed, NoMemory>
    ensures { IfOk result (λ made. made ≡ value_or_parts standing at (option_copied found.entry)) }
{
    match found {
        None => {
            let first = first(&standing);
            Ok(unresolved(first, parts(alloc, standing)?))
        }
        Some(found) => value_of(alloc, standing, at, found),
    }
}

#[tactic(auto, unfolding(crate::specs::Standings::member))]
fn value_at(
    alloc: Global,
    scope: &Scope<'_>,
    standing: Standing,
    name: &Name,
) -> Result<Typed, NoMemory>
    ensures { IfOk result (λ made. made ≡ member scope.now standing name.now) }
{
    let found = value_there(scope, &standing, name.text.as_bytes());
    value_or_parts(alloc, standing, name.span, found)
}

/// The member of the name, as a value. Where there is none it has no type; E2 is reported where there is no member of the
/// name, and E5 where it is a func or a case with a payload, both at the name.
///
/// # Errors
/// [`NoMemory`] where there is no memory for the expression.
#[tactic(auto, using(crate::proofs::Findings::keep_append))]
pub fn member(
    alloc: Global,
    found: &mut Findings,
    scope: &Scope<'_>,
    standing: Standing,
    name: &Name,
) -> Result<Typed, NoMemory>
    ensures typed { IfOk result (λ made. made ≡ member scope.now standing name.now) }
    ensures found { OnOk result (found.new ≡ keep_all found.old (member_broken scope.now standing name.now)) }
{
    let x = name.text.as_bytes();
    found.report(lacks(scope, &standing, x), Rule::E2, name.span);
    found.report(is_bare_func(scope, &standing, x), Rule::E5, name.span);
    value_at(alloc, scope, standing, name)
}

/// A variable as a value. The only error is want of memory.
pub(crate) fn variable(at: Span, local: &Local) -> Result<Typed, NoMemory>
    ensures { IfOk result (λ made. made ≡ variable at local.now) }
{
    Ok(Typed {
        ty: local.ty.copy()?,
        first: at,
        form: Form::Variable(local.variable),
    })
}

#[tactic(auto, unfolding(crate::specs::Names::variable_or_member, crate::specs::Names::named))]
fn value_named(alloc: Global, scope: &Scope<'_>, name: &Name) -> Result<Typed, NoMemory>
    ensures { IfOk result (λ made. made ≡ named scope.now name.now) }
{
    match scope.local(name.text.as_bytes()) {
        Some(local) => variable(name.span, local),
        None => value_at(alloc, scope, Standing::Own(name.span), name),
    }
}

/// E5: something has the name, and no value has.
#[tactic(auto, unfolding(crate::specs::Names::is_no_value))]
fn is_no_value(scope: &Scope<'_>, name: &Name) -> bool
    ensures { result ≡ is_no_value scope.now name.now }
{
    let x = name.text.as_bytes();
    !scope.is_local(x)
        && (value_there(scope, &Standing::Own(name.span), x).is_none() && scope.is_declared(x))
}

/// What a name means that stands alone: the variable, or else the member of the own type. Where neither is there it has no
/// type, and E5 is reported at the name, if something else has it.
///
/// # Errors
/// [`NoMemory`] where there is no memory for the expression.
pub fn named(
    alloc: Global,
    found: &mut Findings,
    scope: &Scope<'_>,
    name: &Name,
) -> Result<Typed, NoMemory>
    ensures typed { IfOk result (λ made. made ≡ named scope.now name.now) }
    ensures found { OnOk result (found.new ≡ keep_all found.old (name_broken scope.now name.now)) }
{
    found.report(is_no_value(scope, name), Rule::E5, name.span);
    value_named(alloc, scope, name)
}
