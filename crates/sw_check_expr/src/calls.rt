//! What a call is by itself, of what it calls and its arguments.
#![tactic(auto, using(crate::proofs::Findings::keep_append))]

ghost use Rattle.std.specs.Prelude.{◌≡◌, ◌++◌, IfOk, OnOk, slice_get, unwrap_or};
ghost use Rattle.std.specs.Option.{option_copied};
ghost use Rattle.sw_findings.specs.Found.{keep_all};
ghost use Rattle.sw_typed.specs.declared.expr.Form.TheVariants as form;
ghost use Rattle.sw_typing.specs.Conversions.{e1, fitted, typed};
ghost use Rattle.sw_check_expr.specs.Forms.{all_typed, call_broken, call_type, e10_of, is_unprintable, needs_of, of_call, prints_unprintable};

use crate::site::{Site, conclude};
use sqlite_items::Items;
use std::alloc::Global;
use sw_base::{Duplicate, NoMemory};
use sw_findings::Findings;
use sw_resolve::{Called, Callee};
use sw_rules::Rule;
use sw_typed::{BuiltIn, Entity, Form, Typed};
use sw_typing::{Facts, Need, is_printable};
use sw_value::Ty;

/// What the arguments of a call need, in order; nothing where nothing is called that can be.
#[tactic(auto, unfolding(crate::specs::Forms::needs_of))]
pub(crate) fn needs_of(called: &Called) -> &[Need]
    ensures { result.now ≡ needs_of called.now }
{
    match called {
        Called::Callee(callee) => callee.needs.as_slice(),
        Called::Nothing(_, _) => &[],
    }
}

/// What the argument at a position needs, from 0; `lost` behind those that are listed.
pub(crate) fn need_at<'a>(needs: &'a [Need], position: usize, lost: &'a Need) -> &'a Need
    ensures { result.now ≡ unwrap_or (slice_get needs.now position) lost.now }
{
    match needs.get(position) {
        Some(need) => need,
        None => lost,
    }
}

/// Tells whether each expression has a type.
pub(crate) fn all_typed(es: &[Typed]) -> bool
    ensures { result ≡ all_typed es.now }
{
    es.iter().all(|e| e.ty.is_some())
}

/// Tells whether a value has a type that cannot be printed.
#[tactic(auto, unfolding(crate::specs::Forms::is_unprintable))]
pub(crate) fn is_unprintable(known: &Facts, ty: &Option<Ty>) -> bool
    ensures { result ≡ is_unprintable known.now ty.now }
{
    match ty {
        None => false,
        Some(t) => !is_printable(known, t),
    }
}

/// Tells whether `print` is called with one argument that cannot be printed.
#[tactic(auto, unfolding(crate::specs::Forms::prints_unprintable))]
fn prints_unprintable(known: &Facts, entity: Entity, es: &[Typed]) -> bool
    ensures { result ≡ prints_unprintable known.now entity es.now }
{
    match entity {
        Entity::BuiltIn(BuiltIn::Print) => match es {
            [e] => is_unprintable(known, &e.ty),
            _ => false,
        },
        _ => false,
    }
}

/// Reports E10 at the argument of `print`.
#[tactic(auto, unfolding(crate::specs::Forms::e10_of, sw_findings::specs::Found::keep_all))]
fn report_unprintable(found: &mut Findings, known: &Facts, entity: Entity, es: &[Typed])
    ensures { found.new ≡ keep_all found.old (e10_of known.now entity es.now) }
{
    match entity {
        Entity::BuiltIn(BuiltIn::Print) => match es {
            [e] => found.report(is_unprintable(known, &e.ty), Rule::E10, e.first),
            _ => {}
        },
        _ => {}
    }
}

#[tactic(auto, unfolding(crate::specs::Forms::call_type))]
fn call_type(known: &Facts, callee: &Callee, es: &[Typed]) -> Result<Option<Ty>, NoMemory>
    ensures { IfOk result (λ made. made ≡ call_type known.now callee.now es.now) }
{
    if all_typed(es) && !prints_unprintable(known, callee.entity, es) {
        callee.gives.copy()
    } else {
        Ok(None)
    }
}

fn called_with(known: &Facts, callee: Callee, es: Items<Typed>) -> Result<Typed, NoMemory>
    ensures { IfOk result (λ made. made ≡ typed (call_type known.now callee es) callee.first (form.Call callee.entity callee.receiver callee.at es)) }
{
    let ty = call_type(known, &callee, es.as_slice())?;
    Ok(Typed {
        ty,
        first: callee.first,
        form: Form::Call(callee.entity, callee.receiver, callee.at, es),
    })
}

#[tactic(auto, unfolding(crate::specs::Forms::of_call))]
fn of_call(site: &Site<'_, '_>, called: Called, es: Items<Typed>) -> Result<Typed, NoMemory>
    ensures { IfOk result (λ made. made ≡ of_call site.now.scope.now called es) }
{
    let scope = site.scope;
    match called {
        Called::Callee(callee) => called_with(scope.known, callee, es),
        Called::Nothing(first, mut parts) => {
            parts.append(es)?;
            Ok(Typed {
                ty: None,
                first,
                form: Form::Unresolved(parts),
            })
        }
    }
}

#[tactic(auto, unfolding(crate::specs::Forms::call_broken, sw_findings::specs::Found::keep_all))]
fn report_call(found: &mut Findings, site: &Site<'_, '_>, called: &Called, es: &[Typed])
    ensures { found.new ≡ keep_all found.old (call_broken site.now.scope.now called.now es.now) }
{
    let scope = site.scope;
    match called {
        Called::Callee(callee) => report_unprintable(found, scope.known, callee.entity, es),
        Called::Nothing(_, _) => {}
    }
}

/// A call, of what it calls and its arguments; E10 is reported at the argument of `print`. The only error is want of memory.
pub(crate) fn call(
    alloc: Global,
    found: &mut Findings,
    site: &Site<'_, '_>,
    called: Called,
    es: Items<Typed>,
) -> Result<Typed, NoMemory>
    ensures typed { IfOk result (λ made. made ≡ fitted site.now.scope.now.known.now site.now.need.now (of_call site.now.scope.now called es)) }
    ensures found { OnOk result (found.new ≡ keep_all found.old
        (call_broken site.now.scope.now called es
        ++ e1 site.now.scope.now.known.now site.now.need.now site.now.at (of_call site.now.scope.now called es))) }
{
    report_call(found, site, &called, es.as_slice());
    let made = of_call(site, called, es)?;
    conclude(alloc, found, site, made)
}
