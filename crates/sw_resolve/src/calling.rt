//! Which declaration a call calls.

ghost use Rattle.std.specs.Prelude.{◌≡◌, ◌∷◌, ◌&&◌, [], None, IfOk, OnOk, codes, is_none, not};
ghost use Rattle.std.specs.Option.{option_copied};
ghost use Rattle.sw_findings.specs.Found.{keep_all, when};
ghost use Rattle.sw_rules.specs.declared.Rule.TheVariants.{E8};
ghost use Rattle.sw_declared.specs.Declarations.{argument_labels};
ghost use Rattle.sw_members.specs.declared.declaration.Side.TheVariants.{Both};
ghost use Rattle.sw_members.specs.Found.{fitting};
ghost use Rattle.sw_resolve.specs.Scopes.{members_at, type_named};
ghost use Rattle.sw_resolve.specs.Standings.{owner};
ghost use Rattle.sw_resolve.specs.Callees.{built_in_fitting, call_broken, callable_there, callee_or_parts, called_there, calls_value, changes_constant, e8, file_broken, file_called, file_callee, file_fitting, fits_none, fitting_there, has_type, member_callee, member_or_file, member_or_file_broken, name_call_broken, name_called, no_callee, or_else, value_call_broken, value_called, value_parts};

use crate::callee::{Called, Callee, callee_of, is_unchangeable};
use crate::naming::{value_of, variable};
use crate::scope::{Scope, members_at};
use crate::standing::{
    Standing, any_callable_there, first, fitting_there, lacks, owner, parts, receiver, value_there,
};
use sqlite_items::Items;
use std::alloc::Global;
use sw_base::{Duplicate, NoMemory, Span};
use sw_findings::Findings;
use sw_locals::Local;
use sw_members::{Declaration, Side};
use sw_rules::Rule;
use sw_tree::{Argument, Name};
use sw_typed::{Receiver, Typed};
use sw_value::Ty;

// ---- a call of a member

fn just(alloc: Global, e: Typed) -> Result<Items<Typed>, NoMemory>
    ensures { IfOk result (λ made. made ≡ e ∷ []) }
{
    let mut made = Items::new(alloc);
    made.push(e)?;
    Ok(made)
}

#[tactic(auto, unfolding(crate::specs::Callees::value_parts))]
fn value_parts(
    alloc: Global,
    standing: Standing,
    at: Span,
    found: Option<&Declaration>,
) -> Result<Items<Typed>, NoMemory>
    ensures { IfOk result (λ made. made ≡ value_parts standing at (option_copied found.entry)) }
{
    match found {
        None => parts(alloc, standing),
        Some(found) => just(alloc, value_of(alloc, standing, at, found)?),
    }
}

/// What stands where nothing takes the labels. The only error is want of memory.
#[tactic(auto, unfolding(crate::specs::Callees::no_callee))]
fn no_callee(
    alloc: Global,
    scope: &Scope<'_>,
    standing: Standing,
    name: &Name,
) -> Result<Items<Typed>, NoMemory>
    ensures { IfOk result (λ made. made ≡ no_callee scope.now standing name.now) }
{
    let x = name.text.as_bytes();
    if any_callable_there(scope, &standing, x) {
        parts(alloc, standing)
    } else {
        let found = value_there(scope, &standing, x);
        value_parts(alloc, standing, name.span, found)
    }
}

/// The type of a value that stands there. The only error is want of memory.
fn owner_of(standing: &Standing) -> Result<Option<Ty>, NoMemory>
    ensures { IfOk result (λ made. made ≡ owner standing.now) }
{
    match owner(standing) {
        None => Ok(None),
        Some(t) => Ok(Some(t.copy()?)),
    }
}

/// A member that is called, where E8 is reported. The only error is want of memory.
fn member_callee(
    alloc: Global,
    found: &mut Findings,
    scope: &Scope<'_>,
    standing: Standing,
    at: Span,
    member: &Declaration,
) -> Result<Callee, NoMemory>
    ensures made { IfOk result (λ made. made ≡ member_callee scope.now standing at member.now) }
    ensures found { OnOk result (found.new ≡ keep_all found.old (when (changes_constant scope.now standing member.now) E8 at)) }
{
    let begins = first(&standing);
    let of = owner_of(&standing)?;
    let on = receiver(alloc, standing, member.is_static)?;
    let is_broken = is_unchangeable(scope, member.is_mutating, &on);
    found.report(is_broken, Rule::E8, at);
    callee_of(alloc, begins, on, of.as_ref(), at, is_broken, member)
}

#[tactic(auto, unfolding(crate::specs::Callees::callee_or_parts, crate::specs::Callees::e8, sw_findings::specs::Found::keep_all))]
fn callee_or_parts(
    alloc: Global,
    found: &mut Findings,
    scope: &Scope<'_>,
    standing: Standing,
    name: &Name,
    member: Option<&Declaration>,
) -> Result<Called, NoMemory>
    ensures made { IfOk result (λ made. made ≡ callee_or_parts scope.now standing name.now (option_copied member.entry)) }
    ensures found { OnOk result (found.new ≡ keep_all found.old (e8 scope.now standing name.now.span (option_copied member.entry))) }
{
    match member {
        None => {
            let begins = first(&standing);
            Ok(Called::Nothing(begins, no_callee(alloc, scope, standing, name)?))
        }
        Some(member) => Ok(Called::Callee(member_callee(
            alloc, found, scope, standing, name.span, member,
        )?)),
    }
}

/// E3: members of the name can be called, and none takes the labels.
#[tactic(auto, unfolding(crate::specs::Callees::fits_none))]
fn fits_none(
    scope: &Scope<'_>,
    standing: &Standing,
    name: &[u8],
    member: Option<&Declaration>,
) -> bool
    ensures { result ≡ (callable_there scope.now standing.now name.now && is_none (option_copied member.entry)) }
{
    any_callable_there(scope, standing, name) && member.is_none()
}

fn has_type(member: Option<&Declaration>) -> bool
    ensures { result ≡ has_type (option_copied member.entry) }
{
    match member {
        None => false,
        Some(member) => member.gives.is_some(),
    }
}

/// E5 at `(`: a value is called.
#[tactic(auto, unfolding(crate::specs::Callees::calls_value))]
fn calls_value(scope: &Scope<'_>, standing: &Standing, name: &[u8]) -> bool
    ensures { result ≡ calls_value scope.now standing.now name.now }
{
    !any_callable_there(scope, standing, name) && has_type(value_there(scope, standing, name))
}

/// What a call of a member calls. Where it is nothing that can be called, E2 is reported at the name if there is no member
/// of the name, E3 at the name if none takes the labels, and E5 at `(` if it is a value. E8 is reported at the name where a
/// mutating func is called on what is no variable.
///
/// # Errors
/// [`NoMemory`] where there is no memory for the expression.
#[tactic(auto, unfolding(crate::specs::Callees::called_there, crate::specs::Callees::fits_none), using(crate::proofs::Findings::keep_append))]
pub fn called_member(
    alloc: Global,
    found: &mut Findings,
    scope: &Scope<'_>,
    standing: Standing,
    name: &Name,
    arguments: &[Argument],
    paren: Span,
) -> Result<Called, NoMemory>
    ensures made { IfOk result (λ made. made ≡ called_there scope.now standing name.now (argument_labels arguments.now)) }
    ensures found { OnOk result (found.new ≡ keep_all found.old (call_broken scope.now standing name.now (argument_labels arguments.now) paren)) }
{
    let x = name.text.as_bytes();
    let member = fitting_there(scope, &standing, x, arguments)?;
    found.report(lacks(scope, &standing, x), Rule::E2, name.span);
    found.report(fits_none(scope, &standing, x, member), Rule::E3, name.span);
    found.report(calls_value(scope, &standing, x), Rule::E5, paren);
    callee_or_parts(alloc, found, scope, standing, name, member)
}

// ---- a call of a name that stands alone

#[tactic(auto, unfolding(crate::specs::Callees::or_else))]
fn or_else<'a>(
    first: Option<&'a Declaration>,
    second: Option<&'a Declaration>,
) -> Option<&'a Declaration>
    ensures { option_copied result ≡ or_else (option_copied first.entry) (option_copied second.entry) }
{
    match first {
        None => second,
        Some(member) => Some(member),
    }
}

/// What is built in and takes the labels, where the file declares nothing of the name. The only error is want of memory.
#[tactic(auto, unfolding(crate::specs::Callees::built_in_fitting))]
fn built_in_fitting<'a>(
    scope: &Scope<'a>,
    name: &[u8],
    arguments: &[Argument],
) -> Result<Option<&'a Declaration>, NoMemory>
    ensures { IfOk result (λ found. option_copied found ≡ built_in_fitting scope.now name.now (argument_labels arguments.now)) }
{
    if scope.known.funcs.any_named(Side::Both, name) || scope.is_type(name) {
        return Ok(None);
    }
    scope.known.built_in.fitting(Side::Both, name, arguments)
}

/// The initialiser of the type of the name that takes the labels. The only error is want of memory.
fn initializer_fitting<'a>(
    scope: &Scope<'a>,
    name: &[u8],
    arguments: &[Argument],
) -> Result<Option<&'a Declaration>, NoMemory>
    ensures { IfOk result (λ found. option_copied found
        ≡ fitting Both (codes "init") (argument_labels arguments.now) (members_at scope.now.known.now (type_named scope.now name.now))) }
{
    match members_at(scope.known, scope.type_named(name)?) {
        None => Ok(None),
        Some(members) => members.fitting(Side::Both, b"init", arguments),
    }
}

/// What the file declares by the name, or what is built in, that takes the labels. The only error is want of memory.
#[tactic(auto, unfolding(crate::specs::Callees::file_fitting))]
fn file_fitting<'a>(
    scope: &Scope<'a>,
    name: &[u8],
    arguments: &[Argument],
) -> Result<Option<&'a Declaration>, NoMemory>
    ensures { IfOk result (λ found. option_copied found ≡ file_fitting scope.now name.now (argument_labels arguments.now)) }
{
    let func = scope.known.funcs.fitting(Side::Both, name, arguments)?;
    let initializer = initializer_fitting(scope, name, arguments)?;
    let built_in = built_in_fitting(scope, name, arguments)?;
    Ok(or_else(func, or_else(initializer, built_in)))
}

#[tactic(auto, unfolding(crate::specs::Callees::file_callee))]
fn file_callee(alloc: Global, at: Span, func: Option<&Declaration>) -> Result<Called, NoMemory>
    ensures { IfOk result (λ made. made ≡ file_callee at (option_copied func.entry)) }
{
    match func {
        None => Ok(Called::Nothing(at, Items::new(alloc))),
        Some(func) => Ok(Called::Callee(callee_of(
            alloc,
            at,
            Receiver::Nothing,
            None,
            at,
            false,
            func,
        )?)),
    }
}

#[tactic(auto, unfolding(crate::specs::Callees::file_called))]
fn called_in_file(
    alloc: Global,
    found: &mut Findings,
    scope: &Scope<'_>,
    name: &Name,
    arguments: &[Argument],
) -> Result<Called, NoMemory>
    ensures made { IfOk result (λ made. made ≡ file_called scope.now name.now (argument_labels arguments.now)) }
    ensures found { OnOk result (found.new ≡ keep_all found.old (file_broken scope.now name.now (argument_labels arguments.now))) }
{
    let x = name.text.as_bytes();
    let func = file_fitting(scope, x, arguments)?;
    found.report(scope.is_declared(x) && func.is_none(), Rule::E3, name.span);
    file_callee(alloc, name.span, func)
}

#[tactic(auto, unfolding(crate::specs::Callees::member_or_file, crate::specs::Callees::member_or_file_broken))]
fn called_declaration(
    alloc: Global,
    found: &mut Findings,
    scope: &Scope<'_>,
    name: &Name,
    arguments: &[Argument],
    paren: Span,
) -> Result<Called, NoMemory>
    ensures made { IfOk result (λ made. made ≡ member_or_file scope.now name.now (argument_labels arguments.now)) }
    ensures found { OnOk result (found.new ≡ keep_all found.old (member_or_file_broken scope.now name.now (argument_labels arguments.now) paren)) }
{
    if scope.is_own(name.text.as_bytes()) {
        called_member(
            alloc,
            found,
            scope,
            Standing::Own(name.span),
            name,
            arguments,
            paren,
        )
    } else {
        called_in_file(alloc, found, scope, name, arguments)
    }
}

/// What a call of a name calls that stands alone: a member of the own type, or else a func of the file, an initialiser of
/// the type of the name, or what is built in. Where nothing takes the labels, E3 is reported at the name. A variable is
/// called by nothing: E5 is reported at `(`, if it has a type.
///
/// # Errors
/// [`NoMemory`] where there is no memory for the expression.
#[tactic(auto, unfolding(crate::specs::Callees::name_or_variable, crate::specs::Callees::name_or_variable_broken, crate::specs::Callees::name_called, crate::specs::Callees::name_call_broken))]
pub fn called_name(
    alloc: Global,
    found: &mut Findings,
    scope: &Scope<'_>,
    name: &Name,
    arguments: &[Argument],
    paren: Span,
) -> Result<Called, NoMemory>
    ensures made { IfOk result (λ made. made ≡ name_called scope.now name.now (argument_labels arguments.now)) }
    ensures found { OnOk result (found.new ≡ keep_all found.old (name_call_broken scope.now name.now (argument_labels arguments.now) paren)) }
{
    match scope.local(name.text.as_bytes()) {
        None => called_declaration(alloc, found, scope, name, arguments, paren),
        Some(local) => {
            found.report(local.ty.is_some(), Rule::E5, paren);
            let e = variable(name.span, local)?;
            Ok(Called::Nothing(name.span, just(alloc, e)?))
        }
    }
}

// ---- a call of a value

/// What a call of a value calls: nothing. E5 is reported at `(`, if it has a type.
///
/// # Errors
/// [`NoMemory`] where there is no memory for the expression.
#[tactic(auto, unfolding(crate::specs::Callees::value_called))]
pub fn called_value(
    alloc: Global,
    found: &mut Findings,
    e: Typed,
    paren: Span,
) -> Result<Called, NoMemory>
    ensures made { IfOk result (λ made. made ≡ value_called e) }
    ensures found { OnOk result (found.new ≡ keep_all found.old (value_call_broken e paren)) }
{
    found.report(e.ty.is_some(), Rule::E5, paren);
    let first = e.first;
    Ok(Called::Nothing(first, just(alloc, e)?))
}
