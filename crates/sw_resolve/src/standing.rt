//! What stands before the name of a member.

ghost use Rattle.std.specs.Prelude.{◌≡◌, [], IfOk, not, ◌&&◌, is_none, unwrap_or};
ghost use Rattle.std.specs.Option.{option_copied};
ghost use Rattle.sw_declared.specs.Declarations.{argument_labels};
ghost use Rattle.sw_members.specs.Found.{any_callable, any_named, fitting, value_named};
ghost use Rattle.sw_resolve.specs.Standings.{first, has_owner, is_bare_func, lacks, members, members_of, owner, parts, receiver, side, unwritten};

use crate::scope::{Scope, members_at};
use sqlite_items::{Boxed, Items};
use std::alloc::Global;
use sw_base::{NoMemory, Span};
use sw_members::{Declaration, Declarations, Side};
use sw_tree::Argument;
use sw_typed::{Receiver, Typed};
use sw_typing::Facts;
use sw_value::{Base, Ty};

/// What stands before the name of a member.
#[derive(Debug, Drop)]
pub enum Standing {
    /// A value, before a `.`.
    Value(Typed),
    /// A type, before a `.`: its name, or what the place tells of. None is a protocol, which has no members of its own.
    Type(Option<Base>, Span),
    /// Nothing before the `.` at this place, where the place tells of no type.
    Lost(Span),
    /// Nothing, not even a `.`: the name is one of the own type's members, at this place.
    Own(Span),
}

#[tactic(auto, unfolding(crate::specs::Standings::members_of))]
fn members_of<'a>(known: &'a Facts, ty: &Option<Ty>) -> Option<&'a Declarations>
    ensures { unwrap_or (option_copied result) [] ≡ members_of known.now ty.now }
{
    match ty {
        None => None,
        Some(t) => sw_typing::members(known, t),
    }
}

/// The members of what stands there.
#[tactic(auto, unfolding(crate::specs::Standings::members))]
fn members<'a>(scope: &Scope<'a>, standing: &Standing) -> Option<&'a Declarations>
    ensures { unwrap_or (option_copied result) [] ≡ members scope.now standing.now }
{
    match standing {
        Standing::Value(e) => members_of(scope.known, &e.ty),
        Standing::Type(base, _) => members_at(scope.known, *base),
        Standing::Lost(_) => None,
        Standing::Own(_) => scope.own_members(),
    }
}

/// Which of them it has.
#[tactic(auto, unfolding(crate::specs::Standings::side))]
fn side(scope: &Scope<'_>, standing: &Standing) -> Side
    ensures { result ≡ side scope.now standing.now }
{
    match standing {
        Standing::Value(_) => Side::Instance,
        Standing::Type(_, _) => Side::Static,
        Standing::Lost(_) => Side::Static,
        Standing::Own(_) => scope.own_side(),
    }
}

/// The type of a value that stands there, which may have none.
#[tactic(auto, unfolding(crate::specs::Standings::owner))]
pub(crate) fn owner(standing: &Standing) -> Option<&Ty>
    ensures { option_copied result ≡ owner standing.now }
{
    match standing {
        Standing::Value(e) => e.ty.as_ref(),
        Standing::Type(_, _) => None,
        Standing::Lost(_) => None,
        Standing::Own(_) => None,
    }
}

/// Tells whether a type stands there, or a value that has one.
#[tactic(auto, unfolding(crate::specs::Standings::has_owner))]
fn has_owner(standing: &Standing) -> bool
    ensures { result ≡ has_owner standing.now }
{
    match standing {
        Standing::Value(e) => e.ty.is_some(),
        Standing::Type(_, _) => true,
        Standing::Lost(_) => false,
        Standing::Own(_) => false,
    }
}

/// The first token of what begins there.
#[tactic(auto, unfolding(crate::specs::Standings::first))]
pub(crate) fn first(standing: &Standing) -> Span
    ensures { result ≡ first standing.now }
{
    match standing {
        Standing::Value(e) => e.first,
        Standing::Type(_, at) => *at,
        Standing::Lost(at) => *at,
        Standing::Own(at) => *at,
    }
}

/// The value that stands there, as the part of an expression that names nothing. The only error is want of memory.
#[tactic(auto, unfolding(crate::specs::Standings::parts))]
pub(crate) fn parts(alloc: Global, standing: Standing) -> Result<Items<Typed>, NoMemory>
    ensures { IfOk result (λ made. made ≡ parts standing) }
{
    let mut made = Items::new(alloc);
    match standing {
        Standing::Value(e) => made.push(e)?,
        Standing::Type(_, _) => {}
        Standing::Lost(_) => {}
        Standing::Own(_) => {}
    }
    Ok(made)
}

#[tactic(auto, unfolding(crate::specs::Standings::unwritten))]
fn unwritten(is_static: bool) -> Receiver
    ensures { result ≡ unwritten is_static }
{
    if is_static {
        Receiver::Nothing
    } else {
        Receiver::Own
    }
}

/// On what a member is used that is static or is not. The only error is want of memory.
#[tactic(auto, unfolding(crate::specs::Standings::receiver))]
pub(crate) fn receiver(
    alloc: Global,
    standing: Standing,
    is_static: bool,
) -> Result<Receiver, NoMemory>
    ensures { IfOk result (λ on. on ≡ receiver standing is_static) }
{
    match standing {
        Standing::Value(e) => Ok(Receiver::Value(Boxed::new(alloc, e)?)),
        Standing::Type(_, _) => Ok(Receiver::Nothing),
        Standing::Lost(_) => Ok(Receiver::Nothing),
        Standing::Own(_) => Ok(unwritten(is_static)),
    }
}

// ---- what a name means there

/// The first member of the name that stands as a value.
pub(crate) fn value_there<'a>(
    scope: &Scope<'a>,
    standing: &Standing,
    name: &[u8],
) -> Option<&'a Declaration>
    ensures { option_copied result ≡ value_named (side scope.now standing.now) name.now (members scope.now standing.now) }
{
    match members(scope, standing) {
        None => None,
        Some(members) => members.value_named(side(scope, standing), name),
    }
}

/// The first member of the name that takes the labels of these arguments. The only error is want of memory.
pub(crate) fn fitting_there<'a>(
    scope: &Scope<'a>,
    standing: &Standing,
    name: &[u8],
    arguments: &[Argument],
) -> Result<Option<&'a Declaration>, NoMemory>
    ensures { IfOk result (λ found. option_copied found
        ≡ fitting (side scope.now standing.now) name.now (argument_labels arguments.now) (members scope.now standing.now)) }
{
    match members(scope, standing) {
        None => Ok(None),
        Some(members) => members.fitting(side(scope, standing), name, arguments),
    }
}

/// Tells whether a member has the name.
pub(crate) fn any_there(scope: &Scope<'_>, standing: &Standing, name: &[u8]) -> bool
    ensures { result ≡ any_named (side scope.now standing.now) name.now (members scope.now standing.now) }
{
    match members(scope, standing) {
        None => false,
        Some(members) => members.any_named(side(scope, standing), name),
    }
}

/// Tells whether a member has the name and can be called.
pub(crate) fn any_callable_there(scope: &Scope<'_>, standing: &Standing, name: &[u8]) -> bool
    ensures { result ≡ any_callable (side scope.now standing.now) name.now (members scope.now standing.now) }
{
    match members(scope, standing) {
        None => false,
        Some(members) => members.any_callable(side(scope, standing), name),
    }
}

/// E2: there is a type, and no member of the name.
#[tactic(auto, unfolding(crate::specs::Standings::lacks))]
pub(crate) fn lacks(scope: &Scope<'_>, standing: &Standing, name: &[u8]) -> bool
    ensures { result ≡ lacks scope.now standing.now name.now }
{
    has_owner(standing) && !any_there(scope, standing, name)
}

/// E5 at a name that is not called: members have it, and none of them is a value.
#[tactic(auto, unfolding(crate::specs::Standings::is_bare_func))]
pub(crate) fn is_bare_func(scope: &Scope<'_>, standing: &Standing, name: &[u8]) -> bool
    ensures { result ≡ is_bare_func scope.now standing.now name.now }
{
    any_there(scope, standing, name) && value_there(scope, standing, name).is_none()
}
