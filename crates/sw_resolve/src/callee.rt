//! What is called.

ghost use Rattle.std.specs.Prelude.{◌≡◌, ◌∷◌, [], None, IfOk, cond, map};
ghost use Rattle.std.specs.Option.{option_and_then, option_copied};
ghost use Rattle.sw_typed.specs.ElaboratedOf.{receiver_of};
ghost use Rattle.sw_typing.specs.Needs.{needing};
ghost use Rattle.sw_typing.specs.Types.{element};
ghost use Rattle.sw_typing.specs.declared.need.Need.TheVariants.{Free};
ghost use Rattle.sw_resolve.specs.Callees.{callee_of, is_unchangeable, needs_for};

use crate::changes::may_change;
use crate::scope::Scope;
use std::alloc::Global;
use sw_base::{Duplicate, Items, NoMemory, Span};
use sw_members::Declaration;
use sw_typed::{BuiltIn, Entity, Receiver, Typed};
use sw_typing::{Need, element, needing};
use sw_value::Ty;

/// A declaration that is called.
#[derive(Debug, Drop)]
pub struct Callee {
    /// The first token of the call.
    pub first: Span,
    pub entity: Entity,
    pub receiver: Receiver,
    /// The called name.
    pub at: Span,
    /// What the arguments need, in order.
    pub needs: Items<Need>,
    /// The type of what it returns; none where there is none, or where a mutating func is called on what is no variable.
    pub gives: Option<Ty>,
}

/// What a call calls.
#[derive(Debug, Drop)]
pub enum Called {
    Callee(Callee),
    /// Nothing that can be called: the first token, and what stands there.
    Nothing(Span, sqlite_items::Items<Typed>),
}

// ---- what the arguments need

fn needs_each(alloc: Global, takes: &[Option<Ty>]) -> Result<Items<Need>, NoMemory>
    ensures { IfOk result (λ needs. needs ≡ map needing takes.now) }
{
    let mut needs = Items::new(alloc);
    for ty in takes {
        needs.push(needing(ty)?)?;
    }
    Ok(needs)
}

fn just(alloc: Global, need: Need) -> Result<Items<Need>, NoMemory>
    ensures { IfOk result (λ needs. needs ≡ need ∷ []) }
{
    let mut needs = Items::new(alloc);
    needs.push(need)?;
    Ok(needs)
}

/// The type of the elements of what a func is called on; none where that is no array.
fn element_of(alloc: Global, of: Option<&Ty>) -> Result<Option<Ty>, NoMemory>
    ensures { IfOk result (λ found. found ≡ option_and_then element (option_copied of.entry)) }
{
    match of {
        None => Ok(None),
        Some(t) => element(alloc, t),
    }
}

/// What the arguments need of a call on a value of this type. The only error is want of memory.
#[tactic(auto, unfolding(crate::specs::Callees::needs_for))]
fn needs_for(
    alloc: Global,
    of: Option<&Ty>,
    entity: Entity,
    takes: &[Option<Ty>],
) -> Result<Items<Need>, NoMemory>
    ensures { IfOk result (λ needs. needs ≡ needs_for (option_copied of.entry) entity takes.now) }
{
    match entity {
        Entity::BuiltIn(BuiltIn::Print) => just(alloc, Need::Free),
        Entity::BuiltIn(BuiltIn::Append) => just(alloc, needing(&element_of(alloc, of)?)?),
        _ => needs_each(alloc, takes),
    }
}

// ---- a declaration as what is called

/// E8: a mutating func is called on what is no variable.
#[tactic(auto, unfolding(crate::specs::Callees::is_unchangeable))]
pub(crate) fn is_unchangeable(scope: &Scope<'_>, is_mutating: bool, on: &Receiver) -> bool
    ensures { result ≡ is_unchangeable scope.now is_mutating on.now }
{
    is_mutating && !may_change(scope, on)
}

/// What a call gives that is broken, or not. The only error is want of memory.
fn given(is_broken: bool, gives: &Option<Ty>) -> Result<Option<Ty>, NoMemory>
    ensures { IfOk result (λ made. made ≡ cond is_broken None gives.now) }
{
    if is_broken { Ok(None) } else { gives.copy() }
}

/// A declaration that is called on this, at the called name, where a value of that type stands before it; `is_broken` tells
/// whether the call breaks E8. The only error is want of memory.
pub(crate) fn callee_of(
    alloc: Global,
    first: Span,
    receiver: Receiver,
    of: Option<&Ty>,
    at: Span,
    is_broken: bool,
    found: &Declaration,
) -> Result<Callee, NoMemory>
    ensures { IfOk result (λ made. made ≡ callee_of first receiver (option_copied of.entry) at is_broken found.now) }
{
    let gives = given(is_broken, &found.gives)?;
    let needs = needs_for(alloc, of, found.entity, found.takes.as_slice())?;
    Ok(Callee {
        first,
        entity: found.entity,
        receiver,
        at,
        needs,
        gives,
    })
}
