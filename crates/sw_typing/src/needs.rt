//! What places need of the types of expressions, and what the parts of an expression need.

ghost use Rattle.std.specs.Prelude.{◌≡◌, IfOk};
ghost use Rattle.std.specs.Option.{option_copied};
ghost use Rattle.sw_typing.specs.Types.{element, stripped};
ghost use Rattle.sw_typing.specs.Needs.{wanted, is_lost, needing, like, less_optional, is_named_base, is_named_marked, if_named, implicit_wanted, element_wanted, nil_wanted, within_try, first_branch, second_branch, first_element, other_element, index_need};

use crate::need::Need;
use crate::types::{bare, is_array, is_optional, past_optionals, stripped, with_marks};
use std::alloc::Global;
use sw_base::{Duplicate, NoMemory};
use sw_value::{Base, Mark, Ty};

/// The type that a place tells of.
#[tactic(auto, unfolding(crate::specs::Needs::wanted))]
pub fn wanted(need: &Need) -> Option<&Ty>
    ensures { option_copied result ≡ wanted need.now }
{
    match need {
        Need::Free => None,
        Need::Lost => None,
        Need::Like(t) => Some(t),
        Need::Needed(t) => Some(t),
    }
}

/// Tells whether a type is needed that is not there.
#[tactic(auto, unfolding(crate::specs::Needs::is_lost))]
pub fn is_lost(need: &Need) -> bool
    ensures { result ≡ is_lost need.now }
{
    match need {
        Need::Free => false,
        Need::Lost => true,
        Need::Like(_) => false,
        Need::Needed(_) => false,
    }
}

/// The need of a type, which may not be there.
///
/// # Errors
/// [`NoMemory`] where there is no memory for the type.
#[tactic(auto, unfolding(crate::specs::Needs::needing))]
pub fn needing(ty: &Option<Ty>) -> Result<Need, NoMemory>
    ensures { IfOk result (λ made. made ≡ needing ty.now) }
{
    match ty {
        None => Ok(Need::Lost),
        Some(t) => Ok(Need::Needed(t.copy()?)),
    }
}

/// What stands beside an operand of a type, which may not be there, needs.
///
/// # Errors
/// [`NoMemory`] where there is no memory for the type.
#[tactic(auto, unfolding(crate::specs::Needs::like))]
pub fn like(ty: &Option<Ty>) -> Result<Need, NoMemory>
    ensures { IfOk result (λ made. made ≡ like ty.now) }
{
    match ty {
        None => Ok(Need::Lost),
        Some(t) => Ok(Need::Like(t.copy()?)),
    }
}

/// What an optional wraps, and of another type itself.
///
/// # Errors
/// [`NoMemory`] where there is no memory for the type.
#[tactic(auto, unfolding(crate::specs::Needs::less_optional, crate::specs::Needs::or_itself, crate::specs::Types::wrapped))]
pub fn less_optional(alloc: Global, t: &Ty) -> Result<Ty, NoMemory>
    ensures { IfOk result (λ made. made ≡ less_optional t.now) }
{
    match t.marks.as_slice() {
        [Mark::Optional, rest @ ..] => with_marks(alloc, rest, t.base),
        _ => t.copy(),
    }
}

// ---- what `nil`, `.name` and `[ ]` take

#[tactic(auto, unfolding(crate::specs::Needs::is_named_base))]
fn is_named_base(base: Base) -> bool
    ensures { result ≡ is_named_base base }
{
    match base {
        Base::Void => false,
        Base::Any(_) => false,
        Base::AnyError => false,
        _ => true,
    }
}

fn is_named_marked(marks: &[Mark], base: Base) -> bool
    ensures { result ≡ is_named_marked marks.now base }
{
    marks.is_empty() && is_named_base(base)
}

#[tactic(auto, unfolding(crate::specs::Types::stripped))]
fn named_within(alloc: Global, t: &Ty) -> Result<Option<Ty>, NoMemory>
    ensures { IfOk result (λ made. made ≡ if_named (stripped t.now)) }
{
    if is_named_marked(past_optionals(t.marks.as_slice()), t.base) {
        Ok(Some(stripped(alloc, t)?))
    } else {
        Ok(None)
    }
}

/// The type in which `.name` is looked for at a place, where the place tells of one that has a name.
///
/// # Errors
/// [`NoMemory`] where there is no memory for the type.
#[tactic(auto, unfolding(crate::specs::Needs::implicit_wanted))]
pub fn implicit_wanted(alloc: Global, need: &Need) -> Result<Option<Ty>, NoMemory>
    ensures { IfOk result (λ made. made ≡ implicit_wanted need.now) }
{
    match wanted(need) {
        None => Ok(None),
        Some(t) => named_within(alloc, t),
    }
}

#[tactic(auto, unfolding(crate::specs::Types::element, crate::specs::Types::stripped))]
fn element_within(alloc: Global, t: &Ty) -> Result<Option<Ty>, NoMemory>
    ensures { IfOk result (λ made. made ≡ element (stripped t.now)) }
{
    match past_optionals(t.marks.as_slice()) {
        [Mark::Array, rest @ ..] => Ok(Some(with_marks(alloc, rest, t.base)?)),
        _ => Ok(None),
    }
}

/// The type of the elements of `[ ]` at a place, where the place tells of an array.
///
/// # Errors
/// [`NoMemory`] where there is no memory for the type.
#[tactic(auto, unfolding(crate::specs::Needs::element_wanted))]
pub fn element_wanted(alloc: Global, need: &Need) -> Result<Option<Ty>, NoMemory>
    ensures { IfOk result (λ made. made ≡ element_wanted need.now) }
{
    match wanted(need) {
        None => Ok(None),
        Some(t) => element_within(alloc, t),
    }
}

/// The type of `nil` at a place, where the place tells of an optional.
///
/// # Errors
/// [`NoMemory`] where there is no memory for the type.
#[tactic(auto, unfolding(crate::specs::Needs::nil_wanted))]
pub fn nil_wanted(need: &Need) -> Result<Option<Ty>, NoMemory>
    ensures { IfOk result (λ made. made ≡ nil_wanted need.now) }
{
    match wanted(need) {
        None => Ok(None),
        Some(t) => {
            if is_optional(t) {
                Ok(Some(t.copy()?))
            } else {
                Ok(None)
            }
        }
    }
}

// ---- what the parts of an expression need

/// What is needed within `try?`: no type.
#[tactic(auto, unfolding(crate::specs::Needs::within_try))]
pub fn within_try(need: &Need) -> Need
    ensures { result ≡ within_try need.now }
{
    match need {
        Need::Free => Need::Free,
        Need::Lost => Need::Lost,
        Need::Like(_) => Need::Free,
        Need::Needed(_) => Need::Free,
    }
}

/// What the first branch of a ternary needs, which stands at a place of its own.
///
/// # Errors
/// [`NoMemory`] where there is no memory for the type.
#[tactic(auto, unfolding(crate::specs::Needs::first_branch))]
pub fn first_branch(need: &Need) -> Result<Need, NoMemory>
    ensures { IfOk result (λ made. made ≡ first_branch need.now) }
{
    match need {
        Need::Free => Ok(Need::Free),
        Need::Lost => Ok(Need::Lost),
        Need::Like(_) => Ok(Need::Free),
        Need::Needed(t) => Ok(Need::Needed(t.copy()?)),
    }
}

/// What the second branch of a ternary needs: where the place needs no type, that of the first branch.
///
/// # Errors
/// [`NoMemory`] where there is no memory for the type.
#[tactic(auto, unfolding(crate::specs::Needs::second_branch))]
pub fn second_branch(need: &Need, first: &Option<Ty>) -> Result<Need, NoMemory>
    ensures { IfOk result (λ made. made ≡ second_branch need.now first.now) }
{
    match need {
        Need::Free => needing(first),
        Need::Lost => Ok(Need::Lost),
        Need::Like(_) => needing(first),
        Need::Needed(t) => Ok(Need::Needed(t.copy()?)),
    }
}

/// What the first element of an array needs: the type of elements that the place tells of.
///
/// # Errors
/// [`NoMemory`] where there is no memory for the type.
#[tactic(auto, unfolding(crate::specs::Needs::first_element))]
pub fn first_element(need: &Need, wanted: &Option<Ty>) -> Result<Need, NoMemory>
    ensures { IfOk result (λ made. made ≡ first_element need.now wanted.now) }
{
    match wanted {
        None => {
            if is_lost(need) {
                Ok(Need::Lost)
            } else {
                Ok(Need::Free)
            }
        }
        Some(t) => Ok(Need::Needed(t.copy()?)),
    }
}

/// What an element of an array after the first needs: where the place tells of no type of elements, that of the first.
///
/// # Errors
/// [`NoMemory`] where there is no memory for the type.
#[tactic(auto, unfolding(crate::specs::Needs::other_element))]
pub fn other_element(wanted: &Option<Ty>, first: &Option<Ty>) -> Result<Need, NoMemory>
    ensures { IfOk result (λ made. made ≡ other_element wanted.now first.now) }
{
    match wanted {
        None => needing(first),
        Some(t) => Ok(Need::Needed(t.copy()?)),
    }
}

/// What an index needs behind what has this type: an `Int`, where that is an array.
#[tactic(auto, unfolding(crate::specs::Needs::index_need))]
pub fn index_need(alloc: Global, base: &Option<Ty>) -> Need
    ensures { result ≡ index_need base.now }
{
    match base {
        None => Need::Lost,
        Some(t) => {
            if is_array(t) {
                Need::Needed(bare(alloc, Base::Int))
            } else {
                Need::Lost
            }
        }
    }
}
