//! Which operators have a meaning for which types, and the type that they give.

ghost use Rattle.std.specs.Prelude.{◌≡◌, ◌&&◌, is_some, IfOk};
ghost use Rattle.sw_typing.specs.Types.{bare, same_type};
ghost use Rattle.sw_typing.specs.Operators.{given_if, both_are, is_ordered, is_added, coalesced, operator_type, is_equality, is_meaningless, is_incomparable, type_of_both, operation_type, coalescing_of, sign_type, is_meaningless_sign, signed_type};

use crate::facts::Facts;
use crate::known::is_equatable;
use crate::types::{bare, is_array, is_bare, makes_type, same_type};
use std::alloc::Global;
use sw_base::{Duplicate, NoMemory};
use sw_tree::{BinaryOperator, PrefixOperator};
use sw_typed::Coalescing;
use sw_value::{Base, Mark, Ty};

// ---- which operators have a meaning

#[tactic(auto, unfolding(crate::specs::Operators::both_are))]
fn both_are(base: Base, a: &Ty, b: &Ty) -> bool
    ensures { result ≡ both_are (bare base) a.now b.now }
{
    is_bare(a, base) && is_bare(b, base)
}

#[tactic(auto, unfolding(crate::specs::Operators::is_ordered))]
fn is_ordered(t: &Ty) -> bool
    ensures { result ≡ is_ordered t.now }
{
    is_bare(t, Base::Int) || is_bare(t, Base::Str)
}

fn are_ordered(a: &Ty, b: &Ty) -> bool
    ensures { result ≡ (same_type a.now b.now && is_ordered a.now) }
{
    same_type(a, b) && is_ordered(a)
}

#[tactic(auto, unfolding(crate::specs::Operators::is_added))]
fn is_added(t: &Ty) -> bool
    ensures { result ≡ is_added t.now }
{
    is_ordered(t) || is_array(t)
}

fn are_added(a: &Ty, b: &Ty) -> bool
    ensures { result ≡ (same_type a.now b.now && is_added a.now) }
{
    same_type(a, b) && is_added(a)
}

#[tactic(auto, unfolding(crate::specs::Operators::coalesced, crate::specs::Types::wrapped))]
fn coalesces(a: &Ty, b: &Ty) -> bool
    ensures { result ≡ is_some (coalesced a.now b.now) }
{
    match a.marks.as_slice() {
        [Mark::Optional, rest @ ..] => makes_type(rest, a.base, b) || same_type(a, b),
        _ => false,
    }
}

#[tactic(auto, unfolding(crate::specs::Operators::operator_type))]
fn has_meaning(operator: BinaryOperator, a: &Ty, b: &Ty) -> bool
    ensures { result ≡ is_some (operator_type operator a.now b.now) }
{
    match operator {
        BinaryOperator::Or | BinaryOperator::And => both_are(Base::Bool, a, b),
        BinaryOperator::Equal | BinaryOperator::NotEqual => same_type(a, b),
        BinaryOperator::Less
        | BinaryOperator::LessEqual
        | BinaryOperator::Greater
        | BinaryOperator::GreaterEqual => are_ordered(a, b),
        BinaryOperator::Coalesce => coalesces(a, b),
        BinaryOperator::Add => are_added(a, b),
        BinaryOperator::Subtract
        | BinaryOperator::Multiply
        | BinaryOperator::Divide
        | BinaryOperator::Remainder => both_are(Base::Int, a, b),
    }
}

/// The type that an operator gives, if it has a meaning for operands of these types.
#[tactic(auto, unfolding(crate::specs::Operators::operator_type, crate::specs::Operators::coalesced))]
fn given(alloc: Global, operator: BinaryOperator, a: &Ty, b: &Ty) -> Result<Ty, NoMemory>
    ensures { IfOk result (λ t. operator_type operator a.now b.now ≡ given_if (is_some (operator_type operator a.now b.now)) t) }
{
    match operator {
        BinaryOperator::Or
        | BinaryOperator::And
        | BinaryOperator::Equal
        | BinaryOperator::NotEqual
        | BinaryOperator::Less
        | BinaryOperator::LessEqual
        | BinaryOperator::Greater
        | BinaryOperator::GreaterEqual => Ok(bare(alloc, Base::Bool)),
        BinaryOperator::Coalesce => b.copy(),
        BinaryOperator::Add => a.copy(),
        BinaryOperator::Subtract
        | BinaryOperator::Multiply
        | BinaryOperator::Divide
        | BinaryOperator::Remainder => Ok(bare(alloc, Base::Int)),
    }
}

/// The type that an operator gives for operands of these types, where it has a meaning for them.
///
/// # Errors
/// [`NoMemory`] where there is no memory for the type.
pub fn operator_type(
    alloc: Global,
    operator: BinaryOperator,
    a: &Ty,
    b: &Ty,
) -> Result<Option<Ty>, NoMemory>
    ensures { IfOk result (λ made. made ≡ operator_type operator a.now b.now) }
{
    if has_meaning(operator, a, b) {
        Ok(Some(given(alloc, operator, a, b)?))
    } else {
        Ok(None)
    }
}

// ---- operations whose operands may have no type

/// Tells whether both operands have a type, and the operator has no meaning for these: E4.
#[tactic(auto, unfolding(crate::specs::Operators::is_meaningless))]
pub fn is_meaningless(operator: BinaryOperator, a: &Option<Ty>, b: &Option<Ty>) -> bool
    ensures { result ≡ is_meaningless operator a.now b.now }
{
    match (a, b) {
        (Some(a), Some(b)) => !has_meaning(operator, a, b),
        _ => false,
    }
}

#[tactic(auto, unfolding(crate::specs::Operators::is_equality))]
fn is_equality(operator: BinaryOperator) -> bool
    ensures { result ≡ is_equality operator }
{
    match operator {
        BinaryOperator::Equal | BinaryOperator::NotEqual => true,
        _ => false,
    }
}

/// Tells whether `==` or `!=` compares values of one type that cannot be compared: E9.
#[tactic(auto, unfolding(crate::specs::Operators::is_incomparable))]
pub fn is_incomparable(
    known: &Facts,
    operator: BinaryOperator,
    a: &Option<Ty>,
    b: &Option<Ty>,
) -> bool
    ensures { result ≡ is_incomparable known.now operator a.now b.now }
{
    match (a, b) {
        (Some(a), Some(b)) => {
            is_equality(operator) && (same_type(a, b) && !is_equatable(known, a))
        }
        _ => false,
    }
}

#[tactic(auto, unfolding(crate::specs::Operators::type_of_both))]
fn type_of_both(
    alloc: Global,
    operator: BinaryOperator,
    a: &Option<Ty>,
    b: &Option<Ty>,
) -> Result<Option<Ty>, NoMemory>
    ensures { IfOk result (λ made. made ≡ type_of_both operator a.now b.now) }
{
    match (a, b) {
        (Some(a), Some(b)) => operator_type(alloc, operator, a, b),
        _ => Ok(None),
    }
}

/// The type of an operation; none where an operand has none, or where E4 or E9 is broken.
///
/// # Errors
/// [`NoMemory`] where there is no memory for the type.
#[tactic(auto, unfolding(crate::specs::Operators::operation_type))]
pub fn operation_type(
    alloc: Global,
    known: &Facts,
    operator: BinaryOperator,
    a: &Option<Ty>,
    b: &Option<Ty>,
) -> Result<Option<Ty>, NoMemory>
    ensures { IfOk result (λ made. made ≡ operation_type known.now operator a.now b.now) }
{
    if is_incomparable(known, operator, a, b) {
        Ok(None)
    } else {
        type_of_both(alloc, operator, a, b)
    }
}

/// What `??` gives: an optional where both operands have one type.
#[tactic(auto, unfolding(crate::specs::Operators::coalescing_of))]
pub fn coalescing_of(a: &Option<Ty>, b: &Option<Ty>) -> Coalescing
    ensures { result ≡ coalescing_of a.now b.now }
{
    match (a, b) {
        (Some(a), Some(b)) => {
            if same_type(a, b) {
                Coalescing::Optional
            } else {
                Coalescing::Value
            }
        }
        _ => Coalescing::Value,
    }
}

// ---- signs

#[tactic(auto, unfolding(crate::specs::Operators::sign_type))]
fn takes_sign(operator: PrefixOperator, t: &Ty) -> bool
    ensures { result ≡ same_type t.now (sign_type operator) }
{
    match operator {
        PrefixOperator::Minus => is_bare(t, Base::Int),
        PrefixOperator::Not => is_bare(t, Base::Bool),
    }
}

/// Tells whether the operand of a sign has a type, and the sign has no meaning for it: E4.
#[tactic(auto, unfolding(crate::specs::Operators::is_meaningless_sign))]
pub fn is_meaningless_sign(operator: PrefixOperator, ty: &Option<Ty>) -> bool
    ensures { result ≡ is_meaningless_sign operator ty.now }
{
    match ty {
        None => false,
        Some(t) => !takes_sign(operator, t),
    }
}

/// The type of what has a sign; none where the operand has none, or where the sign has no meaning for it.
///
/// # Errors
/// [`NoMemory`] where there is no memory for the type.
#[tactic(auto, unfolding(crate::specs::Operators::signed_type))]
pub fn signed_type(operator: PrefixOperator, ty: &Option<Ty>) -> Result<Option<Ty>, NoMemory>
    ensures { IfOk result (λ made. made ≡ signed_type operator ty.now) }
{
    match ty {
        None => Ok(None),
        Some(t) => {
            if takes_sign(operator, t) {
                Ok(Some(t.copy()?))
            } else {
                Ok(None)
            }
        }
    }
}
