//! Types: when two are the same, and what stands under their marks.

ghost use Rattle.std.specs.Prelude.{◌≡◌, ◌∷◌, is_some, IfOk};
ghost use Rattle.sw_typing.specs.Types.{ty, bare, optional, array, same_mark, same_marks, same_base, same_type, wrapped, element, past_optionals, stripped};

use std::alloc::Global;
use sw_base::{Items, NoMemory};
use sw_value::{Base, Mark, Ty};

/// The most marks that `optional` and `array` give a type, so that its values are of bounded depth.
pub const MOST_MARKS: usize = 100;

#[tactic(auto, unfolding(crate::specs::Types::same_mark))]
fn same_mark(a: Mark, b: Mark) -> bool
    ensures { result ≡ same_mark a b }
{
    match (a, b) {
        (Mark::Array, Mark::Array) => true,
        (Mark::Optional, Mark::Optional) => true,
        _ => false,
    }
}

#[tactic(auto, unfolding(crate::specs::Types::same_marks))]
fn same_marks(a: &[Mark], b: &[Mark]) -> bool
    ensures { result ≡ same_marks a.now b.now }
{
    match a {
        [] => match b {
            [] => true,
            [_, ..] => false,
        },
        [first, rest @ ..] => match b {
            [] => false,
            [other_first, other_rest @ ..] => {
                same_mark(*first, *other_first) && same_marks(rest, other_rest)
            }
        },
    }
}

#[tactic(auto, unfolding(crate::specs::Types::same_base))]
fn same_base(a: Base, b: Base) -> bool
    ensures { result ≡ same_base a b }
{
    match (a, b) {
        (Base::Int, Base::Int) => true,
        (Base::Bool, Base::Bool) => true,
        (Base::Str, Base::Str) => true,
        (Base::Void, Base::Void) => true,
        (Base::Id, Base::Id) => true,
        (Base::System, Base::System) => true,
        (Base::AnyError, Base::AnyError) => true,
        (Base::Struct(a), Base::Struct(b)) => a.0 == b.0,
        (Base::Enum(a), Base::Enum(b)) => a.0 == b.0,
        (Base::Plain(a), Base::Plain(b)) => a.0 == b.0,
        (Base::Distributed(a), Base::Distributed(b)) => a.0 == b.0,
        (Base::Any(a), Base::Any(b)) => a.0 == b.0,
        _ => false,
    }
}

/// Tells whether a type has these marks round this base.
#[tactic(auto, unfolding(crate::specs::Types::same_type))]
pub(crate) fn is_type(t: &Ty, marks: &[Mark], base: Base) -> bool
    ensures { result ≡ same_type t.now (ty marks.now base) }
{
    same_base(t.base, base) && same_marks(t.marks.as_slice(), marks)
}

/// Tells whether these marks round this base are a type.
#[tactic(auto, unfolding(crate::specs::Types::same_type))]
pub(crate) fn makes_type(marks: &[Mark], base: Base, t: &Ty) -> bool
    ensures { result ≡ same_type (ty marks.now base) t.now }
{
    same_base(base, t.base) && same_marks(marks, t.marks.as_slice())
}

/// Tells whether a type is this base, with no mark round it.
pub(crate) fn is_bare(t: &Ty, base: Base) -> bool
    ensures { result ≡ same_type t.now (bare base) }
{
    is_type(t, &[], base)
}

/// Tells whether two types are the same.
#[tactic(auto, unfolding(crate::specs::Types::same_type))]
pub fn same_type(a: &Ty, b: &Ty) -> bool
    ensures { result ≡ same_type a.now b.now }
{
    is_type(a, b.marks.as_slice(), b.base)
}

/// These marks round this base.
pub(crate) fn with_marks(alloc: Global, marks: &[Mark], base: Base) -> Result<Ty, NoMemory>
    ensures { IfOk result (λ t. t ≡ ty marks.now base) }
{
    let mut copied = Items::new(alloc);
    for mark in marks {
        copied.push(*mark)?;
    }
    Ok(Ty {
        marks: copied,
        base,
    })
}

/// The type that no mark surrounds.
pub fn bare(alloc: Global, base: Base) -> Ty
    ensures { result ≡ bare base }
{
    Ty {
        marks: Items::new(alloc),
        base,
    }
}

fn marked(alloc: Global, mark: Mark, t: &Ty) -> Result<Ty, NoMemory>
    ensures { IfOk result (λ made. made ≡ ty (mark ∷ t.now.marks) t.now.base) }
{
    if t.marks.len() >= MOST_MARKS {
        return Err(NoMemory);
    }
    let mut copied = Items::new(alloc);
    copied.push(mark)?;
    for mark in t.marks.as_slice() {
        copied.push(*mark)?;
    }
    Ok(Ty {
        marks: copied,
        base: t.base,
    })
}

/// The optional of a type.
///
/// # Errors
/// [`NoMemory`] where there is no memory, and for a type of [`MOST_MARKS`] marks: no type has more.
pub fn optional(alloc: Global, t: &Ty) -> Result<Ty, NoMemory>
    ensures { IfOk result (λ made. made ≡ optional t.now) }
{
    marked(alloc, Mark::Optional, t)
}

/// The array of a type.
///
/// # Errors
/// [`NoMemory`] where there is no memory, and for a type of [`MOST_MARKS`] marks: no type has more.
pub fn array(alloc: Global, t: &Ty) -> Result<Ty, NoMemory>
    ensures { IfOk result (λ made. made ≡ array t.now) }
{
    marked(alloc, Mark::Array, t)
}

/// What an optional wraps; none of a type that is no optional.
///
/// # Errors
/// [`NoMemory`] where there is no memory for the type.
#[tactic(auto, unfolding(crate::specs::Types::wrapped))]
pub fn wrapped(alloc: Global, t: &Ty) -> Result<Option<Ty>, NoMemory>
    ensures { IfOk result (λ made. made ≡ wrapped t.now) }
{
    match t.marks.as_slice() {
        [Mark::Optional, rest @ ..] => Ok(Some(with_marks(alloc, rest, t.base)?)),
        _ => Ok(None),
    }
}

/// The element of an array; none of a type that is no array.
///
/// # Errors
/// [`NoMemory`] where there is no memory for the type.
#[tactic(auto, unfolding(crate::specs::Types::element))]
pub fn element(alloc: Global, t: &Ty) -> Result<Option<Ty>, NoMemory>
    ensures { IfOk result (λ made. made ≡ element t.now) }
{
    match t.marks.as_slice() {
        [Mark::Array, rest @ ..] => Ok(Some(with_marks(alloc, rest, t.base)?)),
        _ => Ok(None),
    }
}

/// Tells whether a type is an optional.
#[tactic(auto, unfolding(crate::specs::Types::wrapped))]
pub fn is_optional(t: &Ty) -> bool
    ensures { result ≡ is_some (wrapped t.now) }
{
    match t.marks.as_slice() {
        [Mark::Optional, ..] => true,
        _ => false,
    }
}

/// Tells whether a type is an array.
#[tactic(auto, unfolding(crate::specs::Types::element))]
pub fn is_array(t: &Ty) -> bool
    ensures { result ≡ is_some (element t.now) }
{
    match t.marks.as_slice() {
        [Mark::Array, ..] => true,
        _ => false,
    }
}

/// The marks from the first that is no `?` on.
pub(crate) fn past_optionals(marks: &[Mark]) -> &[Mark]
    ensures { result.now ≡ past_optionals marks.now }
{
    match marks {
        [Mark::Optional, rest @ ..] => past_optionals(rest),
        _ => marks,
    }
}

/// A type without the `?` outside.
///
/// # Errors
/// [`NoMemory`] where there is no memory for the type.
#[tactic(auto, unfolding(crate::specs::Types::stripped))]
pub fn stripped(alloc: Global, t: &Ty) -> Result<Ty, NoMemory>
    ensures { IfOk result (λ made. made ≡ stripped t.now) }
{
    with_marks(alloc, past_optionals(t.marks.as_slice()), t.base)
}
