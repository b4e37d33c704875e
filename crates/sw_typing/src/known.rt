//! What is known of types: their members, what they conform to, which values can be compared and printed.

ghost use Rattle.std.specs.Prelude.{◌≡◌, [], unwrap_or};
ghost use Rattle.std.specs.Option.{option_copied};
ghost use Rattle.sw_typing.specs.Facts.{facts_of, has, members_of, base_members, members, is_listed, conforms_base, conforms, is_equatable_base, is_equatable_marked, is_equatable, is_printable_base, is_printable};

use crate::facts::{Facts, TypeFacts};
use sw_base::{Items, TypeNo};
use sw_members::Declarations;
use sw_value::{Base, Mark, Ty};

fn facts_of(known: &Facts, number: TypeNo) -> Option<&TypeFacts>
    ensures { option_copied result ≡ facts_of known.now number }
{
    known.types.get(number.0 as usize)
}

// ---- members

#[tactic(auto, unfolding(crate::specs::Facts::members_of))]
fn members_of(known: &Facts, number: TypeNo) -> Option<&Declarations>
    ensures { unwrap_or (option_copied result) [] ≡ members_of (facts_of known.now number) }
{
    match facts_of(known, number) {
        Some(facts) => Some(&facts.members),
        None => None,
    }
}

#[tactic(auto, unfolding(crate::specs::Facts::base_members))]
pub fn base_members(known: &Facts, base: Base) -> Option<&Declarations>
    ensures { unwrap_or (option_copied result) [] ≡ base_members known.now base }
{
    match base {
        Base::Int => Some(&known.of_int),
        Base::Str => Some(&known.of_string),
        Base::Id => Some(&known.of_id),
        Base::System => Some(&known.of_system),
        Base::Bool => None,
        Base::Void => None,
        Base::AnyError => None,
        Base::Struct(number) => members_of(known, number),
        Base::Enum(number) => members_of(known, number),
        Base::Plain(number) => members_of(known, number),
        Base::Distributed(number) => members_of(known, number),
        Base::Any(number) => members_of(known, number),
    }
}

/// The members of a type; none where it has none. A value that is `any` of a protocol has what the protocol requires.
#[tactic(auto, unfolding(crate::specs::Facts::members))]
pub fn members<'a>(known: &'a Facts, t: &Ty) -> Option<&'a Declarations>
    ensures { unwrap_or (option_copied result) [] ≡ members known.now t.now }
{
    match t.marks.as_slice() {
        [] => base_members(known, t.base),
        [Mark::Array, ..] => Some(&known.of_array),
        [Mark::Optional, ..] => None,
    }
}

// ---- conformances

fn is_listed(number: TypeNo, numbers: &Items<TypeNo>) -> bool
    ensures { result ≡ is_listed number numbers.now }
{
    numbers.as_slice().iter().any(|listed| listed.0 == number.0)
}

#[tactic(auto, unfolding(crate::specs::Facts::has))]
fn lists(known: &Facts, number: TypeNo, protocol: TypeNo) -> bool
    ensures { result ≡ has (λ facts. is_listed protocol facts.protocols) (facts_of known.now number) }
{
    match facts_of(known, number) {
        Some(facts) => is_listed(protocol, &facts.protocols),
        None => false,
    }
}

#[tactic(auto, unfolding(crate::specs::Facts::has))]
fn is_error(known: &Facts, number: TypeNo) -> bool
    ensures { result ≡ has (λ facts. facts.is_error) (facts_of known.now number) }
{
    match facts_of(known, number) {
        Some(facts) => facts.is_error,
        None => false,
    }
}

#[tactic(auto, unfolding(crate::specs::Facts::conforms_base))]
fn conforms_base(known: &Facts, a: Base, b: Base) -> bool
    ensures { result ≡ conforms_base known.now a b }
{
    match (a, b) {
        (Base::Struct(number), Base::Any(protocol)) => lists(known, number, protocol),
        (Base::Enum(number), Base::Any(protocol)) => lists(known, number, protocol),
        (Base::Enum(number), Base::AnyError) => is_error(known, number),
        _ => false,
    }
}

/// Tells whether a type conforms to what `any` stands before: a struct or an enum to a protocol after its `:`, and an
/// enum of errors to `Error`.
#[tactic(auto, unfolding(crate::specs::Facts::conforms))]
pub fn conforms(known: &Facts, t: &Ty, base: Base) -> bool
    ensures { result ≡ conforms known.now t.now base }
{
    t.marks.as_slice().is_empty() && conforms_base(known, t.base, base)
}

// ---- what can be compared, and what can be printed

#[tactic(auto, unfolding(crate::specs::Facts::has))]
fn has_equality(known: &Facts, number: TypeNo) -> bool
    ensures { result ≡ has (λ facts. facts.is_equatable) (facts_of known.now number) }
{
    match facts_of(known, number) {
        Some(facts) => facts.is_equatable,
        None => false,
    }
}

#[tactic(auto, unfolding(crate::specs::Facts::is_equatable_base))]
fn is_equatable_base(known: &Facts, base: Base) -> bool
    ensures { result ≡ is_equatable_base known.now base }
{
    match base {
        Base::Int => true,
        Base::Bool => true,
        Base::Str => true,
        Base::Id => true,
        Base::Struct(number) => has_equality(known, number),
        Base::Enum(number) => has_equality(known, number),
        _ => false,
    }
}

fn is_equatable_marked(known: &Facts, marks: &[Mark], base: Base) -> bool
    ensures { result ≡ is_equatable_marked known.now marks.now base }
{
    match marks {
        [] => is_equatable_base(known, base),
        [Mark::Optional, rest @ ..] => is_equatable_marked(known, rest, base),
        [Mark::Array, ..] => false,
    }
}

/// Tells whether `==` compares values of a type, as it compares the optionals of what it compares.
#[tactic(auto, unfolding(crate::specs::Facts::is_equatable))]
pub fn is_equatable(known: &Facts, t: &Ty) -> bool
    ensures { result ≡ is_equatable known.now t.now }
{
    is_equatable_marked(known, t.marks.as_slice(), t.base)
}

#[tactic(auto, unfolding(crate::specs::Facts::has))]
fn prints_its_cases(known: &Facts, number: TypeNo) -> bool
    ensures { result ≡ has (λ facts. facts.is_printable) (facts_of known.now number) }
{
    match facts_of(known, number) {
        Some(facts) => facts.is_printable,
        None => false,
    }
}

#[tactic(auto, unfolding(crate::specs::Facts::is_printable_base))]
fn is_printable_base(known: &Facts, base: Base) -> bool
    ensures { result ≡ is_printable_base known.now base }
{
    match base {
        Base::Int => true,
        Base::Bool => true,
        Base::Str => true,
        Base::Enum(number) => prints_its_cases(known, number),
        _ => false,
    }
}

/// Tells whether values of a type can be printed.
#[tactic(auto, unfolding(crate::specs::Facts::is_printable))]
pub fn is_printable(known: &Facts, t: &Ty) -> bool
    ensures { result ≡ is_printable known.now t.now }
{
    t.marks.as_slice().is_empty() && is_printable_base(known, t.base)
}
