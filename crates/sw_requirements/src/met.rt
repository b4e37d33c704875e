//! Whether a requirement is met.

ghost use Rattle.std.specs.Prelude.{◌≡◌, true, [], unwrap_or};
ghost use Rattle.std.specs.List.{list_any};
ghost use Rattle.std.specs.Option.{option_copied};
ghost use Rattle.sw_requirements.specs.Met.{is_met, is_property, is_required, meets, only_where, same_truth};

use crate::lists::{same, same_labels, same_type, same_types};
use crate::signatures::Funcs;
use std::alloc::Global;
use sw_base::Text;
use sw_members::{Declaration, Declarations, Side};
use sw_type_table::{Requirement, Signature};
use sw_typed::Entity;
use sw_value::Ty;

fn same_truth(a: bool, b: bool) -> bool
    ensures { result ≡ same_truth a b }
{
    if a { b } else { !b }
}

/// Tells whether what may be so, or may not, is so only where it may.
fn only_where(may: bool, is: bool) -> bool
    ensures { result ≡ only_where may is }
{
    may || !is
}

/// Tells whether a func meets what is required.
fn meets(func: &Signature, required: &Signature) -> bool
    ensures { result ≡ meets func.now required.now }
{
    same(func.name.as_bytes(), required.name.as_bytes())
        && (same_labels(func.labels.as_slice(), required.labels.as_slice())
            && (same_types(func.types.as_slice(), required.types.as_slice())
                && (same_type(&func.result, &required.result)
                    && (same_truth(func.is_static, required.is_static)
                        && (only_where(required.throws, func.throws)
                            && (only_where(required.is_async, func.is_async)
                                && only_where(required.is_mutating, func.is_mutating)))))))
}

/// Tells whether the func that is found by its name and labels meets what is required.
fn first_meets(alloc: Global, funcs: &Funcs, required: &Signature) -> bool
    ensures { result ≡ true → list_any (λ func. meets func required.now) funcs.now.list ≡ true }
{
    match funcs.list.get(funcs.place_of(alloc, required)) {
        Some(func) => meets(func, required),
        None => false,
    }
}

fn any_meets(funcs: &[Signature], required: &Signature) -> bool
    ensures { result ≡ list_any (λ func. meets func required.now) funcs.now }
{
    funcs.iter().any(|func| meets(func, required))
}

/// Tells whether a func meets what is required. All are looked through only where the one that is found does not.
fn is_func_met(alloc: Global, funcs: &Funcs, required: &Signature) -> bool
    ensures { result ≡ list_any (λ func. meets func required.now) funcs.now.list }
{
    first_meets(alloc, funcs, required) || any_meets(funcs.list.as_slice(), required)
}

/// Tells whether what a name names is a property, stored or computed.
fn is_property(entity: Entity) -> bool
    ensures { result ≡ is_property entity }
{
    match entity {
        Entity::Getter(_) => true,
        Entity::Stored(_, _, _) => true,
        Entity::Func(_) => false,
        Entity::Initializer(_) => false,
        Entity::Case(_, _) => false,
        Entity::Requirement(_, _) => false,
        Entity::BuiltIn(_) => false,
    }
}

/// Tells whether a member is a property of this name and type, which is not static.
fn is_required(name: &Text, t: &Option<Ty>, member: &Declaration) -> bool
    ensures { result ≡ is_required name.now t.now member.now }
{
    is_property(member.entity)
        && (!member.is_static
            && (same(member.name.as_bytes(), name.as_bytes()) && same_type(&member.gives, t)))
}

/// Tells whether the member that is found by its name is such a property.
fn first_is_required(members: &Declarations, name: &Text, t: &Option<Ty>) -> bool
    ensures { result ≡ true → list_any (is_required name.now t.now) members.now ≡ true }
{
    match members.value_named(Side::Instance, name.as_bytes()) {
        Some(member) => is_required(name, t, member),
        None => false,
    }
}

fn any_is_required(members: &[Declaration], name: &Text, t: &Option<Ty>) -> bool
    ensures { result ≡ list_any (is_required name.now t.now) members.now }
{
    members.iter().any(|member| is_required(name, t, member))
}

/// Tells whether a member is such a property. All are looked through only where the one that is found is not.
fn is_property_met(members: Option<&Declarations>, name: &Text, t: &Option<Ty>) -> bool
    ensures { result ≡ list_any (is_required name.now t.now) (unwrap_or (option_copied members.entry) []) }
{
    match members {
        Some(members) => {
            first_is_required(members, name, t) || any_is_required(members.as_slice(), name, t)
        }
        None => false,
    }
}

/// Tells whether one of these funcs, or one of the members, meets a requirement.
pub(crate) fn is_met(
    alloc: Global,
    funcs: &Funcs,
    members: Option<&Declarations>,
    required: &Requirement,
) -> bool
    ensures { result ≡ is_met funcs.now.list (unwrap_or (option_copied members.entry) []) required.now }
{
    match required {
        Requirement::Func(required) => is_func_met(alloc, funcs, required),
        Requirement::Property(name, t) => is_property_met(members, name, t),
    }
}
