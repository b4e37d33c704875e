//! How many numbers of funcs a declaration takes.

ghost use Rattle.std.specs.Prelude.{◌≡◌, ◌++◌, Bool, IfOk, length};
ghost use Rattle.std.specs.List.{flat_map, list_any};
ghost use Rattle.sw_declared.specs.Declarations.{actor_funcs, funcs_in, is_initializer, is_uninitialized, item_funcs, member_funcs, struct_funcs};
ghost use Rattle.sw_facts.specs.Numbers.{any_owner};

use crate::numbers::after;
use sw_base::NoMemory;
use sw_tree::{Decl, EnumItem, Member};

fn is_initializer(x: &Member) -> bool
    ensures { result ≡ is_initializer x.now }
{
    match x {
        Member::Initializer(_) => true,
        _ => false,
    }
}

/// Tells whether one of the members is an initialiser.
pub(crate) fn has_initializer(members: &[Member]) -> bool
    ensures { result ≡ list_any is_initializer members.now }
{
    members.iter().any(|x| is_initializer(x))
}

/// Tells whether it is a stored property without an initial value.
fn is_uninitialized(x: &Member) -> bool
    ensures { result ≡ is_uninitialized x.now }
{
    match x {
        Member::Stored(x) => x.initial.is_none(),
        _ => false,
    }
}

/// Tells whether one of the members is a stored property without an initial value.
pub(crate) fn has_uninitialized(members: &[Member]) -> bool
    ensures { result ≡ list_any is_uninitialized members.now }
{
    members.iter().any(|x| is_uninitialized(x))
}

/// One for a func, a getter or an initialiser, and none for what else a member may be.
pub(crate) fn count_member(x: &Member) -> u32
    ensures { result ≡ length (member_funcs any_owner x.now) }
{
    match x {
        Member::Stored(_) => 0,
        Member::Computed(_) => 1,
        Member::Func(_) => 1,
        Member::Initializer(_) => 1,
        Member::Typealias(_) => 0,
    }
}

/// The same for an item of an enum.
pub(crate) fn count_item(x: &EnumItem) -> u32
    ensures { result ≡ length (item_funcs any_owner x.now) }
{
    match x {
        EnumItem::Cases(_) => 0,
        EnumItem::Member(x) => count_member(x),
    }
}

fn count_members(members: &[Member]) -> Result<u32, NoMemory>
    ensures { IfOk result (λ n. n ≡ length (flat_map (member_funcs any_owner) members.now)) }
{
    let mut n: u32 = 0;
    for x in members {
        n = after(n, count_member(x))?;
    }
    Ok(n)
}

fn count_items(items: &[EnumItem]) -> Result<u32, NoMemory>
    ensures { IfOk result (λ n. n ≡ length (flat_map (item_funcs any_owner) items.now)) }
{
    let mut n: u32 = 0;
    for x in items {
        n = after(n, count_item(x))?;
    }
    Ok(n)
}

/// One for a struct that has an initialiser without writing it.
fn count_of_struct(members: &[Member]) -> u32
    ensures { result ≡ length (struct_funcs any_owner members.now) }
{
    if has_initializer(members) { 0 } else { 1 }
}

/// One for an actor that has an initialiser without writing it.
fn count_of_actor(members: &[Member]) -> u32
    ensures { (distributed : Bool) → result ≡ length (actor_funcs any_owner distributed members.now) }
{
    if has_initializer(members) || has_uninitialized(members) {
        0
    } else {
        1
    }
}

/// How many numbers the members of a struct take.
#[tactic(auto, using(crate::proofs::Lists::length_both))]
fn count_in_struct(members: &[Member]) -> Result<u32, NoMemory>
    ensures { IfOk result (λ n. n ≡ length (struct_funcs any_owner members.now ++ flat_map (member_funcs any_owner) members.now)) }
{
    let written = count_members(members)?;
    let count = after(count_of_struct(members), written)?;
    Ok(count)
}

/// How many numbers the members of an actor take.
#[tactic(auto, using(crate::proofs::Lists::length_both))]
fn count_in_actor(members: &[Member]) -> Result<u32, NoMemory>
    ensures { (distributed : Bool) → IfOk result (λ n. n ≡ length (actor_funcs any_owner distributed members.now ++ flat_map (member_funcs any_owner) members.now)) }
{
    let written = count_members(members)?;
    let count = after(count_of_actor(members), written)?;
    Ok(count)
}

/// How many numbers a declaration takes. The only error is want of numbers.
pub(crate) fn count_funcs(decl: &Decl) -> Result<u32, NoMemory>
    ensures { IfOk result (λ n. n ≡ length (funcs_in any_owner decl.now)) }
{
    match decl {
        Decl::Struct(_, members) => count_in_struct(members.as_slice()),
        Decl::Enum(_, items) => count_items(items.as_slice()),
        Decl::Actor(_, members) => count_in_actor(members.as_slice()),
        Decl::Func(_) => Ok(1),
        _ => Ok(0),
    }
}
