//! Numbers by name that tell of the items of a table.

ghost use Rattle.std.specs.Prelude.{◌≡◌, ◌||◌, ◌&&◌, List, ℕ, true, codes, cond, nat_eq, nat_lt, OnOk};
ghost use Rattle.sw_sight.specs.InSight.{same};
ghost use Rattle.sw_sight.specs.Levels.{level, IsKnown};
ghost use Rattle.sw_declared.specs.Ranks.{actor_rank, alias_rank, func_rank, id_rank, plain_rank, static_rank, type_id_rank, type_rank};

use crate::names::{Form, FuncKind, Inner, Member, MemberKind};
use crate::words::same;
use sw_base::NoMemory;
use sw_sight::Levels;

/// Sees to it that a number is kept for the name, where the rank is not 0. What is told stays.
pub(crate) fn prepare(levels: &mut Levels, name: &[u8], rank: usize) -> Result<(), NoMemory>
    ensures known { OnOk result (nat_lt 0 rank ≡ true → IsKnown name.now levels.new) }
    ensures levels { (x : List ℕ) → level x levels.new ≡ level x levels.old }
{
    if rank == 0 {
        return Ok(());
    }
    levels.add(name)
}

/// Raises the number of a name to the rank, where it is less.
pub(crate) fn raise(levels: &mut Levels, name: &[u8], rank: usize)
    ensures levels { (nat_lt 0 rank ≡ true → IsKnown name.now levels.old) → (x : List ℕ) (n : ℕ) → nat_lt n (level x levels.new) ≡ (nat_lt n (level x levels.old) || (same x name.now && nat_lt n rank)) }
    ensures keeps { (x : List ℕ) → IsKnown x levels.old → IsKnown x levels.new }
{
    if levels.get(name) < rank {
        levels.set(name, rank);
    }
}

/// Keeps the number for the name, where none is kept.
pub(crate) fn keep_first(levels: &mut Levels, name: &[u8], number: usize)
    ensures { IsKnown name.now levels.old → (x : List ℕ) → level x levels.new ≡ cond (same x name.now && nat_eq (level x levels.old) 0) number (level x levels.old) }
{
    if levels.get(name) == 0 {
        levels.set(name, number);
    }
}

/// Tells whether the type `ID` is meant, and may stand there by the rank.
pub(crate) fn is_id(by_id: usize, inner: &[u8]) -> bool
    ensures { result ≡ (same (codes "ID") inner.now && nat_lt 0 by_id) }
{
    same(b"ID", inner) && by_id > 0
}

/// Tells whether the type that is meant may stand after an alias, where `ID` may, or `ActorID`.
pub(crate) fn is_inner(by_id: bool, by_actor_id: bool, inner: &[u8]) -> bool
    ensures { result ≡ ((same (codes "ID") inner.now && by_id) || (same (codes "ActorID") inner.now && by_actor_id)) }
{
    (same(b"ID", inner) && by_id) || (same(b"ActorID", inner) && by_actor_id)
}

#[tactic(auto, unfolding(crate::specs::Ranks::static_rank))]
pub(crate) fn static_rank(is_static: bool) -> usize
    ensures { result ≡ static_rank is_static }
{
    if is_static { 2 } else { 1 }
}

#[tactic(auto, unfolding(crate::specs::Ranks::alias_rank))]
pub(crate) fn alias_rank(inner: Inner) -> usize
    ensures { result ≡ alias_rank inner }
{
    match inner {
        Inner::Nothing => 1,
        Inner::Id => 1,
        Inner::ActorId => 2,
    }
}

#[tactic(auto, unfolding(crate::specs::Ranks::id_rank))]
pub(crate) fn id_rank(inner: Inner) -> usize
    ensures { result ≡ id_rank inner }
{
    match inner {
        Inner::Nothing => 0,
        Inner::Id => 1,
        Inner::ActorId => 0,
    }
}

#[tactic(auto, unfolding(crate::specs::Ranks::type_rank))]
pub(crate) fn type_rank(kind: MemberKind) -> usize
    ensures { result ≡ type_rank kind }
{
    match kind {
        MemberKind::Alias(inner) => alias_rank(inner),
        _ => 0,
    }
}

#[tactic(auto, unfolding(crate::specs::Ranks::type_id_rank))]
pub(crate) fn type_id_rank(kind: MemberKind) -> usize
    ensures { result ≡ type_id_rank kind }
{
    match kind {
        MemberKind::Alias(inner) => id_rank(inner),
        _ => 0,
    }
}

#[tactic(auto, unfolding(crate::specs::Ranks::plain_rank))]
pub(crate) fn plain_rank(member: &Member) -> usize
    ensures { result ≡ plain_rank member.now.labels member.now.is_static }
{
    match &member.labels {
        None => static_rank(member.is_static),
        Some(_) => 0,
    }
}

#[tactic(auto, unfolding(crate::specs::Ranks::actor_rank))]
pub(crate) fn actor_rank(form: Form) -> usize
    ensures { result ≡ actor_rank form }
{
    match form {
        Form::DistributedActor => 1,
        _ => 0,
    }
}

#[tactic(auto, unfolding(crate::specs::Ranks::func_rank))]
pub(crate) fn func_rank(kind: FuncKind) -> usize
    ensures { result ≡ func_rank kind }
{
    match kind {
        FuncKind::TopLevel => 1,
        _ => 0,
    }
}
