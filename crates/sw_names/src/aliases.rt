//! Aliases and imports: N5 and N6.

ghost use Rattle.std.specs.Prelude.{◌≡◌, ◌++◌};
ghost use Rattle.std.specs.List.{flat_map};
ghost use Rattle.sw_findings.specs.Found.{keep_all};
ghost use Rattle.sw_sight.specs.InSight.{same};
ghost use Rattle.sw_names.specs.Pass.{alias_breaks, aliases_break, import_breaks, is_module, item_breaks, member_breaks};

use crate::words::{is_distributed, is_node_system};
use sw_findings::Findings;
use sw_rules::Rule;
use sw_tree::{Decl, EnumItem, Member, Typealias};

/// Tells whether two texts are the same.
#[tactic(auto, unfolding(sw_sight::specs::InSight::same))]
fn same(a: &[u8], b: &[u8]) -> bool
    ensures { result ≡ same a.now b.now }
{
    a == b
}

/// N5 at an alias, which may stand there with this name if at all.
fn report_alias(found: &mut Findings, may_stand: bool, name: &[u8], x: &Typealias)
    ensures { found.new ≡ keep_all found.old (alias_breaks may_stand name.now x.now) }
{
    let stands = may_stand && (same(name, x.name.text.as_bytes()) && is_node_system(&x.target));
    found.report(!stands, Rule::N5, x.span);
}

/// N5 at a member of a type, which is a distributed actor or not.
#[tactic(auto, using(crate::proofs::Findings::keep_none))]
fn report_member(found: &mut Findings, distributed: bool, member: &Member)
    ensures { found.new ≡ keep_all found.old (member_breaks distributed member.now) }
{
    match member {
        Member::Typealias(x) => report_alias(found, distributed, b"ActorSystem", x),
        Member::Stored(_) => {}
        Member::Computed(_) => {}
        Member::Func(_) => {}
        Member::Initializer(_) => {}
    }
}

/// N5 at the members of a type, which is a distributed actor or not.
fn report_members(found: &mut Findings, distributed: bool, members: &[Member])
    ensures { found.new ≡ keep_all found.old (flat_map (member_breaks distributed) members.now) }
{
    for member in members {
        report_member(found, distributed, member);
    }
}

/// N5 at an item of an enum.
#[tactic(auto, using(crate::proofs::Findings::keep_none))]
fn report_item(found: &mut Findings, item: &EnumItem)
    ensures { found.new ≡ keep_all found.old (item_breaks item.now) }
{
    match item {
        EnumItem::Cases(_) => {}
        EnumItem::Member(member) => report_member(found, false, member),
    }
}

/// N5 at the items of an enum.
fn report_items(found: &mut Findings, items: &[EnumItem])
    ensures { found.new ≡ keep_all found.old (flat_map item_breaks items.now) }
{
    for item in items {
        report_item(found, item);
    }
}

/// N5 at a declaration that is an alias, or at the aliases in it.
#[tactic(auto, using(crate::proofs::Findings::keep_none))]
fn report_aliases(found: &mut Findings, decl: &Decl)
    ensures { found.new ≡ keep_all found.old (aliases_break decl.now) }
{
    match decl {
        Decl::Typealias(x) => {
            report_alias(found, true, b"DefaultDistributedActorSystem", x);
        }
        Decl::Struct(_, members) => report_members(found, false, members.as_slice()),
        Decl::Enum(_, items) => report_items(found, items.as_slice()),
        Decl::Actor(heading, members) => {
            report_members(found, is_distributed(heading), members.as_slice());
        }
        Decl::Import(_, _) => {}
        Decl::Protocol(_, _) => {}
        Decl::Func(_) => {}
    }
}

/// Tells whether an import may name the module.
fn is_module(name: &[u8]) -> bool
    ensures { result ≡ is_module name.now }
{
    same(b"Distributed", name) || (same(b"Swift", name) || same(b"_Concurrency", name))
}

/// N6 at a declaration that is an import.
#[tactic(auto, using(crate::proofs::Findings::keep_none))]
fn report_import(found: &mut Findings, decl: &Decl)
    ensures { found.new ≡ keep_all found.old (import_breaks decl.now) }
{
    match decl {
        Decl::Import(at, name) => found.report(!is_module(name.text.as_bytes()), Rule::N6, *at),
        Decl::Typealias(_) => {}
        Decl::Struct(_, _) => {}
        Decl::Enum(_, _) => {}
        Decl::Protocol(_, _) => {}
        Decl::Actor(_, _) => {}
        Decl::Func(_) => {}
    }
}

/// N5 and N6 at a declaration, or at the aliases in it.
#[tactic(auto, using(crate::proofs::Findings::keep_append))]
pub(crate) fn report_aliases_and_imports(found: &mut Findings, decl: &Decl)
    ensures { found.new ≡ keep_all found.old (aliases_break decl.now ++ import_breaks decl.now) }
{
    report_aliases(found, decl);
    report_import(found, decl);
}
