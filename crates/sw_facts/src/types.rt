//! What is known of one declared type.

ghost use Rattle.std.specs.Prelude.{◌≡◌, ◌++◌, ◌&&◌, ◌||◌, [], IfOk, OnOk};
ghost use Rattle.std.specs.List.{list_all};
ghost use Rattle.sw_declared.specs.Declarations.{members_in};
ghost use Rattle.sw_type_table.specs.Written.{declared_base};
ghost use Rattle.sw_facts.specs.Known.{has_no_payload, is_enum, is_plain, members_of, type_facts};
ghost use Rattle.sw_facts.specs.Members.{funcs_of, written_funcs};

use crate::built_in::push_of_form;
use crate::funcs::{Home, push_items, push_members};
use crate::parts::{push_cases, push_properties, push_requirements};
use crate::synthesized::push_synthesized;
use std::alloc::Global;
use sw_base::{Duplicate, NoMemory, TypeNo};
use sw_declared::{Form, Members, Names, members_in};
use sw_members::Declarations;
use sw_tree::Decl;
use sw_type_table::{CaseEntry, TypeEntry};
use sw_typing::TypeFacts;
use sw_value::Base;

fn is_enum(form: Form) -> bool
    ensures { result ≡ is_enum form }
{
    match form {
        Form::Enum => true,
        _ => false,
    }
}

fn has_no_payload(x: &CaseEntry) -> bool
    ensures { result ≡ has_no_payload x.now }
{
    x.labels.is_empty()
}

fn has_no_payloads(cases: &[CaseEntry]) -> bool
    ensures { result ≡ list_all has_no_payload cases.now }
{
    cases.iter().all(|x| has_no_payload(x))
}

/// Tells whether it is an enum without payloads.
fn is_plain(entry: &TypeEntry) -> bool
    ensures { result ≡ is_plain entry.now }
{
    is_enum(entry.form) && has_no_payloads(entry.cases.as_slice())
}

/// The type of the values of a declared type; none for a protocol.
fn declared_base(number: TypeNo, form: Form) -> Option<Base>
    ensures { result ≡ declared_base number form }
{
    match form {
        Form::Struct => Some(Base::Struct(number)),
        Form::Enum => Some(Base::Enum(number)),
        Form::Protocol => None,
        Form::Actor => Some(Base::Plain(number)),
        Form::DistributedActor => Some(Base::Distributed(number)),
    }
}

/// Adds the funcs, getters and initialisers that a declaration writes, of which the first has this number.
fn push_written(
    alloc: Global,
    list: &mut Declarations,
    home: &Home<'_>,
    first: u32,
    decl: &Decl,
) -> Result<(), NoMemory>
    ensures { OnOk result (list.new ≡ list.old ++ written_funcs home.now.names.now home.now.gives first decl.now home.now.own.now) }
{
    match decl {
        Decl::Struct(_, members) => push_members(alloc, list, home, first, members.as_slice()),
        Decl::Enum(_, items) => push_items(alloc, list, home, first, items.as_slice()),
        Decl::Actor(_, members) => push_members(alloc, list, home, first, members.as_slice()),
        _ => Ok(()),
    }
}

/// Adds all that takes a number among the funcs, of which the first is this one.
fn push_funcs(
    alloc: Global,
    list: &mut Declarations,
    home: &Home<'_>,
    owner: TypeNo,
    first: u32,
    decl: &Decl,
    entry: &TypeEntry,
) -> Result<(), NoMemory>
    ensures { home.now.gives ≡ declared_base owner entry.now.form → OnOk result (list.new ≡ list.old ++ funcs_of home.now.names.now home.now.own.now owner first decl.now entry.now) }
{
    let next = push_synthesized(alloc, list, home.gives, first, decl, entry)?;
    push_written(alloc, list, home, next, decl)
}

/// Adds the members of a declared type.
fn push_all(
    alloc: Global,
    list: &mut Declarations,
    home: &Home<'_>,
    owner: TypeNo,
    first: u32,
    decl: &Decl,
    entry: &TypeEntry,
) -> Result<(), NoMemory>
    ensures { home.now.gives ≡ declared_base owner entry.now.form → OnOk result (list.new ≡ list.old ++ members_of home.now.names.now home.now.own.now owner first decl.now entry.now) }
{
    push_properties(alloc, list, owner, entry.properties.as_slice())?;
    push_cases(alloc, list, owner, entry.cases.as_slice())?;
    push_requirements(alloc, list, owner, entry.requirements.as_slice())?;
    push_funcs(alloc, list, home, owner, first, decl, entry)?;
    push_of_form(alloc, list, owner, entry.form)
}

/// What is known of a type but for its members.
fn without_members(alloc: Global, entry: &TypeEntry) -> Result<TypeFacts, NoMemory>
    ensures { IfOk result (λ facts. facts ≡ record { members = []; protocols = entry.now.protocols; is_error = is_enum entry.now.form && entry.now.is_error; is_equatable = is_plain entry.now || entry.now.is_equatable; is_printable = is_plain entry.now }) }
{
    let protocols = entry.protocols.copy()?;
    let is_plain = is_plain(entry);
    Ok(TypeFacts {
        members: Declarations::new(alloc),
        protocols,
        is_error: is_enum(entry.form) && entry.is_error,
        is_equatable: is_plain || entry.is_equatable,
        is_printable: is_plain,
    })
}

/// What is known of a type where its own members are these.
fn known_within(
    alloc: Global,
    home: &Home<'_>,
    owner: TypeNo,
    first: u32,
    decl: &Decl,
    entry: &TypeEntry,
) -> Result<TypeFacts, NoMemory>
    ensures { home.now.gives ≡ declared_base owner entry.now.form → IfOk result (λ facts. facts ≡ type_facts home.now.names.now home.now.own.now owner first decl.now entry.now) }
{
    let mut facts = without_members(alloc, entry)?;
    // no `?`, since each way out with the tables alive costs the proof
    match push_all(alloc, &mut facts.members, home, owner, first, decl, entry) {
        Ok(()) => Ok(facts),
        Err(NoMemory) => Err(NoMemory),
    }
}

fn known_with(
    alloc: Global,
    names: &Names,
    own: &Members,
    owner: TypeNo,
    first: u32,
    decl: &Decl,
    entry: &TypeEntry,
) -> Result<TypeFacts, NoMemory>
    ensures { IfOk result (λ facts. facts ≡ type_facts names.now own.now owner first decl.now entry.now) }
{
    let home = Home {
        names,
        own,
        gives: declared_base(owner, entry.form),
    };
    known_within(alloc, &home, owner, first, decl, entry)
}

/// What is known of the type of a declaration, which has this number and this entry, where its first func has that number.
pub(crate) fn type_facts(
    alloc: Global,
    names: &Names,
    owner: TypeNo,
    first: u32,
    decl: &Decl,
    entry: &TypeEntry,
) -> Result<TypeFacts, NoMemory>
    ensures { IfOk result (λ facts. facts ≡ type_facts names.now (members_in decl.now) owner first decl.now entry.now) }
{
    match members_in(alloc, decl) {
        Ok(own) => known_with(alloc, names, &own, owner, first, decl, entry),
        Err(NoMemory) => Err(NoMemory),
    }
}
