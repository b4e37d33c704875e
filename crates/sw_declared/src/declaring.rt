//! The tables of all that a source declares.

ghost use Rattle.std.specs.Prelude.{◌≡◌, ◌++◌, IfOk, OnOk};
ghost use Rattle.std.specs.List.{flat_map};
ghost use Rattle.sw_declared.specs.Declarations.{aliases_in, count_types, declarations, declared_type, funcs_from, funcs_in, types_in};

use crate::funcs::push_funcs;
use crate::labels::is_distributed;
use crate::names::{Alias, DeclaredType, Form, Names};
use crate::own::{alias_inner, members_in};
use crate::tables::{Aliases, Funcs, Types};
use std::alloc::Global;
use sw_base::{Duplicate, NoMemory, TypeNo};
use sw_tree::{Decl, Heading, Tree};

fn declared(
    alloc: Global,
    heading: &Heading,
    form: Form,
    decl: &Decl,
) -> Result<DeclaredType, NoMemory>
    ensures { IfOk result (λ declared. declared ≡ declared_type heading.now form decl.now) }
{
    Ok(DeclaredType {
        name: heading.name.text.copy()?,
        form,
        members: members_in(alloc, decl)?,
    })
}

/// Adds the type that a declaration declares, if it does.
fn push_type(alloc: Global, types: &mut Types, decl: &Decl) -> Result<(), NoMemory>
    ensures { OnOk result (types.new ≡ types.old ++ types_in decl.now) }
{
    match decl {
        Decl::Struct(heading, _) => types.push(declared(alloc, heading, Form::Struct, decl)?),
        Decl::Enum(heading, _) => types.push(declared(alloc, heading, Form::Enum, decl)?),
        Decl::Protocol(heading, _) => types.push(declared(alloc, heading, Form::Protocol, decl)?),
        Decl::Actor(heading, _) => {
            let form = if is_distributed(heading) {
                Form::DistributedActor
            } else {
                Form::Actor
            };
            types.push(declared(alloc, heading, form, decl)?)
        }
        _ => Ok(()),
    }
}

/// Adds the alias that a declaration declares, if it does.
fn push_alias(aliases: &mut Aliases, decl: &Decl) -> Result<(), NoMemory>
    ensures { OnOk result (aliases.new ≡ aliases.old ++ aliases_in decl.now) }
{
    match decl {
        Decl::Typealias(x) => aliases.push(Alias {
            name: x.name.text.copy()?,
            inner: alias_inner(x),
        }),
        _ => Ok(()),
    }
}

/// The number of types that a declaration declares.
fn count_types(decl: &Decl) -> u32
    ensures { result ≡ count_types decl.now }
{
    match decl {
        Decl::Struct(_, _) => 1,
        Decl::Enum(_, _) => 1,
        Decl::Protocol(_, _) => 1,
        Decl::Actor(_, _) => 1,
        _ => 0,
    }
}

/// Adds all that a declaration declares; its type, if it declares one, has this number.
fn push_decl(alloc: Global, names: &mut Names, number: TypeNo, decl: &Decl) -> Result<(), NoMemory>
    ensures types { OnOk result (names.new.types ≡ names.old.types ++ types_in decl.now) }
    ensures aliases { OnOk result (names.new.aliases ≡ names.old.aliases ++ aliases_in decl.now) }
    ensures funcs { OnOk result (names.new.funcs ≡ names.old.funcs ++ funcs_in number decl.now) }
{
    push_type(alloc, &mut names.types, decl)?;
    push_alias(&mut names.aliases, decl)?;
    push_funcs(alloc, &mut names.funcs, number, decl)
}

/// Adds all that declarations declare, of which the first type has the number 1.
fn push_decls(alloc: Global, names: &mut Names, decls: &[Decl]) -> Result<(), NoMemory>
    ensures types { OnOk result (names.new.types ≡ names.old.types ++ flat_map types_in decls.now) }
    ensures aliases { OnOk result (names.new.aliases ≡ names.old.aliases ++ flat_map aliases_in decls.now) }
    ensures funcs { OnOk result (names.new.funcs ≡ names.old.funcs ++ funcs_from 1 decls.now) }
{
    let mut number: u32 = 1;
    for decl in decls {
        push_decl(alloc, names, TypeNo(number), decl)?;
        let Some(next) = number.checked_add(count_types(decl)) else {
            return Err(NoMemory);
        };
        number = next;
    }
    Ok(())
}

/// All that a source declares. The only error is want of memory, or of numbers for its types.
pub fn declare(alloc: Global, tree: &Tree) -> Result<Names, NoMemory>
    ensures { IfOk result (λ names. names ≡ declarations tree.now) }
{
    let mut names = Names {
        types: Types::new(alloc),
        aliases: Aliases::new(alloc),
        funcs: Funcs::new(alloc),
    };
    // no `?`, since each way out with the tables alive costs the proof
    match push_decls(alloc, &mut names, tree.decls.as_slice()) {
        Ok(()) => Ok(names),
        Err(NoMemory) => Err(NoMemory),
    }
}
