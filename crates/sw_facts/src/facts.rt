//! What is known of all types and funcs of a source.

ghost use Rattle.std.specs.Prelude.{◌≡◌, ◌++◌, [], IfOk, OnOk};
ghost use Rattle.std.specs.Option.{option_copied};
ghost use Rattle.sw_declared.specs.Declarations.{count_types, funcs_in};
ghost use Rattle.sw_facts.specs.Known.{entry_at, file_func, known, known_of, types_from};
ghost use Rattle.sw_facts.specs.BuiltIns.{built_in_funcs, of_array, of_id, of_int, of_string, of_system};
ghost use Rattle.sw_facts.specs.Numbers.{any_owner, counted};

use crate::built_in::{
    push_funcs, push_of_array, push_of_id, push_of_int, push_of_string, push_of_system,
};
use crate::call_error::call_error;
use crate::counts::count_funcs;
use crate::funcs::func;
use crate::numbers::after;
use crate::types::type_facts;
use std::alloc::Global;
use sw_base::{Items, NoMemory, TypeNo};
use sw_declared::{Members, Names};
use sw_members::Declarations;
use sw_tree::{Decl, Tree};
use sw_type_table::TypeEntry;
use sw_typing::{Facts, TypeFacts};

/// One for a declaration of a type, and none for any other.
fn count_types(decl: &Decl) -> u32
    ensures { result ≡ count_types decl.now }
{
    match decl {
        Decl::Struct(_, _) => 1,
        Decl::Enum(_, _) => 1,
        Decl::Protocol(_, _) => 1,
        Decl::Actor(_, _) => 1,
        _ => 0,
    }
}

/// The entry of the type that a declaration declares, where there are so many types before it.
fn entry_at<'a>(table: &'a [TypeEntry], before: u32, decl: &Decl) -> Option<&'a TypeEntry>
    ensures { option_copied result ≡ entry_at table.now before decl.now }
{
    if count_types(decl) == 0 {
        return None;
    }
    table.get(before as usize)
}

/// Adds what is known of the type that a declaration declares, if it does.
fn push_type(
    alloc: Global,
    types: &mut Items<TypeFacts>,
    names: &Names,
    table: &[TypeEntry],
    counts: (u32, u32),
    decl: &Decl,
) -> Result<(), NoMemory>
    ensures { OnOk result (types.new ≡ types.old ++ known_of names.now counts.0 counts.1 decl.now (entry_at table.now counts.0 decl.now)) }
{
    let (before, first) = counts;
    match entry_at(table, before, decl) {
        None => Ok(()),
        Some(entry) => {
            let owner = TypeNo(after(before, 1)?);
            match type_facts(alloc, names, owner, first, decl, entry) {
                Ok(facts) => types.push(facts),
                Err(NoMemory) => Err(NoMemory),
            }
        }
    }
}

/// Adds what is known of the types that declarations declare.
fn push_types(
    alloc: Global,
    types: &mut Items<TypeFacts>,
    names: &Names,
    table: &[TypeEntry],
    decls: &[Decl],
) -> Result<(), NoMemory>
    ensures { OnOk result (types.new ≡ types.old ++ types_from names.now table.now 0 0 decls.now) }
{
    let mut before: u32 = 0;
    let mut number: u32 = 0;
    for decl in decls {
        push_type(alloc, types, names, table, (before, number), decl)?;
        before = after(before, count_types(decl))?;
        number = after(number, count_funcs(decl)?)?;
    }
    Ok(())
}

/// Adds the func of the file that a declaration is, if it is one.
fn push_func(
    alloc: Global,
    list: &mut Declarations,
    names: &Names,
    nothing: &Members,
    number: u32,
    decl: &Decl,
) -> Result<(), NoMemory>
    ensures { nothing.now ≡ [] → OnOk result (list.new ≡ list.old ++ file_func names.now number decl.now) }
{
    match decl {
        Decl::Func(x) => list.push(func(alloc, names, nothing, number, x)?),
        _ => Ok(()),
    }
}

fn push_with(
    alloc: Global,
    list: &mut Declarations,
    names: &Names,
    nothing: &Members,
    decls: &[Decl],
) -> Result<(), NoMemory>
    ensures { nothing.now ≡ [] → OnOk result (list.new ≡ list.old ++ counted (funcs_in any_owner) (file_func names.now) 0 decls.now) }
{
    let mut number: u32 = 0;
    for decl in decls {
        push_func(alloc, list, names, nothing, number, decl)?;
        number = after(number, count_funcs(decl)?)?;
    }
    Ok(())
}

/// Adds the funcs of a file.
fn push_file_funcs(
    alloc: Global,
    list: &mut Declarations,
    names: &Names,
    decls: &[Decl],
) -> Result<(), NoMemory>
    ensures { OnOk result (list.new ≡ list.old ++ counted (funcs_in any_owner) (file_func names.now) 0 decls.now) }
{
    let nothing = Members::new(alloc);
    push_with(alloc, list, names, &nothing, decls)
}

/// Nothing is known.
fn nothing(alloc: Global) -> Facts
    ensures { result ≡ record { types = []; funcs = []; built_in = []; of_int = []; of_string = []; of_array = []; of_id = []; of_system = [] } }
{
    Facts {
        types: Items::new(alloc),
        funcs: Declarations::new(alloc),
        built_in: Declarations::new(alloc),
        of_int: Declarations::new(alloc),
        of_string: Declarations::new(alloc),
        of_array: Declarations::new(alloc),
        of_id: Declarations::new(alloc),
        of_system: Declarations::new(alloc),
    }
}

/// Adds what the language has without a declaration.
fn push_built_in(alloc: Global, facts: &mut Facts) -> Result<(), NoMemory>
    ensures { OnOk result (facts.new ≡ record facts.old { built_in = facts.old.built_in ++ built_in_funcs; of_int = facts.old.of_int ++ of_int; of_string = facts.old.of_string ++ of_string; of_array = facts.old.of_array ++ of_array; of_id = facts.old.of_id ++ of_id; of_system = facts.old.of_system ++ of_system }) }
{
    push_funcs(alloc, &mut facts.built_in)?;
    push_of_int(alloc, &mut facts.of_int)?;
    push_of_string(alloc, &mut facts.of_string)?;
    push_of_array(alloc, &mut facts.of_array)?;
    push_of_id(alloc, &mut facts.of_id)?;
    push_of_system(alloc, &mut facts.of_system)
}

/// Adds all that is known.
fn push_known(
    alloc: Global,
    facts: &mut Facts,
    names: &Names,
    table: &[TypeEntry],
    decls: &[Decl],
) -> Result<(), NoMemory>
    ensures { facts.old ≡ record { types = []; funcs = []; built_in = []; of_int = []; of_string = []; of_array = []; of_id = []; of_system = [] } → OnOk result (facts.new ≡ known names.now table.now (record { decls = decls.now })) }
{
    facts.types.push(call_error(alloc)?)?;
    push_types(alloc, &mut facts.types, names, table, decls)?;
    push_file_funcs(alloc, &mut facts.funcs, names, decls)?;
    push_built_in(alloc, facts)
}

/// What is known of the types and funcs of a source as they are declared, by the table of its types: first
/// `DistributedCallError`, and then the declared types in the order of the source. A property without a written type gives
/// none. The only error is want of memory, or of numbers for types and funcs.
pub fn known(
    alloc: Global,
    names: &Names,
    table: &[TypeEntry],
    tree: &Tree,
) -> Result<Facts, NoMemory>
    ensures { IfOk result (λ facts. facts ≡ known names.now table.now tree.now) }
{
    let mut facts = nothing(alloc);
    // no `?`, since each way out with the tables alive costs the proof
    match push_known(alloc, &mut facts, names, table, tree.decls.as_slice()) {
        Ok(()) => Ok(facts),
        Err(NoMemory) => Err(NoMemory),
    }
}
