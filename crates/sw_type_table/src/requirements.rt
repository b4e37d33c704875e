//! The requirements of protocols.

ghost use Rattle.std.specs.Prelude.{◌≡◌, [], map, IfOk};
ghost use Rattle.sw_type_table.specs.Table.{requirement_entry, result_type, signature};
ghost use Rattle.sw_type_table.specs.Written.{written};

use crate::entry::{Requirement, Signature};
use crate::marks::written;
use std::alloc::Global;
use sw_base::{Duplicate, Items, NoMemory};
use sw_declared::{Members, Names, is_mutating, is_static, parameter_labels};
use sw_tree::{Parameter, Type};
use sw_value::{Base, Ty};

/// What a func gives: `Void` where no result is written.
fn result_type(
    alloc: Global,
    names: &Names,
    own: &Members,
    t: &Option<Type>,
) -> Result<Option<Ty>, NoMemory>
    ensures { IfOk result (λ found. found ≡ result_type names.now own.now t.now) }
{
    match t {
        None => Ok(Some(Ty {
            marks: Items::new(alloc),
            base: Base::Void,
        })),
        Some(t) => written(alloc, names, own, t),
    }
}

fn parameter_types(
    alloc: Global,
    names: &Names,
    own: &Members,
    parameters: &[Parameter],
) -> Result<Items<Option<Ty>>, NoMemory>
    ensures { IfOk result (λ types. types ≡ map (λ p. written names.now own.now p.declared) parameters.now) }
{
    let mut types = Items::new(alloc);
    for parameter in parameters {
        types.push(written(alloc, names, own, &parameter.declared)?)?;
    }
    Ok(types)
}

/// The name, the parameters and the result of a func that a type with these members writes, or that a protocol, which has
/// none, requires.
///
/// # Errors
/// [`NoMemory`] where there is no memory for them, or where the file declares more types than there are numbers.
pub fn signature(
    alloc: Global,
    names: &Names,
    own: &Members,
    x: &sw_tree::Signature,
) -> Result<Signature, NoMemory>
    ensures { IfOk result (λ found. found ≡ signature names.now own.now x.now) }
{
    Ok(Signature {
        name: x.name.text.copy()?,
        labels: parameter_labels(alloc, x.parameters.as_slice())?,
        types: parameter_types(alloc, names, own, x.parameters.as_slice())?,
        result: result_type(alloc, names, own, &x.result)?,
        is_static: is_static(x.modifiers.as_slice()),
        is_mutating: is_mutating(x.modifiers.as_slice()),
        is_async: x.is_async,
        throws: x.throws,
    })
}

fn requirement_entry(
    alloc: Global,
    names: &Names,
    own: &Members,
    x: &sw_tree::Requirement,
) -> Result<Requirement, NoMemory>
    ensures { IfOk result (λ found. found ≡ requirement_entry names.now own.now x.now) }
{
    match x {
        sw_tree::Requirement::Func(x) => { Ok(Requirement::Func(signature(alloc, names, own, x)?)) }
        sw_tree::Requirement::Property(name, t) => Ok(Requirement::Property(
            name.text.copy()?,
            written(alloc, names, own, t)?,
        )),
    }
}

/// The entries of the requirements of a protocol, which has no members.
pub(crate) fn requirements_of(
    alloc: Global,
    names: &Names,
    own: &Members,
    requirements: &[sw_tree::Requirement],
) -> Result<Items<Requirement>, NoMemory>
    ensures { IfOk result (λ entries. entries ≡ map (requirement_entry names.now own.now) requirements.now) }
{
    let mut entries = Items::new(alloc);
    for requirement in requirements {
        entries.push(requirement_entry(alloc, names, own, requirement)?)?;
    }
    Ok(entries)
}
