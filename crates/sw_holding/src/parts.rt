//! The parts of a declared type.

ghost use Rattle.std.specs.Prelude.{◌≡◌, ◌++◌, IfOk, OnOk, map, slice_get};
ghost use Rattle.sw_value.specs.Kinds.{has_parts, parts_in, types_of_cases};
ghost use Rattle.sw_holding.specs.Edges.{bases_of};
ghost use Rattle.sw_holding.specs.Holds.{is_value, is_protocol, is_protocol_form};

use std::alloc::Global;
use sw_base::{Items, NoMemory};
use sw_value::{Base, CaseOf, Form, Kind, Ty};

/// The bases of the parts of a struct or an enum; nothing else has parts.
pub(crate) fn bases_in(alloc: Global, form: &Form) -> Result<Items<Base>, NoMemory>
    ensures { IfOk result (λ bases. bases ≡ bases_of (parts_in form.now)) }
{
    let mut bases = Items::new(alloc);
    match form {
        Form::Struct(_, types) => push_bases(&mut bases, types.as_slice())?,
        Form::Enum(cases) => push_payloads(&mut bases, cases.as_slice())?,
        _ => {}
    }
    Ok(bases)
}

fn push_payloads(bases: &mut Items<Base>, cases: &[CaseOf]) -> Result<(), NoMemory>
    ensures { OnOk result (bases.new ≡ bases.old ++ bases_of (types_of_cases cases.now)) }
{
    for case in cases {
        push_bases(bases, case.types.as_slice())?;
    }
    Ok(())
}

fn push_bases(bases: &mut Items<Base>, types: &[Ty]) -> Result<(), NoMemory>
    ensures { OnOk result (bases.new ≡ bases.old ++ bases_of types.now) }
{
    for t in types {
        bases.push(t.base)?;
    }
    Ok(())
}

/// Tells whether a type is a struct or an enum.
pub(crate) fn has_parts(form: &Form) -> bool
    ensures { result ≡ has_parts form.now }
{
    match form {
        Form::Struct(_, _) => true,
        Form::Enum(_) => true,
        _ => false,
    }
}

/// Tells whether a type is a protocol.
pub(crate) fn is_protocol_form(form: &Form) -> bool
    ensures { result ≡ is_protocol_form form.now }
{
    match form {
        Form::Protocol => true,
        _ => false,
    }
}

/// Tells whether a struct or an enum has this number.
pub(crate) fn is_value(kinds: &[Kind], number: usize) -> bool
    ensures { result ≡ is_value (slice_get kinds.now number) }
{
    match kinds.get(number) {
        None => false,
        Some(kind) => has_parts(&kind.form),
    }
}

/// Tells whether a protocol has this number.
pub(crate) fn is_protocol(kinds: &[Kind], number: usize) -> bool
    ensures { result ≡ is_protocol (slice_get kinds.now number) }
{
    match kinds.get(number) {
        None => false,
        Some(kind) => is_protocol_form(&kind.form),
    }
}
