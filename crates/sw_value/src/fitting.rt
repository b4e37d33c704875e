//! Which values fit a type.

ghost use Rattle.std.specs.Prelude.{◌≡◌, [], length, map, nat_eq};
ghost use Rattle.std.specs.List.{list_any};
ghost use Rattle.std.specs.Option.{option_copied};
ghost use Rattle.std.specs.Str.{is_utf8};
ghost use Rattle.sw_value.specs.Kinds.{struct_types, case_types};
ghost use Rattle.sw_value.specs.Fits.{is_string, is_name, id_fits, value_fits, each_fits, parts_fit, parts_fit_some, kind_at, lists_protocol, lists_error, stands_under, is_base, is_struct, is_enum, is_plain, is_distributed};

use crate::MOST;
use crate::kinds::{Form, Kind, Kinds};
use crate::ty::{Base, Mark, Ty};
use crate::value::Value;
use std::str;
use sw_base::{ActorId, Text, TypeNo};

/// Tells whether a value fits a type. It takes no memory.
pub fn fits(kinds: &Kinds, v: &Value, t: &Ty) -> bool
    ensures { result ≡ value_fits kinds.now v.now t.now.marks t.now.base }
{
    fits_under(kinds.as_slice(), v, t.marks.as_slice(), t.base)
}

// Under these marks, the outermost first.
#[cycle(fits)]
fn fits_under(kinds: &[Kind], v: &Value, marks: &[Mark], base: Base) -> bool
    ensures { result ≡ value_fits kinds.now v.now marks.now base }
{
    let Some((mark, within)) = marks.split_first() else {
        return fits_bare(kinds, v, base);
    };
    match mark {
        Mark::Optional => match v {
            Value::Absent => true,
            Value::Present(w) => fits_under(kinds, w.get(), within, base),
            _ => false,
        },
        Mark::Array => match v {
            Value::List(vs) => {
                vs.get().len() <= MOST && each_under(kinds, vs.get().as_slice(), within, base)
            },
            _ => false,
        },
    }
}

#[cycle(fits)]
fn each_under(kinds: &[Kind], vs: &[Value], marks: &[Mark], base: Base) -> bool
    ensures { result ≡ each_fits (map (value_fits kinds.now) vs.now) marks.now base }
{
    for v in vs {
        if !fits_under(kinds, v, marks, base) {
            return false;
        }
    }
    true
}

// Where no mark is left.
#[cycle(fits)]
fn fits_bare(kinds: &[Kind], v: &Value, base: Base) -> bool
    ensures { result ≡ value_fits kinds.now v.now [] base }
{
    match v {
        Value::Int(n) => {
            let _n = *n;
            is_base(Base::Int, base)
        }
        Value::Bool(_) => is_base(Base::Bool, base),
        Value::Str(text) => is_base(Base::Str, base) && is_string(text.get().as_bytes()),
        Value::Made { kind, parts } => {
            (is_struct(*kind, base) || stands_under(kinds, *kind, base))
                && made_fits(kinds, *kind, parts.get().as_slice())
        }
        Value::Case {
            kind,
            case_no,
            parts,
        } => {
            (is_enum(*kind, base) || stands_under(kinds, *kind, base))
                && case_fits(kinds, *kind, *case_no, parts.get().as_slice())
        }
        Value::Plain { kind, act } => {
            let _act = act.0;
            is_plain(*kind, base)
        }
        Value::Remote { kind, id } => is_distributed(*kind, base) && id_fits(id),
        Value::Id(id) => is_base(Base::Id, base) && id_fits(id),
        Value::System { node, name } => {
            is_base(Base::System, base) && node.0 < 16 && is_name(name)
        }
        Value::Void => is_base(Base::Void, base),
        _ => false,
    }
}

#[cycle(fits)]
fn made_fits(kinds: &[Kind], kind: TypeNo, parts: &[Value]) -> bool
    ensures { result ≡ parts_fit_some (map (value_fits kinds.now) parts.now) (struct_types (kind_at kinds.now kind)) }
{
    let Some(kind) = kinds.get(kind.0 as usize) else {
        return false;
    };
    match &kind.form {
        Form::Struct(_, types) => parts_fit(kinds, parts, types.as_slice()),
        _ => false,
    }
}

#[cycle(fits)]
fn case_fits(kinds: &[Kind], kind: TypeNo, case_no: u8, parts: &[Value]) -> bool
    ensures { result ≡ parts_fit_some (map (value_fits kinds.now) parts.now) (case_types case_no (kind_at kinds.now kind)) }
{
    let Some(kind) = kinds.get(kind.0 as usize) else {
        return false;
    };
    let Form::Enum(cases) = &kind.form else {
        return false;
    };
    let Some(case) = cases.get(case_no as usize) else {
        return false;
    };
    parts_fit(kinds, parts, case.types.as_slice())
}

#[cycle(fits)]
fn parts_fit(kinds: &[Kind], parts: &[Value], types: &[Ty]) -> bool
    ensures { result ≡ parts_fit (map (value_fits kinds.now) parts.now) types.now }
{
    if parts.len() != types.len() {
        return false;
    }
    for i in 0..parts.len() {
        if !fits_under(kinds, &parts[i], types[i].marks.as_slice(), types[i].base) {
            return false;
        }
    }
    true
}

/// Tells whether a struct or enum stands under `any` of a protocol or of errors.
fn stands_under(kinds: &[Kind], kind: TypeNo, base: Base) -> bool
    ensures { result ≡ stands_under kinds.now kind base }
{
    match base {
        Base::Any(protocol) => lists_protocol(protocol, kinds.get(kind.0 as usize)),
        Base::AnyError => lists_error(kinds.get(kind.0 as usize)),
        _ => false,
    }
}

fn lists_protocol(protocol: TypeNo, kind: Option<&Kind>) -> bool
    ensures { result ≡ lists_protocol protocol (option_copied kind.entry) }
{
    match kind {
        None => false,
        Some(kind) => has_number(kind.protocols.as_slice(), protocol),
    }
}

fn has_number(protocols: &[TypeNo], protocol: TypeNo) -> bool
    ensures { result ≡ list_any (λ q. nat_eq q.0 protocol.0) protocols.now }
{
    protocols.iter().any(|q| q.0 == protocol.0)
}

fn lists_error(kind: Option<&Kind>) -> bool
    ensures { result ≡ lists_error (option_copied kind.entry) }
{
    match kind {
        None => false,
        Some(kind) => kind.is_error,
    }
}

fn is_base(wanted: Base, base: Base) -> bool
    ensures { result ≡ is_base wanted base }
{
    match (wanted, base) {
        (Base::Int, Base::Int) => true,
        (Base::Bool, Base::Bool) => true,
        (Base::Str, Base::Str) => true,
        (Base::Void, Base::Void) => true,
        (Base::Id, Base::Id) => true,
        (Base::System, Base::System) => true,
        _ => false,
    }
}

fn is_struct(kind: TypeNo, base: Base) -> bool
    ensures { result ≡ is_struct kind base }
{
    match base {
        Base::Struct(other) => kind.0 == other.0,
        _ => false,
    }
}

fn is_enum(kind: TypeNo, base: Base) -> bool
    ensures { result ≡ is_enum kind base }
{
    match base {
        Base::Enum(other) => kind.0 == other.0,
        _ => false,
    }
}

fn is_plain(kind: TypeNo, base: Base) -> bool
    ensures { result ≡ is_plain kind base }
{
    match base {
        Base::Plain(other) => kind.0 == other.0,
        _ => false,
    }
}

fn is_distributed(kind: TypeNo, base: Base) -> bool
    ensures { result ≡ is_distributed kind base }
{
    match base {
        Base::Distributed(other) => kind.0 == other.0,
        _ => false,
    }
}

fn is_string(bytes: &[u8]) -> bool
    ensures { result ≡ is_string bytes.now }
{
    bytes.len() <= MOST && is_utf8(bytes)
}

fn is_utf8(bytes: &[u8]) -> bool
    ensures { result ≡ is_utf8 bytes.now }
{
    match str::from_utf8(bytes) {
        Ok(_) => true,
        Err(_) => false,
    }
}

fn is_name(name: &Option<Text>) -> bool
    ensures { result ≡ is_name name.now }
{
    match name {
        None => true,
        Some(name) => is_string(name.as_bytes()),
    }
}

fn id_fits(id: &ActorId) -> bool
    ensures { result ≡ id_fits id.now }
{
    match id {
        ActorId::Numbered {
            node,
            epoch,
            number,
        } => {
            let _epoch = *epoch;
            let _number = *number;
            node.0 < 16
        }
        ActorId::Named { node, name } => node.0 < 16 && is_string(name.as_bytes()),
    }
}
