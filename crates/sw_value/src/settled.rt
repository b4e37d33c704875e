//! Whether a table of declared types is settled.

ghost use Rattle.std.specs.Prelude.{◌≡◌, ◌↔◌, IsTrue, Some, slice_get, unwrap_or};
ghost use Rattle.std.specs.Option.{option_copied};
ghost use Rattle.sw_value.specs.Kinds.{types_of_cases, parts_in, has_parts};
ghost use Rattle.sw_value.specs.Codable.{among, all_among, declares_codable};
ghost use Rattle.sw_value.specs.Settled.{level_at, base_below, parts_below, protocols_above, declared, crosses, holder_at, is_settled, settled_at, IsSettled};

use crate::kinds::{CaseOf, Form, Kind};
use crate::ty::{Base, Ty};
use sw_base::TypeNo;

/// Tells whether a table is settled by these levels.
pub(crate) fn is_settled(kinds: &[Kind], levels: &[u8]) -> bool
    ensures { IsTrue result ↔ IsSettled kinds.now levels.now }
{
    for i in 0..kinds.len() {
        if !settled_at(kinds, levels, level_of(levels, i), &kinds[i]) {
            return false;
        }
    }
    true
}

fn settled_at(kinds: &[Kind], levels: &[u8], level: u8, kind: &Kind) -> bool
    ensures { result ≡ is_settled kinds.now levels.now level kind.now }
{
    !has_parts(&kind.form) || holder_at(kinds, levels, level, kind)
}

fn holder_at(kinds: &[Kind], levels: &[u8], level: u8, kind: &Kind) -> bool
    ensures { result ≡ holder_at kinds.now levels.now level kind.now }
{
    parts_below(levels, level, &kind.form)
        && protocols_above(levels, level, kind.protocols.as_slice())
        && (!crosses(kind) || parts_cross(kinds, &kind.form))
}

fn level_at(levels: &[u8], number: TypeNo) -> u8
    ensures { result ≡ level_at levels.now number }
{
    level_of(levels, number.0 as usize)
}

fn level_of(levels: &[u8], at: usize) -> u8
    ensures { result ≡ unwrap_or (slice_get levels.now at) 0 }
{
    match levels.get(at) {
        Some(level) => *level,
        None => 0,
    }
}

fn base_below(levels: &[u8], level: u8, base: Base) -> bool
    ensures { result ≡ base_below levels.now level base }
{
    match base {
        Base::Struct(number) => level_at(levels, number) < level,
        Base::Enum(number) => level_at(levels, number) < level,
        Base::Any(protocol) => level_at(levels, protocol) < level,
        _ => true,
    }
}

fn types_below(levels: &[u8], level: u8, types: &[Ty]) -> bool
    ensures { result ≡ parts_below levels.now level types.now }
{
    types.iter().all(|t| base_below(levels, level, t.base))
}

fn cases_below(levels: &[u8], level: u8, cases: &[CaseOf]) -> bool
    ensures { result ≡ parts_below levels.now level (types_of_cases cases.now) }
{
    for case in cases {
        if !types_below(levels, level, case.types.as_slice()) {
            return false;
        }
    }
    true
}

fn parts_below(levels: &[u8], level: u8, form: &Form) -> bool
    ensures { result ≡ parts_below levels.now level (parts_in form.now) }
{
    match form {
        Form::Struct(_, types) => types_below(levels, level, types.as_slice()),
        Form::Enum(cases) => cases_below(levels, level, cases.as_slice()),
        _ => true,
    }
}

fn protocols_above(levels: &[u8], level: u8, protocols: &[TypeNo]) -> bool
    ensures { result ≡ protocols_above levels.now level protocols.now }
{
    protocols.iter().all(|p| level <= level_at(levels, *p))
}

fn crosses(kind: &Kind) -> bool
    ensures { result ≡ crosses kind.now }
{
    declares_codable(Some(kind)) || kind.is_error
}

/// Tells whether there is such a type, and it is a struct or an enum that is declared `Codable`.
pub(crate) fn declares_codable(kind: Option<&Kind>) -> bool
    ensures { result ≡ declares_codable (option_copied kind.entry) }
{
    match kind {
        None => false,
        Some(kind) => has_parts(&kind.form) && kind.is_codable,
    }
}

fn has_parts(form: &Form) -> bool
    ensures { result ≡ has_parts form.now }
{
    match form {
        Form::Struct(_, _) => true,
        Form::Enum(_) => true,
        _ => false,
    }
}

/// Tells whether a base may cross, where those structs and enums may that are declared `Codable`.
pub(crate) fn is_among(kinds: &[Kind], base: Base) -> bool
    ensures { result ≡ among (declared kinds.now) base }
{
    match base {
        Base::Int | Base::Bool | Base::Str | Base::Id => true,
        Base::Distributed(_) => true,
        Base::Struct(number) => declares_codable(kinds.get(number.0 as usize)),
        Base::Enum(number) => declares_codable(kinds.get(number.0 as usize)),
        _ => false,
    }
}

fn types_cross(kinds: &[Kind], types: &[Ty]) -> bool
    ensures { result ≡ all_among (declared kinds.now) types.now }
{
    types.iter().all(|t| is_among(kinds, t.base))
}

fn cases_cross(kinds: &[Kind], cases: &[CaseOf]) -> bool
    ensures { result ≡ all_among (declared kinds.now) (types_of_cases cases.now) }
{
    for case in cases {
        if !types_cross(kinds, case.types.as_slice()) {
            return false;
        }
    }
    true
}

fn parts_cross(kinds: &[Kind], form: &Form) -> bool
    ensures { result ≡ all_among (declared kinds.now) (parts_in form.now) }
{
    match form {
        Form::Struct(_, types) => types_cross(kinds, types.as_slice()),
        Form::Enum(cases) => cases_cross(kinds, cases.as_slice()),
        _ => true,
    }
}
