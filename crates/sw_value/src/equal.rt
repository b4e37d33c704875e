//! Whether two values are equal.

ghost use Rattle.std.specs.Prelude.{◌≡◌, ◌↔◌, IsTrue, Some};
ghost use Rattle.std.specs.Cmp.{partial_equiv_from_equiv};
ghost use Rattle.std.specs.Cmp.Lexicographic.{pointwise, lists_equiv};
ghost use Rattle.sw_value.specs.declared.value.Value.TheVariants as value;
ghost use Rattle.sw_value.specs.Equal.{same_value, same_value_equiv};

use crate::shared::Shared;
use crate::value::Value;
use sqlite_items::Items;
use sw_base::{ActNo, ActorId, NodeNo, Text, TypeNo};

/// Tells whether two values are equal.
pub fn same(a: &Value, b: &Value) -> bool
    ensures exact { IsTrue result ↔ (a.now ≡ b.now) }
    ensures test { result ≡ same_value a.now b.now }
{
    alike(a, b)
}

/// Tells whether two lists of values are equal.
pub fn same_values(a: &[Value], b: &[Value]) -> bool
    ensures exact { IsTrue result ↔ (a.now ≡ b.now) }
    ensures test { result ≡ pointwise same_value a.now b.now }
{
    each_alike(a, b)
}

impl PartialEq for Value {
    ghost eq = { same_value };

    ghost laws = { partial_equiv_from_equiv same_value_equiv };

    fn eq(&self, other: &Value) -> bool {
        same(self, other)
    }
}

impl Eq for Value {
    ghost laws = { same_value_equiv };
}

impl PartialEq for Shared<Items<Value>> {
    ghost eq = { λ a b. pointwise same_value a b };

    ghost laws = { partial_equiv_from_equiv (lists_equiv same_value_equiv) };

    fn eq(&self, other: &Shared<Items<Value>>) -> bool {
        same_values(self.get().as_slice(), other.get().as_slice())
    }
}

impl Eq for Shared<Items<Value>> {
    ghost laws = { lists_equiv same_value_equiv };
}

#[cycle(same)]
fn alike(a: &Value, b: &Value) -> bool
    ensures { IsTrue result ↔ (a.now ≡ b.now) }
{
    match a {
        Value::Int(m) => is_int(*m, b),
        Value::Bool(x) => is_bool(*x, b),
        Value::Str(text) => is_str(text.get(), b),
        Value::List(items) => is_list(items.get().as_slice(), b),
        Value::Absent => is_absent(b),
        Value::Present(value) => is_present(value.get(), b),
        Value::Made { kind, parts } => is_made(*kind, parts.get().as_slice(), b),
        Value::Case {
            kind,
            case_no,
            parts,
        } => is_case(*kind, *case_no, parts.get().as_slice(), b),
        Value::Plain { kind, act } => is_plain(*kind, *act, b),
        Value::Remote { kind, id } => is_remote(*kind, id, b),
        Value::Id(id) => is_id(id, b),
        Value::System { node, name } => is_system(*node, name, b),
        Value::Void => is_void(b),
    }
}

fn is_int(m: i64, b: &Value) -> bool
    ensures { IsTrue result ↔ (value.Int m ≡ b.now) }
{
    match b {
        Value::Int(n) => m == *n,
        _ => false,
    }
}

fn is_bool(x: bool, b: &Value) -> bool
    ensures { IsTrue result ↔ (value.Bool x ≡ b.now) }
{
    match b {
        Value::Bool(y) => x == *y,
        _ => false,
    }
}

fn is_str(text: &Text, b: &Value) -> bool
    ensures { IsTrue result ↔ (value.Str text.now ≡ b.now) }
{
    match b {
        Value::Str(other) => same_bytes(text.as_bytes(), other.get().as_bytes()),
        _ => false,
    }
}

#[cycle(same)]
fn is_list(items: &[Value], b: &Value) -> bool
    ensures { IsTrue result ↔ (value.List items.now ≡ b.now) }
{
    match b {
        Value::List(others) => each_alike(items, others.get().as_slice()),
        _ => false,
    }
}

fn is_absent(b: &Value) -> bool
    ensures { IsTrue result ↔ (value.Absent ≡ b.now) }
{
    match b {
        Value::Absent => true,
        _ => false,
    }
}

#[cycle(same)]
fn is_present(a: &Value, b: &Value) -> bool
    ensures { IsTrue result ↔ (value.Present a.now ≡ b.now) }
{
    match b {
        Value::Present(other) => alike(a, other.get()),
        _ => false,
    }
}

#[cycle(same)]
fn is_made(kind: TypeNo, parts: &[Value], b: &Value) -> bool
    ensures { IsTrue result ↔ (value.Made kind parts.now ≡ b.now) }
{
    match b {
        Value::Made {
            kind: other,
            parts: others,
        } => kind.0 == other.0 && each_alike(parts, others.get().as_slice()),
        _ => false,
    }
}

#[cycle(same)]
fn is_case(kind: TypeNo, case_no: u8, parts: &[Value], b: &Value) -> bool
    ensures { IsTrue result ↔ (value.Case kind case_no parts.now ≡ b.now) }
{
    match b {
        Value::Case {
            kind: other,
            case_no: number,
            parts: others,
        } => {
            kind.0 == other.0 && case_no == *number && each_alike(parts, others.get().as_slice())
        }
        _ => false,
    }
}

fn is_plain(kind: TypeNo, act: ActNo, b: &Value) -> bool
    ensures { IsTrue result ↔ (value.Plain kind act ≡ b.now) }
{
    match b {
        Value::Plain {
            kind: other,
            act: number,
        } => kind.0 == other.0 && act.0 == number.0,
        _ => false,
    }
}

fn is_remote(kind: TypeNo, id: &ActorId, b: &Value) -> bool
    ensures { IsTrue result ↔ (value.Remote kind id.now ≡ b.now) }
{
    match b {
        Value::Remote {
            kind: other,
            id: identity,
        } => kind.0 == other.0 && same_id(id, identity),
        _ => false,
    }
}

fn is_id(id: &ActorId, b: &Value) -> bool
    ensures { IsTrue result ↔ (value.Id id.now ≡ b.now) }
{
    match b {
        Value::Id(other) => same_id(id, other),
        _ => false,
    }
}

fn is_system(node: NodeNo, name: &Option<Text>, b: &Value) -> bool
    ensures { IsTrue result ↔ (value.System node name.now ≡ b.now) }
{
    match b {
        Value::System {
            node: other,
            name: named,
        } => node.0 == other.0 && same_name(name, named),
        _ => false,
    }
}

fn is_void(b: &Value) -> bool
    ensures { IsTrue result ↔ (value.Void ≡ b.now) }
{
    match b {
        Value::Void => true,
        _ => false,
    }
}

#[cycle(same)]
fn each_alike(a: &[Value], b: &[Value]) -> bool
    ensures { IsTrue result ↔ (a.now ≡ b.now) }
{
    if a.len() != b.len() {
        return false;
    }
    for i in 0..a.len() {
        if !alike(&a[i], &b[i]) {
            return false;
        }
    }
    true
}

fn same_bytes(a: &[u8], b: &[u8]) -> bool
    ensures { IsTrue result ↔ (a.now ≡ b.now) }
{
    a == b
}

fn same_id(a: &ActorId, b: &ActorId) -> bool
    ensures { IsTrue result ↔ (a.now ≡ b.now) }
{
    match (a, b) {
        (
            ActorId::Numbered {
                node: m,
                epoch: e,
                number: i,
            },
            ActorId::Numbered {
                node: n,
                epoch: f,
                number: j,
            },
        ) => m.0 == n.0 && *e == *f && *i == *j,
        (ActorId::Named { node: m, name: a }, ActorId::Named { node: n, name: b }) => {
            m.0 == n.0 && same_bytes(a.as_bytes(), b.as_bytes())
        }
        _ => false,
    }
}

fn same_name(a: &Option<Text>, b: &Option<Text>) -> bool
    ensures { IsTrue result ↔ (a.now ≡ b.now) }
{
    match (a, b) {
        (None, None) => true,
        (Some(a), Some(b)) => same_bytes(a.as_bytes(), b.as_bytes()),
        _ => false,
    }
}
